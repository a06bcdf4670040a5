// Judging: the lowest rule that a record in memory breaks.
#![tactic(auto)]

ghost use Rattle.std.specs.Prelude.{◌≡◌};
ghost use Rattle.diagrams.specs.View.{diagram_of};
ghost use Rattle.memory_rules.specs.JudgeIn.{lowest_in};
ghost use Rattle.tables.specs.Tables.{Coded};
ghost use Rattle.judging.specs.Judges.{Judges};

use diagrams::ReadDiagram;
use fields::Refusal;
use link_rules::Links;
use records::MemoryRecord;
use tables::{Roles, Values};

// ---- all nine

// The lowest that is broken, or 0, as the definition `lowest_in` has it: a number, and the reply's. An Option of a rule would be made into
// that number again by each caller.
#[tactic(auto, unfolding(memory_rules::specs::JudgeIn::lowest_in, laws::specs::Connective::unless))]
pub fn lowest_broken(d: ReadDiagram, m: MemoryRecord) -> u8
    requires { Coded (diagram_of d.stored) m }
    ensures { result ≡ lowest_in (diagram_of d.stored) m }
{
    if !object_rules::types_concrete(&d, &m) {
        return 1;
    }
    if !object_rules::singletons_single(&d, &m) {
        return 2;
    }
    let masks = tables::instance_masks(d, m);
    let values = Values::new(&d, &m, masks);
    if !object_rules::values_declared(&values) {
        return 3;
    }
    if !object_rules::values_belong(&values) {
        return 4;
    }
    let roles = Roles::new(&d, &m, masks);
    if !object_rules::links_permitted(&roles) {
        return 5;
    }
    Links::of(&roles).lowest_broken()
}

// ---- a record file

// 0, or the lowest rule broken.
#[tactic(auto, using(crate::proofs::FileLaws::file_laws))]
pub fn judge(d: ReadDiagram, file: &[u8]) -> Result<u8, Refusal>
    ensures { Judges (diagram_of d.stored) file.now result }
{
    checking::check_record(file)?;
    Ok(lowest_broken(d, resolving::resolve(d, file)))
}
