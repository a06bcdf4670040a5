// Evaluating: the first entry of a list that does not hold on a record in memory, and the first compiled one.
#![tactic(auto)]

ghost use Rattle.std.specs.Prelude.{◌≡◌, ◌<◌, ◌≤◌};
ghost use Rattle.diagrams.specs.View.{diagram_of};
ghost use Rattle.rules.specs.Compile.{compile};
ghost use Rattle.rules.specs.Evaluate.{holds, first_failing};
ghost use Rattle.memory_rules.specs.SiteIn.{site_in};
ghost use Rattle.entries.specs.View.{entry_seen, entries_in};
ghost use Rattle.link_rules.specs.Judged.{Says};
ghost use Rattle.evaluating.specs.Named.{NamedIn};
ghost use Rattle.evaluating.specs.Evaluates.{Evaluates};

use diagrams::ReadDiagram;
use entries::{Entries, Entry};
use fields::Refusal;
use link_rules::Links;
use masks::Limits;
use records::MemoryRecord;
use tables::Roles;

// ---- an entry, by its kind

// Kinds and sides are numbers of the compiled record, as an entry has them.
#[tactic(auto, using(crate::proofs::SideLaws::side_laws), unfolding(rules::specs::Evaluate::holds))]
fn entry_holds(links: &Links, entry: Entry) -> bool
    requires { entry.association < links.now.associations.now.count }
    ensures { Says (λ d x. holds d x (entry_seen entry)) links.now result }
{
    let association = links.association(usize::from(entry.association));
    let limits = Limits {
        low: entry.low,
        up: Some(entry.up),
    };
    let lower = Limits {
        low: entry.low,
        up: None,
    };
    match entry.kind {
        1 => association.targets_hold(entry.side, limits),
        2 => association.targets_hold(entry.side, lower),
        3 => association.sources_hold(entry.side, limits),
        4 => association.sources_hold(entry.side, lower),
        5 => association.mirror_holds(),
        _ => association.one_whole(),
    }
}

// ---- a list of entries

// The index of the first entry that does not hold, or their number, as the reply has it.
#[tactic(auto, unfolding(entries::specs::View::entry_in))]
fn first_failing(links: &Links, e: &Entries) -> usize
    requires { NamedIn links.now.associations.now e.now }
    ensures { Says (λ d x. first_failing d x (entries_in e.now)) links.now result }
{
    (0..e.number)
        .find(|k| !entry_holds(links, e.list[*k]))
        .unwrap_or(e.number)
}

// ---- the compiled list

// The index of the first compiled entry that does not hold, or their number, as the reply has it.
#[tactic(auto, using(crate::proofs::KnownLaws::named))]
pub fn first_false(d: ReadDiagram, m: MemoryRecord) -> usize
    requires { m.count ≤ 8 }
    ensures { result ≡ first_failing (diagram_of d.stored) (site_in (diagram_of d.stored) m) (compile (diagram_of d.stored)) }
{
    let roles = Roles::new(&d, &m, tables::instance_masks(d, m));
    first_failing(&Links::of(&roles), &compiling::compile_entries(d))
}

// ---- a record file

// How many compiled predicates there are, if all hold; else the index of the first that does not.
#[tactic(auto, using(crate::proofs::FileLaws::file_laws))]
pub fn evaluate(d: ReadDiagram, file: &[u8]) -> Result<usize, Refusal>
    ensures { Evaluates (diagram_of d.stored) file.now result }
{
    checking::check_record(file)?;
    Ok(first_false(d, resolving::resolve(d, file)))
}
