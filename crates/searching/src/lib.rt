// The search for a record of n objects that is legal for the old diagram and illegal for the new one, by types: an allowed world that does
// not keep the new diagram's tables, and values for its objects.
#![tactic(auto)]

ghost use Rattle.std.specs.Prelude.{◌≤◌};
ghost use Rattle.type_tables.specs.Pairs.{new_of, old_of};
ghost use Rattle.searching.specs.Answer.{Level};
ghost use Rattle.searching.specs.Ready.{Ready};

use records::MemoryRecord;
use type_tables::PairDues;
use worlds::{Others, Tables};

// A record of n objects, by the tables of both diagrams: old's own, and new's by old's types and role slots. What `Ready` says of them is
// no part of a struct, since it speaks of a table of targets besides, which no struct keeps.
pub fn search(by: &PairDues, tables: &Tables, others: &Others, n: u8) -> Option<MemoryRecord>
    requires { Ready (old_of by.now.pair) (new_of by.now.pair) tables.now others.now × (n ≤ 8) }
    ensures { Level (old_of by.now.pair) (new_of by.now.pair) n result }
{
    let site = aims::find_break(tables, others, n)?;
    Some(type_values::with_values(by, site, n))
}
