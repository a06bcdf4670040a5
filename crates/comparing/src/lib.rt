// Compare: whether some record of at most `bound` objects is legal for the old diagram and illegal for the new one, and one with
// fewest objects.
#![tactic(auto)]

ghost use Rattle.std.specs.Prelude.{◌≤◌};
ghost use Rattle.diagrams.specs.View.{diagram_of};
ghost use Rattle.type_tables.specs.Pairs.{new_of, old_of};
ghost use Rattle.searching.specs.Ready.{Ready};
ghost use Rattle.comparing.specs.Sought.{Sought};
ghost use Rattle.comparing.specs.Compared.{Compares};

use diagrams::ReadDiagram;
use records::MemoryRecord;
use sheets::Rows;
use type_tables::{Pair, PairDues};
use worlds::{Others, Tables};

// The least number of objects first: the first witness found has fewest. A loop: its invariant, none below n, is `Sought`'s own word; of
// `find_map` the same would be said of the closure first.
fn least(by: &PairDues, tables: &Tables, others: &Others, most: u8) -> Option<MemoryRecord>
    requires { Ready (old_of by.now.pair) (new_of by.now.pair) tables.now others.now × (most ≤ 8) }
    ensures { Sought (old_of by.now.pair) (new_of by.now.pair) most result }
{
    for n in 0..=most {
        if let Some(witness) = searching::search(by, tables, others, n) {
            return Some(witness);
        }
    }
    None
}

// A witness of a difference, if there is one. A record has at most 8 objects.
pub fn compare(old: ReadDiagram, new: ReadDiagram, bound: u8) -> Option<MemoryRecord>
    ensures { Compares (diagram_of old.stored) (diagram_of new.stored) bound result }
{
    let dues = &type_tables::due_values(&old);
    let own = &Pair {
        old: &old,
        new: &old,
    };
    let both = &Pair {
        old: &old,
        new: &new,
    };
    let by = &PairDues::of(&old, &new, dues);
    let usable = sheets::usable_types(by);
    let Rows {
        targets,
        lows,
        highs,
    } = sheets::rows_by(own);
    let targets = narrowing::narrowed(&targets, &highs, usable);
    let sources = sheets::sources_of(&targets);
    let tables = Tables {
        targets,
        sources,
        lows,
        highs,
        lines: sheets::lines_by(own),
        usable,
        singles: sheets::single_types(own),
    };
    let Rows {
        targets,
        lows,
        highs,
    } = sheets::rows_by(both);
    let others = Others {
        targets,
        lows,
        highs,
        lines: sheets::lines_by(both),
        bad: type_values::bad_types(by) | sheets::missing_links(both),
        singles: sheets::single_types(both),
        missing: sheets::single_missing(both),
    };
    least(by, &tables, &others, bound.min(8))
}
