// Needs by what a query asks of its first object.
ghost use Rattle.std.specs.Prelude.{◌≤◌, Some};
ghost use Rattle.worlds.specs.Asked.{Satisfies, Sane};
ghost use Rattle.demands.specs.Wishes.{Sharpens};
ghost use Rattle.clashes.specs.Sources.{SourcesKept};
ghost use Rattle.demands.specs.Families.{RowsOpen};

use crate::Start;
use worlds::{Query, Tables};

// How many targets it has in one slot, and how many sources in one.
pub(crate) fn with_own(best: u32, s: Start, tables: &Tables, q: &Query) -> Option<u32>
    requires { Sane q.now × (q.now.seeds ≤ s.k) }
    ensures { Sharpens (λ w. RowsOpen tables.now.targets tables.now.lows tables.now.highs q.now.shut w × SourcesKept tables.now.sources w × Satisfies q.now w) s (Some best) result }
{
    if q.seeds == 0 {
        return Some(best);
    }
    let row = crate::rows::with_first_row(best, s, tables, &q.shut, q.row)?;
    crate::columns::with_sources(row, s, tables, q.column, 0)
}
