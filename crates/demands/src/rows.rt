// Needs by rows: how many targets an object has in a role slot.
ghost use Rattle.std.specs.Prelude.{◌*◌, ◌<◌, Some};
ghost use Rattle.growing.specs.World.{target_count};
ghost use Rattle.link_search.specs.Nets.{InLimits};
ghost use Rattle.demands.specs.Wishes.{Sharpens};
ghost use Rattle.demands.specs.Families.{RowsOpen};

use crate::Start;
use worlds::{RowLimits, Tables};

// The rows of object o.
fn with_rows_of(mut best: u32, s: Start, tables: &Tables, shut: &[u8; 256], o: u8) -> Option<u32>
    requires { o < s.k }
    ensures { Sharpens (RowsOpen tables.now.targets tables.now.lows tables.now.highs shut.now) s (Some best) result }
{
    for i in 0u8..32 {
        let x = s.types.row(o, i);
        let low = tables.lows[x];
        if 0 < low {
            best = crate::needs::with_limits(
                best,
                s,
                tables.targets[x],
                shut[laws::place(o, i)],
                low,
                tables.highs[x],
            )?;
        }
    }
    Some(best)
}

// The rows of all given objects.
pub(crate) fn with_rows(mut best: u32, s: Start, tables: &Tables, shut: &[u8; 256]) -> Option<u32>
    ensures { Sharpens (RowsOpen tables.now.targets tables.now.lows tables.now.highs shut.now) s (Some best) result }
{
    for o in 0..s.k {
        best = with_rows_of(best, s, tables, shut, o)?;
    }
    Some(best)
}

// The row of the first object in one slot, with limits of its own.
pub(crate) fn with_first_row(
    best: u32,
    s: Start,
    tables: &Tables,
    shut: &[u8; 256],
    row: RowLimits,
) -> Option<u32>
    requires { (0 < s.k) × (row.slot < 32) }
    ensures { Sharpens (λ w. RowsOpen tables.now.targets tables.now.lows tables.now.highs shut.now w × InLimits row.low row.high (target_count w row.slot 0)) s (Some best) result }
{
    let x = s.types.row(0, row.slot);
    crate::needs::with_limits(
        best,
        s,
        tables.targets[x],
        shut[usize::from(row.slot)],
        tables.lows[x].max(row.low),
        tables.highs[x].min(row.high),
    )
}
