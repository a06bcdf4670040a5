// Needs by columns: how many sources an object has in a role slot.
ghost use Rattle.std.specs.Prelude.{◌<◌, Some};
ghost use Rattle.growing.specs.World.{source_count};
ghost use Rattle.link_search.specs.Nets.{InLimits};
ghost use Rattle.worlds.specs.Kept.{ColumnsKept};
ghost use Rattle.demands.specs.Wishes.{Sharpens};
ghost use Rattle.clashes.specs.Sources.{SourcesKept};
ghost use Rattle.demands.specs.Families.{SourcesWithin};

use crate::Start;
use laws::Mask;
use worlds::{ColumnLimits, Tables};

// The sources of object p are as asked.
pub(crate) fn with_sources(
    best: u32,
    s: Start,
    tables: &Tables,
    asked: ColumnLimits,
    p: u8,
) -> Option<u32>
    requires { (p < s.k) × (asked.slot < 32) }
    ensures { Sharpens (λ w. SourcesKept tables.now.sources w × InLimits asked.least asked.most (source_count w asked.slot asked.from p)) s (Some best) result }
{
    let x = s.types.row(p, asked.slot);
    crate::needs::with_limits(
        best,
        s,
        asked.from & tables.sources[x],
        0,
        asked.least,
        asked.most,
    )
}

// One column: the sources of the given objects with a type of the mask `to` are as asked.
fn with_column(
    mut best: u32,
    s: Start,
    tables: &Tables,
    asked: ColumnLimits,
    to: u32,
) -> Option<u32>
    requires { asked.slot < 32 }
    ensures { Sharpens (λ w. SourcesKept tables.now.sources w × SourcesWithin asked.slot asked.from to asked.least asked.most w) s (Some best) result }
{
    for p in 0..s.k {
        if to.has(s.types.of(p)) {
            best = with_sources(best, s, tables, asked, p)?;
        }
    }
    Some(best)
}

// All columns.
pub(crate) fn with_columns(mut best: u32, s: Start, tables: &Tables) -> Option<u32>
    ensures { Sharpens (λ w. SourcesKept tables.now.sources w × ColumnsKept tables.now.lines w) s (Some best) result }
{
    for j in 0..16 {
        let column = tables.lines.columns[j];
        if 0 < column.low {
            let asked = ColumnLimits {
                slot: column.slot,
                from: column.from,
                least: column.low,
                most: column.high,
            };
            best = with_column(best, s, tables, asked, column.to)?;
        }
    }
    Some(best)
}
