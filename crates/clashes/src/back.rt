// The number of targets of the first object that a query asks for, against the columns of the links back.
ghost use Rattle.std.specs.Prelude.{◌≡◌, true, List, ℕ, ◌<◌, get_or};
ghost use Rattle.growing.specs.World.{target_count};
ghost use Rattle.link_search.specs.Nets.{InLimits};
ghost use Rattle.worlds.specs.Kept.{ColumnsKept, MirrorsKept, RowsKept};
ghost use Rattle.clashes.specs.Clashes.{FirstTargets, LinkedBack, Never};
ghost use Rattle.clashes.specs.Sources.{SourcesKept};
ghost use Rattle.clashes.specs.Refuted.{Refuted};

use crate::asked::Asked;
use laws::Mask;
use worlds::{ColumnLimits, RowLimits, Tables, Types};

// The targets of the first object in a row: it has the type `first`, they have types of the mask. The links in `slot` from types of the
// mask `there` are the links back.
#[derive(Clone, Copy)]
struct Back {
    first: u8,
    row: RowLimits,
    mask: u32,
    slot: u8,
    there: u32,
    ghost known: { first < 24 },
    ghost inside: { slot < 32 },
}

// Whether column j excludes them.
fn is_apart_from_column(tables: &Tables, back: Back, j: usize) -> bool
    requires { j < 16 }
    ensures { result ≡ true → Never (λ w. FirstTargets back.first back.row.slot back.mask back.row.low back.row.high w × SourcesKept tables.now.sources w × ColumnsKept tables.now.lines w × LinkedBack back.slot back.there back.row.slot w) }
{
    let column = tables.lines.columns[j];
    let asked = Asked {
        first: back.first,
        here: tables.sources[laws::place(back.first, back.slot)],
        limits: ColumnLimits {
            slot: back.slot,
            from: column.from,
            least: column.low,
            most: column.high,
        },
    };
    (column.slot == back.slot) & column.to.has(u32::from(back.first))
        && crate::counts::is_apart_back(asked, back.there, back.mask, back.row.low, back.row.high)
}

// Whether a column does.
fn is_apart_from_columns(tables: &Tables, back: Back) -> bool
    ensures { result ≡ true → Never (λ w. FirstTargets back.first back.row.slot back.mask back.row.low back.row.high w × SourcesKept tables.now.sources w × ColumnsKept tables.now.lines w × LinkedBack back.slot back.there back.row.slot w) }
{
    (0..16).any(|j| is_apart_from_column(tables, back, j))
}

// Whether columns exclude the limits of a row of the first object by mirror j, either way round, as in `counts::is_apart_from_mirror`.
fn is_apart_by_mirror(tables: &Tables, first: u8, mask: u32, row: RowLimits, j: usize) -> bool
    requires { (first < 24) × (j < 16) }
    ensures { result ≡ true → Never (λ w. FirstTargets first row.slot mask row.low row.high w × (SourcesKept tables.now.sources w × ColumnsKept tables.now.lines w × MirrorsKept tables.now.lines w)) }
{
    let mirror = tables.lines.mirrors[j];
    let right = Back {
        first,
        row,
        mask,
        slot: mirror.right,
        there: mirror.from,
    };
    let left = Back {
        first,
        row,
        mask,
        slot: mirror.left,
        there: mirror.to,
    };
    ((mirror.left == row.slot) & mirror.to.has(u32::from(first))
        && is_apart_from_columns(tables, right))
        || ((mirror.right == row.slot) & mirror.from.has(u32::from(first))
            && is_apart_from_columns(tables, left))
}

// Whether they do by a mirror. Limits that no number breaks are not looked up.
pub(crate) fn is_bad_first_back(tables: &Tables, types: &Types, row: RowLimits) -> bool
    requires { row.slot < 32 }
    ensures { result ≡ true → (lows highs : List ℕ) (seeds : ℕ) → 0 < seeds → Refuted (λ w. (RowsKept tables.now.targets lows highs w × InLimits row.low row.high (target_count w row.slot 0)) × (SourcesKept tables.now.sources w × ColumnsKept tables.now.lines w × MirrorsKept tables.now.lines w)) types.now.at seeds }
{
    let first = types.at[0];
    let mask = tables.targets[types.row(0, row.slot)];
    ((0 < row.low) | (row.high < 8))
        && (0..16).any(|j| is_apart_by_mirror(tables, first, mask, row, j))
}
