// The number of sources of the first object that a query asks for, against other limits.
ghost use Rattle.std.specs.Prelude.{◌≡◌, true, ℕ, ◌*◌, ◌<◌, get_or};
ghost use Rattle.worlds.specs.Kept.{ColumnsKept, MirrorsKept, RowsKept, WholesKept};
ghost use Rattle.clashes.specs.Refuted.{Refuted};
ghost use Rattle.clashes.specs.Clashes.{FirstColumn, LinkedBack, Never, OtherSources, TurnedSources};
ghost use Rattle.clashes.specs.Asked.{SourcesAsked};

use crate::asked::Asked;
use laws::Mask;
use worlds::{ColumnLimits, Lines, Tables, Types};

// No world has limits of both kinds for the sources of its first object, with types of two masks.
fn is_apart(asked: Asked, other: u32, low: u8, high: u8) -> bool
    ensures { result ≡ true → Never (λ w. SourcesAsked asked w × OtherSources asked.limits.slot other low high w) }
{
    let limits = asked.limits;
    ((limits.most < low) & type_tables::is_inside(other & asked.here, limits.from))
        | ((high < limits.least) & type_tables::is_inside(limits.from & asked.here, other))
}

// The same where the other limits are for the links back.
pub(crate) fn is_apart_back(asked: Asked, there: u32, row: u32, low: u8, high: u8) -> bool
    ensures { result ≡ true → (t : ℕ) → Never (λ w. SourcesAsked asked w × TurnedSources asked.limits.slot there t row low high w) }
{
    let limits = asked.limits;
    ((limits.most < low)
        & type_tables::is_inside(row, there)
        & type_tables::is_inside(row & asked.here, limits.from))
        | ((high < limits.least) & type_tables::is_inside(limits.from & asked.here, there))
}

// Whether column j excludes them.
fn is_apart_from_column(lines: &Lines, asked: Asked, j: usize) -> bool
    requires { j < 16 }
    ensures { result ≡ true → Never (λ w. SourcesAsked asked w × ColumnsKept lines.now w) }
{
    let column = lines.columns[j];
    (column.slot == asked.limits.slot) & column.to.has(u32::from(asked.first))
        && is_apart(asked, column.from, column.low, column.high)
}

// Whether a column excludes them.
fn is_apart_from_columns(lines: &Lines, asked: Asked) -> bool
    ensures { result ≡ true → Never (λ w. SourcesAsked asked w × ColumnsKept lines.now w) }
{
    (0..16).any(|j| is_apart_from_column(lines, asked, j))
}

// Whether composition j excludes them: an object is a part of one whole.
fn is_apart_from_whole(lines: &Lines, asked: Asked, j: usize) -> bool
    requires { j < 16 }
    ensures { result ≡ true → Never (λ w. SourcesAsked asked w × WholesKept lines.now w) }
{
    let whole = lines.wholes[j];
    (whole.slot == asked.limits.slot) & whole.to.has(u32::from(asked.first))
        && is_apart(asked, whole.from, 0, 1)
}

// Whether a composition excludes them.
fn is_apart_from_wholes(lines: &Lines, asked: Asked) -> bool
    ensures { result ≡ true → Never (λ w. SourcesAsked asked w × WholesKept lines.now w) }
{
    (0..16).any(|j| is_apart_from_whole(lines, asked, j))
}

// Whether the row of the first object excludes them, where links to types of the mask `there` are links back.
fn is_apart_from_row(tables: &Tables, asked: Asked, there: u32, back: u8) -> bool
    requires { back < 32 }
    ensures { result ≡ true → Never (λ w. SourcesAsked asked w × RowsKept tables.now.targets tables.now.lows tables.now.highs w × LinkedBack asked.limits.slot there back w) }
{
    let y = laws::place(asked.first, back);
    is_apart_back(
        asked,
        there,
        tables.targets[y],
        tables.lows[y],
        tables.highs[y],
    )
}

// Whether a row excludes them by mirror j. Its two ways round differ in all four fields, and each has a law of its own.
fn is_apart_from_mirror(tables: &Tables, asked: Asked, j: usize) -> bool
    requires { j < 16 }
    ensures { result ≡ true → Never (λ w. SourcesAsked asked w × RowsKept tables.now.targets tables.now.lows tables.now.highs w × MirrorsKept tables.now.lines w) }
{
    let mirror = tables.lines.mirrors[j];
    ((mirror.right == asked.limits.slot) & mirror.to.has(u32::from(asked.first))
        && is_apart_from_row(tables, asked, mirror.from, mirror.left))
        || ((mirror.left == asked.limits.slot) & mirror.from.has(u32::from(asked.first))
            && is_apart_from_row(tables, asked, mirror.to, mirror.right))
}

// Whether a row excludes them by a mirror.
fn is_apart_from_mirrors(tables: &Tables, asked: Asked) -> bool
    ensures { result ≡ true → Never (λ w. SourcesAsked asked w × RowsKept tables.now.targets tables.now.lows tables.now.highs w × MirrorsKept tables.now.lines w) }
{
    (0..16).any(|j| is_apart_from_mirror(tables, asked, j))
}

// Whether the tables exclude the number of sources of the first object.
pub(crate) fn is_bad_first_column(tables: &Tables, types: &Types, limits: ColumnLimits) -> bool
    requires { limits.slot < 32 }
    ensures { result ≡ true → (seeds : ℕ) → 0 < seeds → Refuted (FirstColumn tables.now.targets tables.now.sources tables.now.lows tables.now.highs tables.now.lines limits.slot limits.from limits.least limits.most) types.now.at seeds }
{
    let first = types.at[0];
    let here = tables.sources[types.row(0, limits.slot)];
    let asked = Asked {
        first,
        here,
        limits,
    };
    if (0 < limits.least) & (limits.from & here == 0) {
        return true;
    }
    if is_apart_from_columns(&tables.lines, asked) {
        return true;
    }
    if is_apart_from_wholes(&tables.lines, asked) {
        return true;
    }
    is_apart_from_mirrors(tables, asked)
}
