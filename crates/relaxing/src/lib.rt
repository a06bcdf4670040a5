// Queries whose seeds cannot stand together, whatever other objects there are: the seeds alone, without any lower limit, have no links
// that fit.
#![tactic(auto)]

ghost use Rattle.std.specs.Prelude.{◌≡◌, true, List, ℕ};
ghost use Rattle.growing.specs.Growth.{Nowhere};
ghost use Rattle.worlds.specs.Coherent.{Slotted};
ghost use Rattle.worlds.specs.Kept.{sheet};
ghost use Rattle.worlds.specs.Asked.{Sane, Solution};
ghost use Rattle.relaxing.specs.Relaxed.{freed, unforced};

use worlds::{Column, ColumnLimits, Lines, Query, RowLimits, Types};

// The lines without lower limits.
fn without_lows(lines: Lines) -> Lines
    ensures { result ≡ unforced lines }
{
    Lines {
        columns: lines.columns.map(|c| Column { low: 0, ..c }),
        ..lines
    }
}

// The query without lower limits.
fn without_least(q: Query) -> Query
    ensures { result ≡ freed q }
{
    Query {
        row: RowLimits { low: 0, ..q.row },
        column: ColumnLimits {
            least: 0,
            ..q.column
        },
        ..q
    }
}

// Whether the seeds, of the given types, cannot stand together.
pub fn is_stuck(
    targets: &[u32; 768],
    highs: &[u8; 768],
    lines: &Lines,
    usable: u32,
    q: &Query,
    types: Types,
) -> bool
    requires { Slotted lines.now × Sane q.now }
    ensures { result ≡ true → (singles n : ℕ) (lows : List ℕ) → Nowhere (Solution (sheet usable singles targets.now lows highs.now lines.now) q.now n) types.at q.now.seeds q.now.never n }
{
    leaves::ends(
        targets,
        &[0u8; 768],
        highs,
        &without_lows(*lines),
        usable,
        0,
        &without_least(*q),
        types,
        q.seeds,
    )
    .is_none()
}
