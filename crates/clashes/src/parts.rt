// The number of targets of the first object that a query asks for, where links back make them its wholes.
ghost use Rattle.std.specs.Prelude.{◌≡◌, true, List, ℕ, ◌<◌, ◌≤◌, get_or};
ghost use Rattle.growing.specs.World.{target_count};
ghost use Rattle.link_search.specs.Nets.{InLimits};
ghost use Rattle.worlds.specs.Kept.{MirrorsKept, RowsKept, WholesKept};
ghost use Rattle.clashes.specs.Clashes.{FirstTargets, Never};
ghost use Rattle.clashes.specs.Refuted.{Refuted};

use laws::Mask;
use worlds::{Lines, RowLimits, Tables, Types};

// Whether the targets of an object of type t in a row, with types of the mask, are its wholes by composition j, of which it has one.
fn is_back_to_wholes(lines: &Lines, t: u32, row: RowLimits, mask: u32, j: usize) -> bool
    requires { (t < 24) × (2 ≤ row.low) × (j < 16) }
    ensures { result ≡ true → Never (λ w. FirstTargets t row.slot mask row.low row.high w × (MirrorsKept lines.now w × WholesKept lines.now w)) }
{
    let mirror = lines.mirrors[j];
    let whole = lines.wholes[j];
    (mirror.left == row.slot)
        & (whole.slot == mirror.right)
        & mirror.to.has(t)
        & whole.to.has(t)
        & type_tables::is_inside(mask, mirror.from & whole.from)
}

// Whether the first object has to have two wholes, as targets in a slot.
pub(crate) fn is_bad_first_part(tables: &Tables, types: &Types, row: RowLimits) -> bool
    requires { row.slot < 32 }
    ensures { result ≡ true → (lows highs : List ℕ) (seeds : ℕ) → 0 < seeds → Refuted (λ w. (RowsKept tables.now.targets lows highs w × InLimits row.low row.high (target_count w row.slot 0)) × (MirrorsKept tables.now.lines w × WholesKept tables.now.lines w)) types.now.at seeds }
{
    let mask = tables.targets[types.row(0, row.slot)];
    let first = types.of(0);
    (2 <= row.low) && (0..16).any(|j| is_back_to_wholes(&tables.lines, first, row, mask, j))
}
