// The number of targets of the first object that a query asks for, against the tables.
ghost use Rattle.std.specs.Prelude.{true, List, ◌≡◌, ℕ, ◌<◌, get_or};
ghost use Rattle.growing.specs.World.{target_count};
ghost use Rattle.link_search.specs.Nets.{InLimits};
ghost use Rattle.worlds.specs.Kept.{RowsKept};
ghost use Rattle.clashes.specs.Refuted.{Refuted};

use worlds::{RowLimits, Tables, Types};

// Whether no number is within the limits of the first object's row and within these.
pub(crate) fn is_bad_first_row(tables: &Tables, types: &Types, row: RowLimits) -> bool
    requires { row.slot < 32 }
    ensures { result ≡ true → (targets : List ℕ) (seeds : ℕ) → 0 < seeds → Refuted (λ w. RowsKept targets tables.now.lows tables.now.highs w × InLimits row.low row.high (target_count w row.slot 0)) types.now.at seeds }
{
    let x = types.row(0, row.slot);
    tables.highs[x].min(row.high) < tables.lows[x].max(row.low)
}
