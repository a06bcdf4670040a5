// Queries that contradict the tables: which of them have no solution, by the types of their seeds alone.
#![tactic(auto)]

ghost use Rattle.std.specs.Prelude.{◌≡◌, true, ℕ, ◌*◌, ◌<◌, ◌≤◌, get_or};
ghost use Rattle.growing.specs.Growth.{Nowhere};
ghost use Rattle.worlds.specs.Kept.{sheet_of};
ghost use Rattle.worlds.specs.Asked.{Sane, Solution};

use worlds::{Query, Tables, Types};

mod asked;
mod back;
mod bits;
mod counts;
mod first;
mod mirrors;
mod parts;
mod wholes;

// Whether the query contradicts the tables, where its seeds have the given types. The tables, the query and the types come one by one: each
// test reads a few of their fields, and its promise is of these alone. Each test is an `if` of its own, here and in
// `counts::is_bad_first_column`: of one chain with `||` the check knows the value by branches within branches, which a proof takes apart
// test by test.
pub fn is_implied(tables: &Tables, q: &Query, types: Types, n: u8) -> bool
    requires { Sane q.now × (n ≤ 8) }
    ensures { result ≡ true → Nowhere (Solution (sheet_of tables.now) q.now n) types.at q.now.seeds q.now.never n }
{
    if q.seeds == 0 {
        return false;
    }
    if bits::is_bad_bit(&tables.targets, q, &types) {
        return true;
    }
    if mirrors::is_bad_turn(tables, q, &types) {
        return true;
    }
    if wholes::is_bad_part(tables, q, &types) {
        return true;
    }
    if parts::is_bad_first_part(tables, &types, q.row) {
        return true;
    }
    if back::is_bad_first_back(tables, &types, q.row) {
        return true;
    }
    if first::is_bad_first_row(tables, &types, q.row) {
        return true;
    }
    counts::is_bad_first_column(tables, &types, q.column)
}
