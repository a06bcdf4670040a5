// Needs by weights: the first objects ask for more links than they have room for.
ghost use Rattle.std.specs.Prelude.{ℕ, ◌<◌, ◌≤◌, IfSome, Some};
ghost use Rattle.growing.specs.Demand.{extras};
ghost use Rattle.worlds.specs.Asked.{Satisfies, Sane};
ghost use Rattle.worlds.specs.Kept.{Allowed, sheet};
ghost use Rattle.demands.specs.Wishes.{Sharpens};

use crate::Start;
use weights::{Shortage, Way};
use worlds::{Lines, Query, Tables};

// The types that ask for links where they are counted so by line j. Whatever it gives, only time depends on it.
fn askers(lines: &Lines, way: Way, j: usize) -> u32
    requires { j < 16 }
{
    match way {
        Way::Rows => lines.columns[j].from,
        Way::Columns => lines.columns[j].to,
        Way::There => lines.mirrors[j].from,
        Way::Back => lines.mirrors[j].to,
        Way::Wholes => u32::MAX,
    }
}

// At least so many more objects as are lacking have types of the mask.
fn with_shortage(best: u32, s: Start, short: Option<Shortage>) -> Option<u32>
    requires { IfSome short (λ x. 0 < x.c) }
    ensures { Sharpens (λ w. IfSome short (λ x. x.c ≤ extras x.g s.k w)) s (Some best) result }
{
    short.map_or(
        Some(best),
        |lack| crate::needs::with_need(best, s, lack.g, lack.c),
    )
}

// One way of counting, by each line of which a type of the mask `here` asks for links: by all where it has the types of the first objects.
fn with_way(mut best: u32, s: Start, here: u32, tables: &Tables, q: &Query, way: Way) -> Option<u32>
    requires { Sane q.now × (q.now.seeds ≤ s.k) }
    ensures { (usable singles : ℕ) → Sharpens (λ w. Allowed (sheet usable singles tables.now.targets tables.now.lows tables.now.highs tables.now.lines) w × Satisfies q.now w) s (Some best) result }
{
    for j in 0..16 {
        if here & askers(&tables.lines, way, j) != 0 {
            let short = weights::weigh(tables, q, s.types, s.k, s.free, way, j);
            best = with_shortage(best, s, short)?;
        }
    }
    Some(best)
}

// All ways of counting.
pub(crate) fn with_weights(
    best: u32,
    s: Start,
    here: u32,
    tables: &Tables,
    q: &Query,
) -> Option<u32>
    requires { Sane q.now × (q.now.seeds ≤ s.k) }
    ensures { (usable singles : ℕ) → Sharpens (λ w. Allowed (sheet usable singles tables.now.targets tables.now.lows tables.now.highs tables.now.lines) w × Satisfies q.now w) s (Some best) result }
{
    let rows = with_way(best, s, here, tables, q, Way::Rows)?;
    let columns = with_way(rows, s, here, tables, q, Way::Columns)?;
    let there = with_way(columns, s, here, tables, q, Way::There)?;
    let back = with_way(there, s, here, tables, q, Way::Back)?;
    let short = weights::weigh(tables, q, s.types, s.k, s.free, Way::Wholes, 0);
    with_shortage(back, s, short)
}
