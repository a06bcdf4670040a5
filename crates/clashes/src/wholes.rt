// Links that a query asks for, against wholes.
ghost use Rattle.std.specs.Prelude.{◌≡◌, true, List, ℕ, ◌<◌, ◌≤◌, get_or};
ghost use Rattle.laws.specs.Bounded.{tally};
ghost use Rattle.worlds.specs.Kept.{WholesKept};
ghost use Rattle.clashes.specs.Refuted.{BitsKept, Refuted, must_whole, must_whole_by};

use laws::Mask;
use worlds::{Query, Tables, Types};

// Whether a link from o to p that must stand makes o a whole of p by association j.
fn is_whole_by(tables: &Tables, must: &[u8; 256], types: &Types, p: u8, o: u8, j: usize) -> bool
    requires { (p < 8) × (o < 8) × (j < 16) }
    ensures { result ≡ must_whole_by tables.now.lines must.now types.now.at p o j }
{
    let whole = tables.lines.wholes[j];
    whole.from.has(types.of(o))
        & whole.to.has(types.of(p))
        & records::is_linked(must, o, whole.slot, p)
}

// Whether a link from o to p that must stand makes o a whole of p. Apart from `link_search`, whose wholes have sets of objects: here they
// have sets of types.
fn is_whole(tables: &Tables, must: &[u8; 256], types: &Types, p: u8, o: u8) -> bool
    requires { (p < 8) × (o < 8) }
    ensures { result ≡ must_whole tables.now.lines must.now types.now.at p o }
{
    (0..16).any(|j| is_whole_by(tables, must, types, p, o, j))
}

// How many seeds are wholes of p so.
fn count_wholes(tables: &Tables, must: &[u8; 256], types: &Types, seeds: u8, p: u8) -> usize
    requires { (seeds ≤ 8) × (p < 8) }
    ensures { result ≡ tally (must_whole tables.now.lines must.now types.now.at p) seeds }
{
    (0..seeds)
        .filter(|o| is_whole(tables, must, types, p, *o))
        .count()
}

// Whether p has two wholes.
fn is_bad_part_at(tables: &Tables, q: &Query, types: &Types, p: u8) -> bool
    requires { (q.now.seeds ≤ 8) × (p < q.now.seeds) }
    ensures { result ≡ true → Refuted (λ w. BitsKept q.now.must q.now.shut w × WholesKept tables.now.lines w) types.now.at q.now.seeds }
{
    1 < count_wholes(tables, &q.must, types, q.seeds, p)
}

// Whether a seed has two wholes.
pub(crate) fn is_bad_part(tables: &Tables, q: &Query, types: &Types) -> bool
    requires { q.now.seeds ≤ 8 }
    ensures { result ≡ true → Refuted (λ w. BitsKept q.now.must q.now.shut w × WholesKept tables.now.lines w) types.now.at q.now.seeds }
{
    (0..q.seeds).any(|p| is_bad_part_at(tables, q, types, p))
}
