// Links that a query asks for, against the tables.
ghost use Rattle.std.specs.Prelude.{◌≡◌, true, ℕ, ◌*◌, ◌+◌, ◌<◌, ◌≤◌, get_or};
ghost use Rattle.laws.specs.Bounded.{any};
ghost use Rattle.clashes.specs.Refuted.{BitsKept, Refuted, TargetsKept, bad_bit};

use laws::Mask;
use worlds::{Query, Types};

// Whether a link of one row must stand and must not, or leads to a seed with no type of the mask.
fn is_bad_row(must: u8, shut: u8, mask: u32, types: &Types, seeds: u8) -> bool
    requires { seeds ≤ 8 }
    ensures { result ≡ any (bad_bit must shut mask types.now.at) seeds }
{
    (0..seeds).any(|p| must.has(p) & (shut.has(p) | !mask.has(types.of(p))))
}

// Whether the row of object o in slot s is such.
fn is_bad_row_of(targets: &[u32; 768], q: &Query, types: &Types, o: u8, s: u8) -> bool
    requires { (q.now.seeds ≤ 8) × (o < q.now.seeds) × (s < 32) }
    ensures { result ≡ true → Refuted (λ w. BitsKept q.now.must q.now.shut w × TargetsKept targets.now w) types.now.at q.now.seeds }
{
    let i = laws::place(o, s);
    let must = q.must[i];
    (must != 0) && is_bad_row(must, q.shut[i], targets[types.row(o, s)], types, q.seeds)
}

// Whether a row of object o is.
fn has_bad_row(targets: &[u32; 768], q: &Query, types: &Types, o: u8) -> bool
    requires { (q.now.seeds ≤ 8) × (o < q.now.seeds) }
    ensures { result ≡ true → Refuted (λ w. BitsKept q.now.must q.now.shut w × TargetsKept targets.now w) types.now.at q.now.seeds }
{
    (0u8..32).any(|s| is_bad_row_of(targets, q, types, o, s))
}

// Whether there is such a row of a seed.
pub(crate) fn is_bad_bit(targets: &[u32; 768], q: &Query, types: &Types) -> bool
    requires { q.now.seeds ≤ 8 }
    ensures { result ≡ true → Refuted (λ w. BitsKept q.now.must q.now.shut w × TargetsKept targets.now w) types.now.at q.now.seeds }
{
    (0..q.seeds).any(|o| has_bad_row(targets, q, types, o))
}
