// Links that a query asks for, against mirrors.
ghost use Rattle.std.specs.Prelude.{◌≡◌, true, ◌<◌, ◌≤◌};
ghost use Rattle.worlds.specs.Kept.{MirrorsKept};
ghost use Rattle.clashes.specs.Clashes.{Never};
ghost use Rattle.clashes.specs.Refuted.{BitsKept, Refuted};

use laws::Mask;
use worlds::{Query, Tables, Types};

// Whether the link from o to p must stand and the link back must not, or the other way.
fn is_bad_pair(must: &[u8; 256], shut: &[u8; 256], o: u8, right: u8, p: u8, left: u8) -> bool
    requires { (o < 8) × (right < 32) × (p < 8) × (left < 32) }
    ensures { result ≡ true → Never (λ w. BitsKept must.now shut.now w × (w.link right o p ≡ w.link left p o)) }
{
    (records::is_linked(must, o, right, p) && records::is_linked(shut, p, left, o))
        || (records::is_linked(must, p, left, o) && records::is_linked(shut, o, right, p))
}

// Whether seeds o and p are such a pair by mirror j.
fn is_bad_by(tables: &Tables, q: &Query, types: &Types, j: usize, o: u8, p: u8) -> bool
    requires { (j < 16) × (q.now.seeds ≤ 8) × (o < q.now.seeds) × (p < q.now.seeds) }
    ensures { result ≡ true → Refuted (λ w. BitsKept q.now.must q.now.shut w × MirrorsKept tables.now.lines w) types.now.at q.now.seeds }
{
    let mirror = tables.lines.mirrors[j];
    mirror.from.has(types.of(o))
        && mirror.to.has(types.of(p))
        && is_bad_pair(&q.must, &q.shut, o, mirror.right, p, mirror.left)
}

// Whether o is with some p.
fn is_bad_source(tables: &Tables, q: &Query, types: &Types, j: usize, o: u8) -> bool
    requires { (j < 16) × (q.now.seeds ≤ 8) × (o < q.now.seeds) }
    ensures { result ≡ true → Refuted (λ w. BitsKept q.now.must q.now.shut w × MirrorsKept tables.now.lines w) types.now.at q.now.seeds }
{
    (0..q.seeds).any(|p| is_bad_by(tables, q, types, j, o, p))
}

// Whether mirror j has such a pair of seeds; one that asks nothing is passed over.
fn is_bad_mirror(tables: &Tables, q: &Query, types: &Types, j: usize) -> bool
    requires { (j < 16) × (q.now.seeds ≤ 8) }
    ensures { result ≡ true → Refuted (λ w. BitsKept q.now.must q.now.shut w × MirrorsKept tables.now.lines w) types.now.at q.now.seeds }
{
    (tables.lines.mirrors[j].from != 0)
        && (0..q.seeds).any(|o| is_bad_source(tables, q, types, j, o))
}

// Whether one of the mirrors has.
pub(crate) fn is_bad_turn(tables: &Tables, q: &Query, types: &Types) -> bool
    requires { q.now.seeds ≤ 8 }
    ensures { result ≡ true → Refuted (λ w. BitsKept q.now.must q.now.shut w × MirrorsKept tables.now.lines w) types.now.at q.now.seeds }
{
    (0..16).any(|j| is_bad_mirror(tables, q, types, j))
}
