// Questions to the search by types: sets of types, and queries built from nothing, one demand after the other.
#![tactic(auto)]

ghost use Rattle.std.specs.Prelude.{◌≡◌, true, false, not, ◌&&◌, ℕ, ◌<◌, eqb};
ghost use Rattle.std.specs.Int.Bits.{bit_and};
ghost use Rattle.laws.specs.Bits.{bit};
ghost use Rattle.queries.specs.Forms.{seeded, linked, barred, rowed, columned, avoiding, with_bit};

use laws::Mask;
use worlds::{ColumnLimits, Query, RowLimits};

// ---- sets of types

// Type t alone.
pub fn only(t: u32) -> u32
    requires { t < 32 }
    ensures { (j : ℕ) → bit j result ≡ eqb j t }
{
    u32::none().with(t)
}

// The types of both sets. By the operator: laws' `Mask` has none for it, and the bodies there are for each width one by one.
pub fn common(a: u32, b: u32) -> u32
    ensures { (j : ℕ) → bit j result ≡ bit j a && bit j b }
{
    a & b
}

// Whether the sets may have a type in common.
pub fn meets(a: u32, b: u32) -> bool
    ensures { (result ≡ not (eqb (bit_and a b) 0)) × (result ≡ false → (j : ℕ) → bit j a ≡ true → bit j b ≡ true → ⊥) }
{
    a & b != 0
}

// ---- queries

// The first seeds objects have types of a, b and c. Nothing else is asked: limits that no number breaks say that.
pub fn with_seeds(seeds: u8, a: u32, b: u32, c: u32) -> Query
    ensures { result ≡ seeded seeds a b c }
{
    Query {
        seeds,
        types: [a, b, c, 0, 0, 0, 0, 0],
        must: [0; 256],
        shut: [0; 256],
        row: RowLimits {
            slot: 0,
            low: 0,
            high: 8,
        },
        column: ColumnLimits {
            slot: 0,
            from: 0,
            least: 0,
            most: 8,
        },
        never: 0,
    }
}

// The rows, and the link of object o to p in slot s. By the operators, since `with_bit` is an equation between rows: `Mask::with` says
// which bits are set, not which number has them.
fn with_bit(rows: [u8; 256], s: u8, o: u8, p: u8) -> [u8; 256]
    requires { (s < 32) × (o < 8) × (p < 8) }
    ensures { result ≡ with_bit rows s o p }
{
    let mut r = rows;
    r[laws::place(o, s)] |= 1u8 << p;
    r
}

// Besides, object o has a link to p in slot s.
pub fn with_link(q: Query, s: u8, o: u8, p: u8) -> Query
    requires { (s < 32) × (o < 8) × (p < 8) }
    ensures { result ≡ linked q s o p }
{
    Query {
        must: with_bit(q.must, s, o, p),
        ..q
    }
}

// Besides, object o has no link to p in slot s.
pub fn with_bar(q: Query, s: u8, o: u8, p: u8) -> Query
    requires { (s < 32) × (o < 8) × (p < 8) }
    ensures { result ≡ barred q s o p }
{
    Query {
        shut: with_bit(q.shut, s, o, p),
        ..q
    }
}

// Besides, the first object has so many targets in slot s.
pub fn with_row(q: Query, s: u8, low: u8, high: u8) -> Query
    ensures { result ≡ rowed q s low high }
{
    Query {
        row: RowLimits { slot: s, low, high },
        ..q
    }
}

// Besides, the first object has so many sources of the types `from` in slot s.
pub fn with_column(q: Query, s: u8, from: u32, least: u8, most: u8) -> Query
    ensures { result ≡ columned q s from least most }
{
    Query {
        column: ColumnLimits {
            slot: s,
            from,
            least,
            most,
        },
        ..q
    }
}

// Besides, no other object has a type of the set.
pub fn with_never(q: Query, never: u32) -> Query
    ensures { result ≡ avoiding q never }
{
    Query { never, ..q }
}
