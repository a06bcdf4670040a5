// What one diagram asks of values, by an object's type, as a table; and what tables by types are made of: names, types, ends and limits.
// Counts, slots and capped limits are below 256, as `as u8` keeps them: the library's conversion gives a Result, which here never fails.
#![tactic(auto)]

ghost use Rattle.std.specs.Prelude.{◌≡◌, cond, true, Bool, ℕ, ◌%◌, ◌/◌, ◌<◌, ◌≤◌, max, min, get_or};
ghost use Rattle.laws.specs.Bits.{Marks, bit};
ghost use Rattle.fields.specs.Slot.{slot_name, slot_of};
ghost use Rattle.diagrams.specs.View.{diagram_of};
ghost use Rattle.type_tables.specs.Due.{joined};
ghost use Rattle.type_tables.specs.ValuesIn.{declares_in, due_at, due_in};
ghost use Rattle.type_tables.specs.RowsIn.{carried_in, is_subtype};
ghost use Rattle.type_tables.specs.TypeTables.{Dues, TypePlaces};

use diagrams::{Attributes, ReadDiagram};
use laws::Mask;

// Two diagrams: what `new` says is asked by the types and slots of `old`. They may be one diagram.
#[derive(Clone, Copy)]
pub struct Pair<'a> {
    pub old: &'a ReadDiagram,
    pub new: &'a ReadDiagram,
}

// A pair, and what each type of `old` asks of the value in each slot.
#[derive(Clone, Copy)]
pub struct PairDues<'a> {
    pub pair: Pair<'a>,
    pub dues: &'a [u8; 768],
    ghost due: { Dues (diagram_of pair.old.now.stored) dues.now },
}

impl<'a> PairDues<'a> {
    // The three together; it gives them one lifetime.
    pub fn of(old: &'a ReadDiagram, new: &'a ReadDiagram, dues: &'a [u8; 768]) -> PairDues<'a>
        requires { Dues (diagram_of old.now.stored) dues.now }
        ensures { (result.pair.old.now ≡ old.now) × (result.pair.new.now ≡ new.now) × (result.dues.now ≡ dues.now) }
    {
        PairDues {
            pair: Pair { old, new },
            dues,
        }
    }
}

// The set of all 24 types.
pub const ALL_TYPES: u32 = 0xFF_FFFF;

// x where the test holds, else y. As a function, it keeps an expression that has several of them on one path in the proof.
pub fn pick<T: Copy>(b: bool, x: T, y: T) -> T
    ensures { result ≡ cond b x y }
{
    if b { x } else { y }
}

// ---- sets of types

// Type k is in the set.
pub fn is_in(set: u32, k: u8) -> bool
    ensures { result ≡ bit k set }
{
    k < 32 && set.has(u32::from(k))
}

// All of a is in b, said bit by bit; `Mask::is_inside` says it of the numbers.
pub fn is_inside(a: u32, b: u32) -> bool
    ensures { result ≡ true → (k : ℕ) → bit k a ≡ true → bit k b ≡ true }
{
    a.is_inside(b)
}

// ---- values

// What is asked for by a declaration with value type v besides, where e was asked before: 0 for no value, 1 + v for one of value type v,
// 255 where declarations disagree. These are the numbers of the definition `due`, which rules 3 and 4 by types compare (`1 + v`, 255) in
// one sentence each; an enum would part every one of them in cases.
fn join_due(e: u8, v: u8) -> u8
    requires { v < 255 }
    ensures { result ≡ joined e v }
{
    if e == 0 {
        return 1 + v;
    }
    if e == 1 + v {
        return e;
    }
    255
}

// A diagram's attributes, with the slot of the name of each.
#[derive(Clone, Copy)]
struct Declared<'a> {
    attributes: &'a Attributes,
    slots: &'a [u8; 32],
    // Value types are few.
    ghost bounds: { (a : ℕ) → a < attributes.now.count → get_or attributes.now.types a 0 < 255 },
}

impl Declared<'_> {
    // The owner of attribute a is in the set, and its name in slot s.
    fn declares(&self, set: u32, s: u8, a: usize) -> bool
        ensures { result ≡ declares_in set self.now.attributes.now.owners self.now.slots.now s a }
    {
        let slots = self.slots;
        is_in(set, laws::byte(&self.attributes.owners, a)) & (laws::byte(slots, a) == s)
    }

    // What the attributes ask of the value in slot s of an object whose type has this set. A loop: no law stands in `laws` for a fold
    // behind a `filter`, and without one a branch would give e back.
    fn due(&self, set: u32, s: u8) -> u8
        ensures { result ≡ due_in set self.now.attributes.now.owners self.now.attributes.now.types self.now.slots.now s self.now.attributes.now.count }
    {
        let mut e = 0;
        for a in 0..self.attributes.count {
            if self.declares(set, s, a) {
                e = join_due(e, laws::byte(&self.attributes.types, a));
            }
        }
        e
    }

    // The same for type x / 32 and slot x % 32, where x is below `end`; past it nothing is looked up.
    fn due_at(&self, sets: &[u32; 24], end: usize, x: usize) -> u8
        requires { x < 768 }
        ensures { x < end → result ≡ due_at sets.now self.now.attributes.now.owners self.now.attributes.now.types self.now.slots.now self.now.attributes.now.count x }
    {
        if end <= x {
            return 0;
        }
        self.due(sets[x / 32], (x % 32) as u8)
    }

    // For each x.
    fn dues(&self, sets: &[u32; 24], end: usize) -> [u8; 768]
        ensures { (x : ℕ) → x < 768 → x < end → get_or result x 0 ≡ due_at sets.now self.now.attributes.now.owners self.now.attributes.now.types self.now.slots.now self.now.attributes.now.count x }
    {
        std::array::from_fn(|x| self.due_at(sets, end, x))
    }
}

// What each type asks of the value in each slot.
pub fn due_values(d: &ReadDiagram) -> [u8; 768]
    ensures { Dues (diagram_of d.now.stored) result }
{
    let slots = tables::attribute_slots(*d);
    let t = &d.stored.types;
    let declared = Declared {
        attributes: &d.stored.attributes,
        slots: &slots,
    };
    declared.dues(&t.sets, t.count * 32)
}

// ---- types and ends

// Type u counts as type x.
fn is_subtype(sets: &[u32; 24], x: u8, u: u8) -> bool
    requires { (x < 32) × (u < 24) }
    ensures { result ≡ is_subtype sets.now x u }
{
    sets[usize::from(u)].has(u32::from(x))
}

// The types that count as type x.
pub fn subtypes_of(sets: &[u32; 24], x: u8) -> u32
    requires { x < 32 }
    ensures { Marks (is_subtype sets.now x) 24 result }
{
    laws::mask_of(24, |u| is_subtype(sets, x, u))
}

// For each type of d the type of e with the same name, or their number, as `fields::places` gives it: `sheets::single_missing` asks for the
// place of that number, the others compare with it.
pub fn type_places(d: &ReadDiagram, e: &ReadDiagram) -> [u8; 24]
    ensures { TypePlaces (diagram_of d.now.stored) (diagram_of e.now.stored) result }
{
    let t = &d.stored.types;
    let u = &e.stored.types;
    fields::places(&t.names, t.count as u8, &u.names, u.count as u8)
}

// The arrow carries links to end e.
pub fn is_carried(arrows: &[u8; 16], e: u8) -> bool
    requires { e < 32 }
    ensures { result ≡ carried_in arrows.now e }
{
    let arrow = laws::byte(arrows, usize::from(e / 2));
    if e % 2 == 0 {
        return arrows::carries_left(arrow);
    }
    arrows::carries_right(arrow)
}

// ---- limits

// A limit, of which more than most is as good as most.
pub fn capped(most: u8, limit: u16) -> u8
    ensures { result ≡ min most limit }
{
    limit.min(u16::from(most)) as u8
}
