// Rules 1, 3 and 4 of a diagram by the types of another one, and values for objects that are given by their types.
// Counts, slots and codes are below 256, as `as u8` keeps them.
#![tactic(auto)]

ghost use Rattle.std.specs.Prelude.{◌≡◌, cond, not, ℕ, ◌+◌, ◌*◌, ◌<◌, ◌≤◌, ltb, get_or};
ghost use Rattle.laws.specs.Bounded.{all, first};
ghost use Rattle.files.specs.Name.{same_name};
ghost use Rattle.fields.specs.Slot.{slot_name, slot_of, constant_name};
ghost use Rattle.type_tables.specs.Pairs.{new_of, old_of};
ghost use Rattle.type_values.specs.Bad.{BadTypes};
ghost use Rattle.type_values.specs.Filled.{Filled};
ghost use Rattle.type_values.specs.Tables.{AttributePlaces, Lackings, SameTypes, Translated};
ghost use Rattle.type_values.specs.Numbers.{chosen_in, constant_in, due_by, good_in, kept_in, lacking_in, shared_in, slot_asked_in, slot_kept_in, value_at_in};
ghost use Rattle.type_values.specs.Values.{FewValues};

use diagrams::{Types, ValueTypes};
use type_tables::{Pair, PairDues};

// ---- values

// One of the constants of value type v has the name w.
fn has_constant(constants: &[u8], v: u8, size: u8, w: &[u8]) -> bool
    requires { (v < 12) × (size ≤ 8) }
    ensures { result ≡ constant_in constants.now v size w.now }
{
    (0..size).any(|i| fields::same_name(fields::slot_name(constants, v * 8 + i), w))
}

// The value types of a diagram, each with at most 8 constants.
#[derive(Clone, Copy)]
struct Constants<'a> {
    values: &'a ValueTypes,
    ghost few: { FewValues values.now },
}

impl Constants<'_> {
    // A value with the constant w belongs to value type v, if they have one name.
    #[tactic(auto, unfolding(laws::specs::Connective::both, laws::specs::Connective::either, crate::specs::Numbers::shared_in))]
    fn is_shared(&self, v: u8, w: &[u8]) -> bool
        ensures { result ≡ shared_in self.now.values.now.sizes self.now.values.now.constants self.now.values.now.count v w.now }
    {
        let values = self.values;
        let i = usize::from(v);
        if values.count <= i {
            return false;
        }
        let size = values.sizes[i];
        has_constant(&values.constants, v, size, w) | ((size == 0) & w.is_empty())
    }

    // Constant c of value type v does not belong to value type j of these. `constants` and `size` are those of value type v, one by one as
    // `lacking_in` has them.
    #[tactic(auto, unfolding(laws::specs::Connective::both, crate::specs::Numbers::lacking_in))]
    fn is_lacking(&self, constants: &[u8], size: u8, j: u8, v: u8, c: u8) -> bool
        requires { (v < 12) × (c < 8) }
        ensures { result ≡ lacking_in constants.now size self.now.values.now.sizes self.now.values.now.constants self.now.values.now.count j v c }
    {
        if fields::is_known(size, c) {
            let w = fields::constant_name(constants, size, v * 8 + c);
            return !self.is_shared(j, w);
        }
        false
    }

    // The first such constant, or 8. A number, as the definition `first` has it: who asks compares it with 8, and takes it for the constant
    // below 8.
    fn first_lacking(&self, constants: &[u8], size: u8, j: u8, v: u8) -> u8
        requires { v < 12 }
        ensures { result ≡ first (lacking_in constants.now size self.now.values.now.sizes self.now.values.now.constants self.now.values.now.count j v) 8 }
    {
        (0u8..8)
            .find(|c| self.is_lacking(constants, size, j, v, *c))
            .unwrap_or(8)
    }

    // For each value type of `others` the first such constant, where `types` has these value types of the same names.
    fn all_lacking(&self, others: &ValueTypes, types: &[u8; 32]) -> [u8; 12]
        ensures { (v : ℕ) → v < 12 → get_or result v 0 ≡ first (lacking_in others.now.constants (get_or others.now.sizes v 0) self.now.values.now.sizes self.now.values.now.constants self.now.values.now.count (get_or types.now v 0) v) 8 }
    {
        std::array::from_fn(|v| {
            self.first_lacking(&others.constants, others.sizes[v], types[v], v as u8)
        })
    }
}

// ---- slots

// What is due by type t in slot s, one of n, else nothing.
#[tactic(auto, unfolding(crate::specs::Numbers::due_by))]
fn due_by(dues: &[u8; 768], t: u8, n: u8, s: u8) -> u8
    ensures { result ≡ due_by dues.now t n s }
{
    if s < n {
        return laws::byte(dues, laws::place(t, s));
    }
    0
}

// A diagram and another one: what is due by types of either, and where the names of the one stand in the other.
#[derive(Clone, Copy)]
struct Translation<'a> {
    old_dues: &'a [u8; 768],
    new_dues: &'a [u8; 768],
    // The types of the other.
    others: &'a Types,
    // For each type, slot and value type of the one that of the other, and for each slot of the other that of the one.
    index: [u8; 24],
    slots: [u8; 32],
    types: [u8; 32],
    back: [u8; 32],
    // For each value type of the one the first of its values that the other lacks, or 8.
    firsts: [u8; 12],
    // How many slots either has.
    m: u8,
    n: u8,
}

impl Translation<'_> {
    // The one diagram asks for e, the other for f, numbers as `type_tables::join_due` has them: it allows what the one allows.
    #[tactic(auto, unfolding(laws::specs::Connective::both, laws::specs::Connective::either, crate::specs::Numbers::kept_in))]
    fn keeps(&self, e: u8, f: u8) -> bool
        ensures { result ≡ kept_in self.now.types self.now.firsts e f }
    {
        if e == 0 {
            return true;
        }
        let v = usize::from(e) - 1;
        (f != 0)
            & ((e == 255)
                | ((usize::from(f) == 1 + usize::from(laws::byte(&self.types, v)))
                    & (laws::byte(&self.firsts, v) == 8)))
    }

    // What type t of the one asks for in slot s type u of the other keeps.
    #[tactic(auto, unfolding(crate::specs::Numbers::slot_kept_in))]
    fn keeps_slot(&self, t: u8, u: u8, s: u8) -> bool
        ensures { result ≡ slot_kept_in self.now.old_dues.now self.now.new_dues.now self.now.slots self.now.types self.now.firsts t u self.now.n s }
    {
        let dues = self.old_dues;
        self.keeps(
            laws::byte(dues, laws::place(t, s)),
            due_by(
                self.new_dues,
                u,
                self.n,
                laws::byte(&self.slots, usize::from(s)),
            ),
        )
    }

    // What type u of the other asks for in slot s type t of the one asks for.
    #[tactic(auto, unfolding(laws::specs::Connective::either, crate::specs::Numbers::slot_asked_in))]
    fn asks_slot(&self, t: u8, u: u8, s: u8) -> bool
        ensures { result ≡ slot_asked_in self.now.old_dues.now self.now.new_dues.now self.now.back t u self.now.m s }
    {
        let dues = self.new_dues;
        (laws::byte(dues, laws::place(u, s)) == 0)
            | (due_by(
                self.old_dues,
                t,
                self.m,
                laws::byte(&self.back, usize::from(s)),
            ) != 0)
    }

    // Each slot of the one is kept.
    fn keeps_slots(&self, t: u8, u: u8) -> bool
        ensures { result ≡ all (slot_kept_in self.now.old_dues.now self.now.new_dues.now self.now.slots self.now.types self.now.firsts t u self.now.n) self.now.m }
    {
        (0..self.m).all(|s| self.keeps_slot(t, u, s))
    }

    // Each slot of the other is asked for.
    fn asks_slots(&self, t: u8, u: u8) -> bool
        ensures { result ≡ all (slot_asked_in self.now.old_dues.now self.now.new_dues.now self.now.back t u self.now.m) self.now.n }
    {
        (0..self.n).all(|s| self.asks_slot(t, u, s))
    }

    // Type t of the one diagram, with the name of a type of the other, keeps rules 1, 3 and 4 of the other.
    #[tactic(auto, unfolding(laws::specs::Connective::both, laws::specs::Connective::either, crate::specs::Numbers::good_in))]
    fn is_good(&self, t: u8) -> bool
        ensures { result ≡ good_in self.now.others.now.kinds self.now.others.now.count self.now.index self.now.old_dues.now self.now.new_dues.now self.now.slots self.now.back self.now.types self.now.firsts self.now.m self.now.n t }
    {
        let u = laws::byte(&self.index, usize::from(t));
        let kind = laws::byte(&self.others.kinds, usize::from(u));
        (usize::from(u) < self.others.count)
            & (diagrams::has_objects(kind) & (self.keeps_slots(t, u) & self.asks_slots(t, u)))
    }
}

// ---- types

// Each of the two is a call of `fields::places` with a contract of its own: what the numbers are, by the definitions of the diagrams. Where
// there is none an entry is their number, as `places` gives it; what reads it is total or tests it.

// For each value type of old new's value type of the same name, or their number.
#[tactic(auto, using(crate::proofs::StoredLaws::places))]
fn same_types(by: &Pair) -> [u8; 32]
    ensures { SameTypes (old_of by.now) (new_of by.now) result }
{
    let v = &by.old.stored.values;
    let w = &by.new.stored.values;
    fields::places(&v.names, v.count as u8, &w.names, w.count as u8)
}

// For each attribute of old new's slot of the same name, or the number of its attributes.
#[tactic(auto, using(crate::proofs::StoredLaws::places))]
fn attribute_places(by: &Pair) -> [u8; 32]
    ensures { AttributePlaces (old_of by.now) (new_of by.now) result }
{
    let v = &by.old.stored.attributes;
    let w = &by.new.stored.attributes;
    fields::places(&v.names, v.count as u8, &w.names, w.count as u8)
}

// For each value type of old the first of its values that new does not have, or 8.
#[tactic(auto, using(crate::proofs::StoredLaws::lackings))]
fn lacking_values(by: &Pair, types: &[u8; 32]) -> [u8; 12]
    requires { SameTypes (old_of by.now) (new_of by.now) types.now }
    ensures { Lackings (old_of by.now) (new_of by.now) result }
{
    let new = by.new;
    let constants = Constants {
        values: &new.stored.values,
    };
    constants.all_lacking(&by.old.stored.values, types)
}

// The types of old whose objects break rule 1 or rule 3 of new, or can break rule 4.
pub fn bad_types(by: &PairDues) -> u32
    ensures { BadTypes (old_of by.now.pair) (new_of by.now.pair) result }
{
    let pair = &by.pair;
    let new = pair.new;
    let types = same_types(pair);
    let new_dues = type_tables::due_values(new);
    let translation = Translation {
        old_dues: by.dues,
        new_dues: &new_dues,
        others: &new.stored.types,
        index: type_tables::type_places(pair.old, new),
        slots: attribute_places(pair),
        types,
        back: attribute_places(&Pair {
            old: new,
            new: pair.old,
        }),
        firsts: lacking_values(pair, &types),
        m: pair.old.stored.attributes.count as u8,
        n: new.stored.attributes.count as u8,
    };
    laws::mask_of(pair.old.stored.types.count as u8, |t| {
        !translation.is_good(t)
    })
}

// ---- values of objects

// The constant that is chosen, where `first` is the first that the other diagram lacks.
fn chosen_constant(first: u8) -> u8
    ensures { (result ≡ cond (ltb first 8) first 0) × (result < 8) }
{
    if first < 8 { first } else { 0 }
}

// The value where e is asked for, 0 where there is none.
#[tactic(auto, unfolding(laws::specs::Connective::both, crate::specs::Numbers::chosen_in))]
fn chosen_value(firsts: &[u8; 12], e: u8) -> u8
    ensures { result ≡ chosen_in firsts.now e }
{
    if e == 0 {
        return 0;
    }
    if 12 < e {
        return 0;
    }
    let v = e - 1;
    1 + (v * 8 + chosen_constant(laws::byte(firsts, usize::from(v))))
}

// The value of object x / 32 in slot x % 32, where n objects have these types.
#[tactic(auto, unfolding(crate::specs::Numbers::value_at_in))]
fn value_at(dues: &[u8; 768], firsts: &[u8; 12], types: &[u8; 8], n: u8, x: usize) -> u8
    requires { x < 256 }
    ensures { result ≡ value_at_in dues.now firsts.now types.now n x }
{
    let o = x / 32;
    if o < usize::from(n) {
        let t = laws::byte(types, o);
        return chosen_value(firsts, laws::byte(dues, laws::place(t, (x % 32) as u8)));
    }
    0
}

// The same for all objects and slots.
fn all_values(dues: &[u8; 768], firsts: &[u8; 12], types: &[u8; 8], n: u8) -> [u8; 256]
    ensures { (x : ℕ) → x < 256 → get_or result x 0 ≡ value_at_in dues.now firsts.now types.now n x }
{
    std::array::from_fn(|x| value_at(dues, firsts, types, n, x))
}

// A record of n objects with the types and links of a site, and for each object a value in each slot where old asks for one: a value that
// new lacks, if old allows one.
pub fn with_values(by: &PairDues, site: worlds::Site, n: u8) -> records::MemoryRecord
    requires { (o : ℕ) → o < n → get_or site.types o 0 < by.now.pair.old.now.stored.types.count }
    ensures { Filled (old_of by.now.pair) (new_of by.now.pair) site.types site.links n result }
{
    let types = site.types;
    let links = site.links;
    let firsts = lacking_values(&by.pair, &same_types(&by.pair));
    let values = all_values(by.dues, &firsts, &types, n);
    records::MemoryRecord {
        count: usize::from(n),
        types,
        values,
        links,
        // Both by name, as `Filled` has them.
        strays: records::Strays {
            values: false,
            links: false,
        },
    }
}
