// The tables of a diagram by the types and role slots of another one, or by its own, that the search by types reads.
// Counts of types and ends are at most 32, and slots and limits below 256, as `as u8` keeps them.
#![tactic(auto)]

ghost use Rattle.std.specs.Prelude.{◌≡◌, ◌&&◌, ℕ, ◌*◌, ◌+◌, ◌<◌, ◌≤◌, ltb, get_or};
ghost use Rattle.laws.specs.Bits.{Marks, bit};
ghost use Rattle.laws.specs.Connective.{both};
ghost use Rattle.diagrams.specs.View.{diagram_of};
ghost use Rattle.type_tables.specs.Pairs.{new_of, old_of};
ghost use Rattle.type_tables.specs.RowsIn.{is_subtype};
ghost use Rattle.worlds.specs.Tables.{LinesOf, MissingLinks, RowTables, SingleTypes, UsableTypes, single_by, single_missing};
ghost use Rattle.worlds.specs.Coherent.{SourceTable};
ghost use Rattle.sheets.specs.Named.{EndsBy, SlotsBy, SubtypesBy};
ghost use Rattle.sheets.specs.NamedIn.{is_image};

use diagrams::{Associations, ReadDiagram};
use laws::Mask;
use type_tables::{ALL_TYPES, Pair, PairDues};

mod lines;
mod places;
mod type_sets;

// The ends of a diagram's associations by another diagram: the types that an object at each end may have, and the slot of its role. Two
// tables: `ends_by` and `slots_by` give each with a promise of its own, and `targets_of` keeps by `sets` alone.
#[derive(Clone, Copy)]
struct Ends<'a> {
    asked: &'a Associations,
    sets: [u32; 32],
    // A number past the last slot where there is none, as the definition `slot_by` has it; a test stands before each look-up by it.
    slots: [u8; 32],
    // How many types the other diagram has.
    types: u8,
    ghost few: { asked.now.count ≤ 16 },
    ghost known: { types ≤ 24 },
}

impl<'a> Ends<'a> {
    // The ends of new's associations by old.
    fn of(by: &Pair<'a>) -> Ends<'a>
        ensures sets { EndsBy (old_of by.now) (new_of by.now) result.sets }
        ensures slots { SlotsBy (old_of by.now) (new_of by.now) result.slots }
        ensures asked { result.asked.now ≡ by.now.new.now.stored.associations }
        ensures types { result.types ≡ by.now.old.now.stored.types.count }
    {
        let new = by.new;
        Ends {
            asked: &new.stored.associations,
            sets: ends_by(by),
            slots: slots_by(by),
            types: by.old.stored.types.count as u8,
        }
    }

    // How many ends.
    fn count(&self) -> u8
        ensures { result ≡ self.now.asked.now.count * 2 }
    {
        (self.asked.count * 2) as u8
    }
}

// ---- slots

// Old's slot of the role of each end of new; past the last where there is none.
pub fn slots_by(by: &Pair) -> [u8; 32]
    ensures { SlotsBy (old_of by.now) (new_of by.now) result }
{
    let a = &by.old.stored.associations;
    let b = &by.new.stored.associations;
    fields::places(&b.roles, (b.count * 2) as u8, &a.roles, (a.count * 2) as u8)
}

// ---- types

// For each of m types its place in a table of types, of which the first k are asked for.
#[derive(Clone, Copy)]
struct Placed {
    images: [u8; 24],
    m: u8,
    k: u8,
    ghost few: { m ≤ 24 },
    ghost known: { k ≤ 32 },
}

impl Placed {
    // Type i is chosen, and its image is one of k types.
    fn is_shown(&self, chosen: u32, i: u8) -> bool
        requires { i < 24 }
        ensures { result ≡ both (ltb (get_or self.now.images i 0) self.now.k) (bit i chosen) }
    {
        (self.images[usize::from(i)] < self.k) & chosen.has(u32::from(i))
    }

    // Which of k types are images of types that are chosen. A loop: no law stands in `laws` for a fold behind a `filter`, and without one a
    // branch would give the mask back.
    fn images_of(&self, chosen: u32) -> u32
        ensures { Marks (is_image self.now.images (λ i. bit i chosen) self.now.m) self.now.k result }
    {
        let mut mask: u32 = 0;
        for i in 0..self.m {
            if self.is_shown(chosen, i) {
                mask = mask.with(u32::from(self.images[usize::from(i)]));
            }
        }
        mask
    }

    // Which of k types are images of subtypes of x, one of m types; past them nothing is looked up.
    fn subtypes_at(&self, sets: &[u32; 24], x: u8) -> u32
        requires { x < 32 }
        ensures { x < self.now.m → Marks (is_image self.now.images (is_subtype sets.now x) self.now.m) self.now.k result }
    {
        if self.m <= x {
            return 0;
        }
        self.images_of(type_tables::subtypes_of(sets, x))
    }

    // The same for each x.
    fn subtypes_all(&self, sets: &[u32; 24]) -> [u32; 24]
        ensures { (x : ℕ) → x < 24 → x < self.now.m → Marks (is_image self.now.images (is_subtype sets.now x) self.now.m) self.now.k (get_or result x 0) }
    {
        std::array::from_fn(|x| self.subtypes_at(sets, x as u8))
    }
}

// The types of old whose objects are instances of each type of new.
pub fn subtypes_by(by: &Pair) -> [u32; 24]
    ensures { SubtypesBy (old_of by.now) (new_of by.now) result }
{
    let images = type_tables::type_places(by.new, by.old);
    let placed = Placed {
        images,
        m: by.new.stored.types.count as u8,
        k: by.old.stored.types.count as u8,
    };
    placed.subtypes_all(&by.new.stored.types.sets)
}

// ---- ends

// The set at x, empty past the last.
fn set_at(sets: &[u32; 24], x: u8) -> u32
    ensures { result ≡ get_or sets.now x 0 }
{
    sets.get(usize::from(x)).copied().unwrap_or(0)
}

// The set of the type of each end.
fn ends_of(subtypes: &[u32; 24], types: &[u8; 32]) -> [u32; 32]
    ensures { (e : ℕ) → e < 32 → get_or result e 0 ≡ get_or subtypes.now (get_or types.now e 0) 0 }
{
    std::array::from_fn(|e| set_at(subtypes, types[e]))
}

// The types of old whose objects are instances of the type of each end of new.
pub fn ends_by(by: &Pair) -> [u32; 32]
    ensures { EndsBy (old_of by.now) (new_of by.now) result }
{
    let subtypes = subtypes_by(by);
    let a = &by.new.stored.associations;
    ends_of(&subtypes, &a.types)
}

// ---- rows

// What is asked of the links of an object: the types that a target may have, and how many there are at least and at most. Each is a table
// of its own, as in `worlds::Tables`: `sources_of` reads the targets alone, and `narrowing` makes them anew beside the same limits.
#[derive(Clone, Copy)]
pub struct Rows {
    pub targets: [u32; 768],
    pub lows: [u8; 768],
    pub highs: [u8; 768],
}

// The rows that new asks for, by the types and slots of old.
pub fn rows_by(by: &Pair) -> Rows
    ensures { RowTables (old_of by.now) (new_of by.now) result.targets result.lows result.highs }
{
    places::rows_of(&Ends::of(by))
}

// The table of sources: for type u and slot s at u * 32 + s the types that may have u as a target. By x, which is type x / 32 and
// slot x % 32: each set of targets marks many places.
pub fn sources_of(targets: &[u32; 768]) -> [u32; 768]
    ensures { SourceTable targets.now result }
{
    let mut r = [0u32; 768];
    for x in 0..768 {
        let mask = targets[x];
        if 0 < mask {
            let one = 0u32.with((x / 32) as u32);
            places::mask_slot(&mut r, mask, (x % 32) as u8, one, ALL_TYPES, 24);
        }
    }
    r
}

// ---- associations

// What new asks by its associations, by the types and slots of old.
pub fn lines_by(by: &Pair) -> worlds::Lines
    ensures { LinesOf (old_of by.now) (new_of by.now) result }
{
    lines::lines_of(&Ends::of(by))
}

// ---- sets of types

// The types that an object can have, by what each type asks of the values.
pub fn usable_types(by: &PairDues) -> u32
    ensures { UsableTypes (diagram_of by.now.pair.old.now.stored) result }
{
    let t = &by.pair.old.stored.types;
    type_sets::usable_of(&t.kinds, by.dues, t.count as u8)
}

// Which of k places among old's types have the name of a singleton class of new; a name that no type has is at the place behind the last.
fn singles_by(by: &Pair, k: u8) -> u32
    requires { k ≤ 32 }
    ensures { (t : ℕ) → bit t result ≡ ltb t k && single_by (old_of by.now) (new_of by.now) t }
{
    let images = type_tables::type_places(by.new, by.old);
    let u = &by.new.stored.types;
    let placed = Placed {
        images,
        m: u.count as u8,
        k,
    };
    placed.images_of(type_sets::singles_of(&u.kinds, u.count as u8))
}

// The types of old that have the name of a singleton class of new.
pub fn single_types(by: &Pair) -> u32
    ensures { SingleTypes (old_of by.now) (new_of by.now) result }
{
    singles_by(by, by.old.stored.types.count as u8)
}

// A singleton class of new has a name that no type of old has.
pub fn single_missing(by: &Pair) -> bool
    ensures { result ≡ single_missing (old_of by.now) (new_of by.now) }
{
    let k = by.old.stored.types.count as u8;
    singles_by(by, k + 1).has(u32::from(k))
}

// The types of old that new asks for links of a role for which old has no slot.
pub fn missing_links(by: &Pair) -> u32
    ensures { MissingLinks (old_of by.now) (new_of by.now) result }
{
    type_sets::missing_of(&Ends::of(by))
}
