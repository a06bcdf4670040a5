// What the search by types works on: a query, tables by types, and what it finds.
#![tactic(auto)]

ghost use Rattle.std.specs.Prelude.{◌≡◌, ◌*◌, ◌+◌, ◌<◌, get_or};
ghost use Rattle.worlds.specs.Coherent.{Slotted, SmallTypes, SourceTable};

// The limits for the number of targets of one object in one role slot.
#[derive(Clone, Copy)]
pub struct RowLimits {
    pub slot: u8,
    pub low: u8,
    pub high: u8,
}

// The limits for the number of its sources in one role slot, among objects of the types `from`.
#[derive(Clone, Copy)]
pub struct ColumnLimits {
    pub slot: u8,
    pub from: u32,
    pub least: u8,
    pub most: u8,
}

// A question about the sites that one diagram allows. Its seeds are the first objects. It is built one demand after the other, and is
// `Sane` when it is whole. `growth::Wanted` and `leaves::Objects` hold that beside it; the functions between get a query alone, or its rows
// and limits, and ask what they need of `Sane q`.
#[derive(Clone, Copy)]
pub struct Query {
    // How many objects are asked for, and of which types each may be, one bit for each type.
    pub seeds: u8,
    pub types: [u32; 8],
    // Links between seeds that must stand, and links that must not: for object o and role slot s at o * 32 + s, one bit for each target.
    pub must: [u8; 256],
    pub shut: [u8; 256],
    // The limits of the first seed. They are no Options: limits that no number breaks ask nothing, so that one sentence of the definition
    // of a solution holds of all queries.
    pub row: RowLimits,
    pub column: ColumnLimits,
    // Types that no other object has.
    pub never: u32,
}

// Rule 7: how many sources a target has.
#[derive(Clone, Copy)]
pub struct Column {
    pub slot: u8,
    pub from: u32,
    pub to: u32,
    pub low: u8,
    pub high: u8,
}

// Rule 8: a link stands exactly when the link back does.
#[derive(Clone, Copy)]
pub struct Mirror {
    pub right: u8,
    pub left: u8,
    pub from: u32,
    pub to: u32,
}

// Rule 9: an object is a part of one whole.
#[derive(Clone, Copy)]
pub struct Whole {
    pub slot: u8,
    pub from: u32,
    pub to: u32,
}

// What a diagram asks by associations, in sets of types. Of an association that does not ask, the sets are empty and the slot is 0. That
// the slots are role slots is not said here: it is known of the lines of the diagram whose sites are searched, and not asked of others.
#[derive(Clone, Copy)]
pub struct Lines {
    pub columns: [Column; 16],
    pub mirrors: [Mirror; 16],
    pub wholes: [Whole; 16],
}

// What the diagram whose sites are searched says of their objects, by types and role slots. The tables of rows are three fields here and in
// `Others`; `sheets::Rows`, which has the three, ends where these are made: `narrowing` changes the targets alone, and `relaxing` asks with
// other lows.
#[derive(Clone, Copy)]
pub struct Tables {
    // For type t and role slot s at t * 32 + s: the types of the targets that an object may have and of the sources, and the limits for
    // the number of its targets.
    pub targets: [u32; 768],
    pub sources: [u32; 768],
    pub lows: [u8; 768],
    pub highs: [u8; 768],
    pub lines: Lines,
    // The types that an object can have, and those that exactly one object has.
    pub usable: u32,
    pub singles: u32,
    // The slots of the lines are role slots, and the sources are the targets, turned.
    ghost slotted: { Slotted lines },
    ghost turned: { SourceTable targets sources },
}

// What another diagram says of these sites, by the same types and role slots.
#[derive(Clone, Copy)]
pub struct Others {
    pub targets: [u32; 768],
    pub lows: [u8; 768],
    pub highs: [u8; 768],
    pub lines: Lines,
    // The types that no object may have, and those that exactly one object has.
    pub bad: u32,
    pub singles: u32,
    // Exactly one object has a type that there is not.
    pub missing: bool,
}

// The types of objects that a search has chosen.
#[derive(Clone, Copy)]
pub struct Types {
    pub at: [u8; 8],
    // They are numbers of types, also past the objects.
    ghost small: { SmallTypes at },
}

impl Types {
    // The type of object o.
    pub fn of(&self, o: u8) -> u32
        requires { o < 8 }
        ensures { (result ≡ get_or self.now.at o 0) × (result < 24) }
    {
        u32::from(self.at[usize::from(o)])
    }

    // Where a table has row s of object o.
    pub fn row(&self, o: u8, s: u8) -> usize
        requires { (o < 8) × (s < 32) }
        ensures { (result ≡ get_or self.now.at o 0 * 32 + s) × (result < 768) }
    {
        laws::place(self.at[usize::from(o)], s)
    }
}

// A site that was found: the types of its objects, and their links as in a record.
#[derive(Clone, Copy)]
pub struct Site {
    pub types: [u8; 8],
    pub links: [u8; 256],
}
