// What is asked of a net. The slots are role slots. `worlds` has structs of these names apart: there the ends are sets of types, here sets
// of objects, and there any slot may stand.
ghost use Rattle.std.specs.Prelude.{◌<◌};

// How many links there are at least and at most.
#[derive(Clone, Copy)]
pub struct Limits {
    pub low: u8,
    pub high: u8,
}

// A column: the slot of its links, the objects whose links count, and the limits of each target.
#[derive(Clone, Copy)]
pub struct Column {
    pub slot: u8,
    pub from: u8,
    pub limits: [Limits; 8],
    ghost slotted: { slot < 32 },
}

// A mirror: the slots of the links and of the links back, and the objects at either end.
#[derive(Clone, Copy)]
pub struct Mirror {
    pub right: u8,
    pub left: u8,
    pub from: u8,
    pub to: u8,
    ghost slotted_right: { right < 32 },
    ghost slotted_left: { left < 32 },
}

// The wholes of one composition: the slot of its links, and the objects that may be wholes and parts.
#[derive(Clone, Copy)]
pub struct Whole {
    pub slot: u8,
    pub from: u8,
    pub to: u8,
    ghost slotted: { slot < 32 },
}

// Everything that is asked: the limits of row s of object o at o * 32 + s, columns, mirrors and wholes.
#[derive(Clone, Copy)]
pub struct NetConstraints {
    pub rows: [Limits; 256],
    pub columns: [Column; 17],
    pub mirrors: [Mirror; 16],
    pub wholes: [Whole; 16],
}
