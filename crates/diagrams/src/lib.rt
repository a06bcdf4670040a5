// A diagram in memory: flat arrays, names in slots of 17 bytes.
#![tactic(auto)]

ghost use Rattle.std.specs.Prelude.{◌≡◌, ◌||◌, eqb};
ghost use Rattle.diagrams.specs.Empty.{empty_diagram};
ghost use Rattle.diagrams.specs.Held.{Held};
ghost use Rattle.diagrams.specs.HeldProp.{Held-prop};

// The kind of a type, the form and the arrow of an association are kept as the numbers that files have for them, so that the arrays
// stay arrays of bytes and a number goes from file to diagram as it is.

// A type of this kind may have objects: a class or a singleton class.
pub fn has_objects(kind: u8) -> bool
    ensures { result ≡ eqb kind 0 || eqb kind 3 }
{
    matches!(kind, 0 | 3)
}

#[derive(Clone, Copy, Default)]
pub struct ValueTypes {
    pub count: usize,
    pub names: [u8; 204],
    // How many constants each has; constant i of value type v is in slot v * 8 + i.
    pub sizes: [u8; 12],
    pub constants: [u8; 1632],
}

#[derive(Clone, Copy, Default)]
pub struct Types {
    pub count: usize,
    pub kinds: [u8; 24],
    pub names: [u8; 408],
    // How many parents each has; parent s of type t is at t * 4 + s.
    pub sizes: [u8; 24],
    pub parents: [u8; 96],
    // The set of types that each counts as, one bit for each type.
    pub sets: [u32; 24],
}

#[derive(Clone, Copy, Default)]
pub struct Attributes {
    pub count: usize,
    pub owners: [u8; 32],
    pub names: [u8; 544],
    pub types: [u8; 32],
}

// The left end of association a is end a * 2, the right one end a * 2 + 1.
#[derive(Clone, Copy, Default)]
pub struct Associations {
    pub count: usize,
    pub forms: [u8; 16],
    pub arrows: [u8; 16],
    pub types: [u8; 32],
    pub lows: [u16; 32],
    // 65,535, as in a file of edition 2, stands for no upper limit: the limits are flat arrays of numbers, as all here.
    pub ups: [u16; 32],
    pub roles: [u8; 544],
}

// Passed by value, with flat arrays of names and indices: a rule of the project.
#[derive(Clone, Copy, Default)]
pub struct StoredDiagram {
    pub values: ValueTypes,
    pub types: Types,
    pub attributes: Attributes,
    pub associations: Associations,
}

// A diagram that was read from a file or a text: it follows 01, and the set of each type is kept with it.
#[derive(Clone, Copy)]
pub struct ReadDiagram {
    pub stored: StoredDiagram,
    ghost held: { Held stored } by { Held-prop stored },
}

// Nothing declared.
pub fn empty_diagram() -> StoredDiagram
    ensures { result ≡ empty_diagram }
{
    StoredDiagram::default()
}
