// A record in memory, as seen by one diagram: its types, values and links together, by that diagram's indices.
#![tactic(auto)]

ghost use Rattle.std.specs.Prelude.{◌≡◌, ◌<◌, ◌*◌, ◌+◌, get_or};
ghost use Rattle.laws.specs.Bits.{bit};
ghost use Rattle.records.specs.Empty.{empty_record};

use laws::Mask;

// Whether the record has something that the diagram has no index for: of values, of links, or of both.
#[derive(Clone, Copy, Default)]
pub struct Strays {
    // A value of an attribute name that no type of the diagram declares.
    pub values: bool,
    // A link of a role name that no association of the diagram has.
    pub links: bool,
}

// Passed by value, with flat arrays of indices and masks: a rule of the project. So a type that the diagram lacks and a value that
// is not there are numbers in these arrays too.
#[derive(Clone, Copy, Default)]
pub struct MemoryRecord {
    pub count: usize,
    // The index of each object's type, or the number of types where the diagram lacks it.
    pub types: [u8; 8],
    // For object o and attribute slot s at o * 32 + s: 0 for no value, or one more than the value's code. What writes, knows and judges a
    // value is defined by this number, so that its readers take it apart themselves.
    pub values: [u8; 256],
    // For object o and role slot s at o * 32 + s: one bit for each target.
    pub links: [u8; 256],
    pub strays: Strays,
}

// No object, no value, no link.
pub fn empty_record() -> MemoryRecord
    ensures { result ≡ empty_record }
{
    MemoryRecord::default()
}

// Object o has the link to p by the role in slot s.
pub fn is_linked(links: &[u8; 256], o: u8, s: u8, p: u8) -> bool
    requires { (o < 8) × (s < 32) × (p < 8) }
    ensures { result ≡ bit p (get_or links.now (o * 32 + s) 0) }
{
    links[laws::place(o, s)].has(p)
}
