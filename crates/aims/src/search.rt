// What all searches share.
ghost use Rattle.std.specs.Prelude.{◌≤◌};

use worlds::Tables;

// A search among the sites of n objects that a diagram's tables allow. Where a method asks `s < 32`, s is the slot of a row, or one that
// its caller has compared with 32: where the searched diagram has no slot, the lines of another one have the number of its slots, which no
// row of an object has links in, and which is 32 where all are taken. It is no Option, since the lines that are searched, which have the
// same type, always have a slot and are read without a test.
#[derive(Clone, Copy)]
pub struct Search<'a> {
    pub tables: &'a Tables,
    pub n: u8,
    ghost few: { n ≤ 8 },
}
