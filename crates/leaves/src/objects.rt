// Objects whose types are given, with all that is asked of their links.
ghost use Rattle.std.specs.Prelude.{◌≤◌};
ghost use Rattle.worlds.specs.Coherent.{Slotted};
ghost use Rattle.worlds.specs.Asked.{Sane};

use worlds::{Lines, Query, Types};

// The first n objects of these types, the lines of the diagram whose sites are searched, and the query.
#[derive(Clone, Copy)]
pub(crate) struct Objects<'a> {
    pub types: &'a Types,
    pub n: u8,
    pub lines: &'a Lines,
    pub q: &'a Query,
    ghost few: { n ≤ 8 },
    ghost slotted: { Slotted lines.now },
    ghost sane: { Sane q.now },
}
