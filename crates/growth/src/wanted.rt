// What a search looks for.
ghost use Rattle.std.specs.Prelude.{◌≤◌};
ghost use Rattle.worlds.specs.Asked.{Sane};

use worlds::{Query, Tables};

// The sites of n objects that the tables allow and the query asks for.
#[derive(Clone, Copy)]
pub struct Wanted<'a> {
    pub tables: &'a Tables,
    pub q: &'a Query,
    pub n: u8,
    ghost sane: { Sane q.now },
    ghost few: { n ≤ 8 },
}
