// Searches for allowed worlds with given objects in front: each answer says what all allowed worlds avoid. Whether objects can have a type
// of each set is asked before a query is made: most searches end there.
ghost use Rattle.std.specs.Prelude.{◌<◌, is_some};
ghost use Rattle.worlds.specs.Kept.{TypesAvoided, sheet_of};
ghost use Rattle.worlds.specs.Asked.{Answers, Sane, Solution, world_built};
ghost use Rattle.queries.specs.Avoided.{PairsAvoided, LinksAvoided, LoopsAvoided, RowsAvoided, ColumnsAvoided, HalvesAvoided, HalfLoopsAvoided, PartsAvoided, OwnPartsAvoided};
ghost use Rattle.aims.specs.Finds.{Finds};

use crate::search::Search;
use worlds::{Query, Site};

impl Search<'_> {
    // A world that the query asks for.
    fn ask(&self, q: &Query) -> Option<Site>
        requires { Sane q.now }
        ensures { Answers (Solution (sheet_of self.now.tables.now) q.now self.now.n) (is_some result) (world_built self.now.n result) }
    {
        growth::find(self.tables, q, self.n)
    }

    // An object of the types a.
    pub fn ask_types(&self, a: u32) -> Option<Site>
        ensures { Finds self.now (TypesAvoided a) result }
    {
        if !queries::meets(a, self.tables.usable) {
            return None;
        }
        self.ask(&queries::with_seeds(1, a, 0, 0))
    }

    // Any world.
    pub fn ask_any(&self) -> Option<Site>
        ensures { Finds self.now (λ _. ⊥) result }
    {
        self.ask(&queries::with_seeds(0, 0, 0, 0))
    }

    // A world without objects of the types a.
    pub fn ask_absent(&self, a: u32) -> Option<Site>
        ensures { Finds self.now (λ w. TypesAvoided a w → ⊥) result }
    {
        self.ask(&queries::with_never(queries::with_seeds(0, 0, 0, 0), a))
    }

    // Two objects of the types a.
    pub fn ask_pairs(&self, a: u32) -> Option<Site>
        ensures { Finds self.now (PairsAvoided a) result }
    {
        if !queries::meets(a, self.tables.usable) {
            return None;
        }
        self.ask(&queries::with_seeds(2, a, a, 0))
    }

    // A link in slot s from an object of the types a to another, of the types b.
    pub fn ask_links(&self, s: u8, a: u32, b: u32) -> Option<Site>
        requires { s < 32 }
        ensures { Finds self.now (LinksAvoided s a b) result }
    {
        if !queries::meets(a, self.tables.usable) {
            return None;
        }
        if !queries::meets(b, self.tables.usable) {
            return None;
        }
        let q = queries::with_seeds(2, a, b, 0);
        self.ask(&queries::with_link(q, s, 0, 1))
    }

    // A link in slot s from an object of the types a to itself.
    pub fn ask_loops(&self, s: u8, a: u32) -> Option<Site>
        requires { s < 32 }
        ensures { Finds self.now (LoopsAvoided s a) result }
    {
        if !queries::meets(a, self.tables.usable) {
            return None;
        }
        let q = queries::with_seeds(1, a, 0, 0);
        self.ask(&queries::with_link(q, s, 0, 0))
    }

    // An object of the types a with so many targets in slot s.
    pub fn ask_rows(&self, s: u8, a: u32, low: u8, high: u8) -> Option<Site>
        requires { s < 32 }
        ensures { Finds self.now (RowsAvoided s a low high) result }
    {
        if !queries::meets(a, self.tables.usable) {
            return None;
        }
        let q = queries::with_seeds(1, a, 0, 0);
        self.ask(&queries::with_row(q, s, low, high))
    }

    // An object of the types a with so many sources of the types `from` in slot s.
    pub fn ask_columns(&self, s: u8, a: u32, from: u32, low: u8, high: u8) -> Option<Site>
        requires { s < 32 }
        ensures { Finds self.now (ColumnsAvoided s a from low high) result }
    {
        if !queries::meets(a, self.tables.usable) {
            return None;
        }
        let q = queries::with_seeds(1, a, 0, 0);
        self.ask(&queries::with_column(q, s, from, low, high))
    }

    // A link in slot s from an object of the types a to another, of the types b, without the link back in slot u.
    pub fn ask_halves(&self, s: u8, u: u8, a: u32, b: u32) -> Option<Site>
        requires { (s < 32) × (u < 32) }
        ensures { Finds self.now (HalvesAvoided s u a b) result }
    {
        if !queries::meets(a, self.tables.usable) {
            return None;
        }
        if !queries::meets(b, self.tables.usable) {
            return None;
        }
        let q = queries::with_seeds(2, a, b, 0);
        self.ask(&queries::with_bar(queries::with_link(q, s, 0, 1), u, 1, 0))
    }

    // A link in slot s from an object of the types a to itself, without the one in slot u.
    pub fn ask_half_loops(&self, s: u8, u: u8, a: u32) -> Option<Site>
        requires { (s < 32) × (u < 32) }
        ensures { Finds self.now (HalfLoopsAvoided s u a) result }
    {
        if !queries::meets(a, self.tables.usable) {
            return None;
        }
        let q = queries::with_seeds(1, a, 0, 0);
        self.ask(&queries::with_bar(queries::with_link(q, s, 0, 0), u, 0, 0))
    }

    // An object of the types a that is a target of two others, of the types b in slot s and of the types c in slot u.
    pub fn ask_parts(&self, s: u8, u: u8, a: u32, b: u32, c: u32) -> Option<Site>
        requires { (s < 32) × (u < 32) }
        ensures { Finds self.now (PartsAvoided s u a b c) result }
    {
        if !queries::meets(a, self.tables.usable) {
            return None;
        }
        if !queries::meets(b, self.tables.usable) {
            return None;
        }
        if !queries::meets(c, self.tables.usable) {
            return None;
        }
        let q = queries::with_seeds(3, a, b, c);
        self.ask(&queries::with_link(queries::with_link(q, s, 1, 0), u, 2, 0))
    }

    // An object of the types a that is a target of its own in slot s and of another, of the types b, in slot u.
    pub fn ask_own_parts(&self, s: u8, u: u8, a: u32, b: u32) -> Option<Site>
        requires { (s < 32) × (u < 32) }
        ensures { Finds self.now (OwnPartsAvoided s u a b) result }
    {
        if !queries::meets(a, self.tables.usable) {
            return None;
        }
        if !queries::meets(b, self.tables.usable) {
            return None;
        }
        let q = queries::with_seeds(2, a, b, 0);
        self.ask(&queries::with_link(queries::with_link(q, s, 0, 0), u, 1, 0))
    }
}
