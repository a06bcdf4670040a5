// Wholes: each object is a part of at most one.
ghost use Rattle.std.specs.Prelude.{◌<◌};
ghost use Rattle.worlds.specs.Kept.{WholesKept};
ghost use Rattle.aims.specs.Finds.{Finds};
ghost use Rattle.aims.specs.Wholes.{AllPartsAvoided, PairApart, PairsApart};

use crate::search::Search;
use worlds::{Lines, Site, Whole};

impl Search<'_> {
    // An object of the types a that is a target of two, of the types b in slot s and of the types c in slot u. One of them may be itself.
    fn find_parts(&self, s: u8, u: u8, a: u32, b: u32, c: u32) -> Option<Site>
        requires { (s < 32) × (u < 32) }
        ensures { Finds self.now (AllPartsAvoided s u a b c) result }
    {
        if let Some(site) = self.ask_parts(s, u, a, b, c) {
            return Some(site);
        }
        if let Some(site) = self.ask_own_parts(s, u, queries::common(a, b), c) {
            return Some(site);
        }
        self.ask_own_parts(u, s, queries::common(a, c), b)
    }

    // An object that is a part of two, by two compositions or twice by the same one.
    fn find_pair(&self, one: &Whole, two: &Whole) -> Option<Site>
        ensures { Finds self.now (PairApart one.now two.now) result }
    {
        if one.from == 0 {
            return None;
        }
        if two.from == 0 {
            return None;
        }
        let parts = queries::common(one.to, two.to);
        if parts == 0 {
            return None;
        }
        if 32 <= one.slot {
            return None;
        }
        if 32 <= two.slot {
            return None;
        }
        self.find_parts(one.slot, two.slot, parts, one.from, two.from)
    }

    // The same by composition j of the other diagram and each from j on.
    fn find_pairs(&self, j: usize, others: &Lines) -> Option<Site>
        requires { j < 16 }
        ensures { Finds self.now (PairsApart others.now j) result }
    {
        (j..16).find_map(|k| self.find_pair(&others.wholes[j], &others.wholes[k]))
    }

    // The same by all.
    pub fn find_wholes(&self, others: &Lines) -> Option<Site>
        ensures { Finds self.now (WholesKept others.now) result }
    {
        (0..16).find_map(|j| self.find_pairs(j, others))
    }
}
