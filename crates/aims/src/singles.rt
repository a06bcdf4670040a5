// Singletons: each type of the other diagram's set has exactly one object. Those that are singletons anyway need no search.
ghost use Rattle.std.specs.Prelude.{◌<◌};
ghost use Rattle.worlds.specs.Kept.{SinglesKept};
ghost use Rattle.aims.specs.Finds.{Finds};
ghost use Rattle.aims.specs.Singles.{SingleKept};

use crate::search::Search;
use laws::Mask;
use worlds::Site;

impl Search<'_> {
    // A world with no object of type t, or two.
    fn find_single(&self, t: u32, others: u32) -> Option<Site>
        requires { t < 24 }
        ensures { Finds self.now (SingleKept others t) result }
    {
        if !others.has(t) {
            return None;
        }
        if self.tables.singles.has(t) {
            return None;
        }
        let a = queries::only(t);
        if let Some(site) = self.ask_absent(a) {
            return Some(site);
        }
        self.ask_pairs(a)
    }

    // A world with no object of a type of the set, or two.
    pub fn find_singles(&self, others: u32) -> Option<Site>
        ensures { Finds self.now (SinglesKept others) result }
    {
        (0u32..24).find_map(|t| self.find_single(t, others))
    }
}
