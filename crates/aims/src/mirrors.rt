// Mirrors: a link stands exactly when the link back does.
ghost use Rattle.worlds.specs.Kept.{MirrorsKept};
ghost use Rattle.aims.specs.Finds.{Finds};
ghost use Rattle.aims.specs.Mirrors.{AllHalvesAvoided, MirrorKept};

use crate::search::Search;
use worlds::{Lines, Mirror, Site};

impl Search<'_> {
    // A link in slot s from an object of the types a to one of the types b without the link back in slot u.
    fn find_halves(&self, s: u8, u: u8, a: u32, b: u32) -> Option<Site>
        ensures { Finds self.now (AllHalvesAvoided s u a b) result }
    {
        if 32 <= s {
            return None;
        }
        if 32 <= u {
            return self.find_links(s, a, b);
        }
        if let Some(site) = self.ask_halves(s, u, a, b) {
            return Some(site);
        }
        self.ask_half_loops(s, u, queries::common(a, b))
    }

    // A link without its mirror.
    fn find_mirror(&self, mirror: &Mirror) -> Option<Site>
        ensures { Finds self.now (MirrorKept mirror.now) result }
    {
        if let Some(site) = self.find_halves(mirror.right, mirror.left, mirror.from, mirror.to) {
            return Some(site);
        }
        self.find_halves(mirror.left, mirror.right, mirror.to, mirror.from)
    }

    // A link without its mirror, by the other diagram.
    pub fn find_mirrors(&self, others: &Lines) -> Option<Site>
        ensures { Finds self.now (MirrorsKept others.now) result }
    {
        (0..16).find_map(|j| self.find_mirror(&others.mirrors[j]))
    }
}
