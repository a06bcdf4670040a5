// Rule 5, by the indices of the record and the diagram.
ghost use Rattle.std.specs.Prelude.{◌≡◌, ◌*◌, ◌<◌, ◌≤◌};
ghost use Rattle.laws.specs.Bounded.{all};
ghost use Rattle.object_rules.specs.LinksIn.{link_fits};

use crate::is_own;
use permits::{Link, Permits};
use records::MemoryRecord;
use tables::Roles;

// A record in memory, with what permits its links.
#[derive(Clone, Copy)]
pub(crate) struct Linked<'a> {
    memory: &'a MemoryRecord,
    permits: Permits<'a>,
    ghost few: { memory.now.count ≤ 8 },
}

impl<'a> Linked<'a> {
    pub fn of(roles: &'a Roles<'a>) -> Self
        ensures memory { result.memory.now ≡ roles.now.memory.now }
        ensures associations { result.permits.associations.now ≡ roles.now.diagram.now.stored.associations }
        ensures tables { result.permits.tables.now ≡ roles.now.tables }
    {
        Linked {
            memory: roles.memory,
            permits: Permits::of(roles),
        }
    }

    // The link at x, of object x / 256 in slot x / 8 % 32 to object x % 8, if it is there, is permitted. By one number x, as the definition
    // goes over links.
    #[tactic(auto, unfolding(laws::specs::Connective::both, laws::specs::Connective::imp, crate::specs::LinksIn::link_fits))]
    fn link_fits(&self, x: usize) -> bool
        requires { x < 2048 }
        ensures { let v = self.now.permits in result ≡ link_fits self.now.memory.now.links v.associations.now.arrows v.associations.now.types v.tables.now.masks v.tables.now.slots v.associations.now.count x }
    {
        let link = Link {
            from: (x / 256) as u8,
            slot: (x / 8 % 32) as u8,
            to: (x % 8) as u8,
        };
        !is_own(
            self.permits.tables,
            self.permits.associations.count * 2,
            link.slot,
        ) || !records::is_linked(&self.memory.links, link.from, link.slot, link.to)
            || self.permits.is_permitted(link)
    }

    // Rule 5: so each link that is there.
    pub fn links_fit(&self) -> bool
        ensures { let v = self.now.permits in result ≡ all (link_fits self.now.memory.now.links v.associations.now.arrows v.associations.now.types v.tables.now.masks v.tables.now.slots v.associations.now.count) (self.now.memory.now.count * 256) }
    {
        (0..self.memory.count * 256).all(|x| self.link_fits(x))
    }
}
