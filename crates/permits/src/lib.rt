// The associations that permit a link, by the tables of instances and of the ends' slots.
#![tactic(auto)]

ghost use Rattle.std.specs.Prelude.{◌≡◌, ◌<◌, ◌≤◌};
ghost use Rattle.laws.specs.Bounded.{any};
ghost use Rattle.permits.specs.Permits.{joins, permits_at};

use diagrams::Associations;
use laws::Mask;
use tables::{Roles, Tables};

// A link from an object to an object, of the role in a slot.
#[derive(Clone, Copy)]
pub struct Link {
    pub from: u8,
    pub slot: u8,
    pub to: u8,
    ghost bounds: { (from < 8) × (to < 8) },
}

// The associations of a diagram, with the tables of instances and of the ends' slots.
#[derive(Clone, Copy)]
pub struct Permits<'a> {
    pub associations: &'a Associations,
    pub tables: &'a Tables,
    ghost few: { associations.now.count ≤ 16 },
}

impl<'a> Permits<'a> {
    // Those that a record in memory is judged by.
    pub fn of(roles: &'a Roles<'a>) -> Self
        ensures associations { result.associations.now ≡ roles.now.diagram.now.stored.associations }
        ensures tables { result.tables.now ≡ roles.now.tables }
    {
        Permits {
            associations: &roles.diagram.stored.associations,
            tables: &roles.tables,
        }
    }

    // The link may be one of a side from end `from` to end `to`: its role is that of `to`, and its objects are instances of the two.
    #[tactic(auto, unfolding(laws::specs::Connective::both, crate::specs::Permits::joins))]
    fn is_joining(&self, link: Link, from: usize, to: usize) -> bool
        ensures { result ≡ joins self.now.associations.now.types self.now.tables.now.masks self.now.tables.now.slots link.slot link.from link.to from to }
    {
        let source = laws::byte(&self.associations.types, from);
        let target = laws::byte(&self.associations.types, to);
        laws::byte(&self.tables.slots, to) == link.slot
            && laws::byte(&self.tables.masks, usize::from(source)).has(link.from)
            && laws::byte(&self.tables.masks, usize::from(target)).has(link.to)
    }

    // Association a permits the link: by a side whose links are carried.
    #[tactic(auto, unfolding(laws::specs::Connective::both, laws::specs::Connective::either, crate::specs::Permits::permits_at))]
    fn is_permitting(&self, link: Link, a: usize) -> bool
        requires { a < 16 }
        ensures { result ≡ permits_at self.now.associations.now.arrows self.now.associations.now.types self.now.tables.now.masks self.now.tables.now.slots link.slot link.from link.to a }
    {
        let arrow = laws::byte(&self.associations.arrows, a);
        let left = a * 2;
        let right = a * 2 + 1;
        (arrows::carries_right(arrow) && self.is_joining(link, left, right))
            || (arrows::carries_left(arrow) && self.is_joining(link, right, left))
    }

    // One of the associations permits it.
    pub fn is_permitted(&self, link: Link) -> bool
        ensures { result ≡ any (permits_at self.now.associations.now.arrows self.now.associations.now.types self.now.tables.now.masks self.now.tables.now.slots link.slot link.from link.to) self.now.associations.now.count }
    {
        (0..self.associations.count).any(|a| self.is_permitting(link, a))
    }
}
