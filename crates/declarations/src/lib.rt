// The declarations of an attribute name for an object, by the tables of instances and of the attributes' slots.
#![tactic(auto)]

ghost use Rattle.std.specs.Prelude.{◌≡◌, ◌<◌};
ghost use Rattle.laws.specs.Bounded.{all, any};
ghost use Rattle.declarations.specs.Declares.{declares_at, agrees_at};

use diagrams::Attributes;
use laws::Mask;
use tables::{Tables, Values};

// The attributes of a diagram, with the tables of instances and of the attributes' slots.
#[derive(Clone, Copy)]
pub struct Declarations<'a> {
    pub attributes: &'a Attributes,
    pub tables: &'a Tables,
}

// An object and a slot are two parameters: `object_rules` has them from its loops, and a struct would be made there for each value and
// taken apart in `is_declaring`.
impl<'a> Declarations<'a> {
    // Those that a record in memory is judged by.
    pub fn of(values: &'a Values<'a>) -> Self
        ensures attributes { result.attributes.now ≡ values.now.diagram.now.stored.attributes }
        ensures tables { result.tables.now ≡ values.now.tables }
    {
        Declarations {
            attributes: &values.diagram.stored.attributes,
            tables: &values.tables,
        }
    }

    // Attribute a is one of object o's type or of an ancestor, and has the name in slot s.
    #[tactic(auto, unfolding(laws::specs::Connective::both, crate::specs::Declares::declares_at))]
    fn is_declaring(&self, o: u8, s: u8, a: usize) -> bool
        requires { o < 8 }
        ensures { result ≡ declares_at self.now.attributes.now.owners self.now.tables.now.masks self.now.tables.now.slots o s a }
    {
        let owner = laws::byte(&self.attributes.owners, a);
        laws::byte(&self.tables.masks, usize::from(owner)).has(o)
            && laws::byte(&self.tables.slots, a) == s
    }

    // One of the attributes is such a declaration.
    pub fn is_declared(&self, o: u8, s: u8) -> bool
        requires { o < 8 }
        ensures { result ≡ any (declares_at self.now.attributes.now.owners self.now.tables.now.masks self.now.tables.now.slots o s) self.now.attributes.now.count }
    {
        (0..self.attributes.count).any(|a| self.is_declaring(o, s, a))
    }

    // Attribute a, if it is a declaration for object o and slot s, has the value type.
    #[tactic(auto, unfolding(laws::specs::Connective::imp, crate::specs::Declares::agrees_at))]
    fn is_agreeing(&self, o: u8, s: u8, value_type: u8, a: usize) -> bool
        requires { o < 8 }
        ensures { result ≡ agrees_at self.now.attributes.now.owners self.now.attributes.now.types self.now.tables.now.masks self.now.tables.now.slots o s value_type a }
    {
        !self.is_declaring(o, s, a) || laws::byte(&self.attributes.types, a) == value_type
    }

    // Each of the attributes that is such a declaration has the value type.
    pub fn are_agreeing(&self, o: u8, s: u8, value_type: u8) -> bool
        requires { o < 8 }
        ensures { result ≡ all (agrees_at self.now.attributes.now.owners self.now.attributes.now.types self.now.tables.now.masks self.now.tables.now.slots o s value_type) self.now.attributes.now.count }
    {
        (0..self.attributes.count).all(|a| self.is_agreeing(o, s, value_type, a))
    }
}
