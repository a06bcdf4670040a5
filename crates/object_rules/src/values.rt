// Rules 3 and 4, by the indices of the record and the diagram.
ghost use Rattle.std.specs.Prelude.{◌≡◌, ◌*◌, ◌<◌, ◌≤◌};
ghost use Rattle.laws.specs.Bounded.{all};
ghost use Rattle.object_rules.specs.ValuesIn.{due_at, due_for, value_fits};

use crate::is_own;
use declarations::Declarations;
use records::MemoryRecord;
use tables::Values;

// A record in memory, with the declarations that its values are judged by.
#[derive(Clone, Copy)]
pub(crate) struct Valued<'a> {
    memory: &'a MemoryRecord,
    declarations: Declarations<'a>,
    ghost few: { memory.now.count ≤ 8 },
}

impl<'a> Valued<'a> {
    pub fn of(values: &'a Values<'a>) -> Self
        ensures memory { result.memory.now ≡ values.now.memory.now }
        ensures attributes { result.declarations.attributes.now ≡ values.now.diagram.now.stored.attributes }
        ensures tables { result.declarations.tables.now ≡ values.now.tables }
    {
        Valued {
            memory: values.memory,
            declarations: Declarations::of(values),
        }
    }

    // Object o has a value for the name of attribute a exactly when that is declared.
    #[tactic(auto, unfolding(laws::specs::Connective::same, crate::specs::ValuesIn::due_at))]
    fn is_due(&self, o: u8, a: usize) -> bool
        requires { o < 8 }
        ensures { let d = self.now.declarations in result ≡ due_at self.now.memory.now.values d.attributes.now.owners d.tables.now.masks d.tables.now.slots d.attributes.now.count o a }
    {
        let s = laws::byte(&self.declarations.tables.slots, a);
        let value = laws::byte(&self.memory.values, laws::place(o, s));
        (value != 0) == self.declarations.is_declared(o, s)
    }

    // Object o has values for just the names that are declared.
    fn are_due(&self, o: u8) -> bool
        requires { o < 8 }
        ensures { let d = self.now.declarations in result ≡ due_for self.now.memory.now.values d.attributes.now.owners d.tables.now.masks d.tables.now.slots d.attributes.now.count o }
    {
        (0..self.declarations.attributes.count).all(|a| self.is_due(o, a))
    }

    // Rule 3: so each object.
    pub fn all_due(&self) -> bool
        ensures { let d = self.now.declarations in result ≡ all (due_for self.now.memory.now.values d.attributes.now.owners d.tables.now.masks d.tables.now.slots d.attributes.now.count) self.now.memory.now.count }
    {
        (0..self.memory.count as u8).all(|o| self.are_due(o))
    }

    // The value at x, of object x / 32 in slot x % 32, if there is one, is of the value type of each of its declarations. It is kept as one
    // more than its code, whose value type is code / 8. By one number x, as the definition goes over values.
    #[tactic(auto, unfolding(laws::specs::Connective::both, laws::specs::Connective::imp, crate::specs::ValuesIn::value_fits))]
    fn value_fits(&self, x: usize) -> bool
        requires { x < 256 }
        ensures { let d = self.now.declarations in result ≡ value_fits self.now.memory.now.values d.attributes.now.owners d.attributes.now.types d.tables.now.masks d.tables.now.slots d.attributes.now.count x }
    {
        let d = &self.declarations;
        let s = (x % 32) as u8;
        if !is_own(d.tables, d.attributes.count, s) {
            return true;
        }
        // A match: of a closure that calls `are_agreeing`, handed to `is_none_or`, a proof has no promise.
        match laws::byte(&self.memory.values, x).checked_sub(1) {
            Some(code) => d.are_agreeing((x / 32) as u8, s, code / 8),
            None => true,
        }
    }

    // Rule 4: so each value that is there.
    pub fn values_fit(&self) -> bool
        ensures { let d = self.now.declarations in result ≡ all (value_fits self.now.memory.now.values d.attributes.now.owners d.attributes.now.types d.tables.now.masks d.tables.now.slots d.attributes.now.count) (self.now.memory.now.count * 32) }
    {
        (0..self.memory.count * 32).all(|x| self.value_fits(x))
    }
}
