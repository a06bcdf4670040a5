// Rules 1 and 2, by the indices of the record and the diagram.
ghost use Rattle.std.specs.Prelude.{◌≡◌};
ghost use Rattle.laws.specs.Bounded.{all, tally};
ghost use Rattle.object_rules.specs.TypesIn.{concrete_at, typed_at, single_at};

use diagrams::{ReadDiagram, Types};
use records::MemoryRecord;

// The objects of a record in memory, with the types of a diagram.
#[derive(Clone, Copy)]
pub(crate) struct Objects<'a> {
    types: &'a Types,
    memory: &'a MemoryRecord,
}

impl<'a> Objects<'a> {
    pub fn of(d: &'a ReadDiagram, m: &'a MemoryRecord) -> Self
        ensures types { result.types.now ≡ d.now.stored.types }
        ensures memory { result.memory.now ≡ m.now }
    {
        Objects {
            types: &d.stored.types,
            memory: m,
        }
    }

    // Object o's type is one of the types, and a class or singleton class.
    #[tactic(auto, unfolding(laws::specs::Connective::both, laws::specs::Connective::either, crate::specs::TypesIn::concrete_at))]
    fn is_concrete(&self, o: usize) -> bool
        ensures { result ≡ concrete_at self.now.types.now.kinds self.now.types.now.count self.now.memory.now.types o }
    {
        let i = usize::from(laws::byte(&self.memory.types, o));
        i < self.types.count && diagrams::has_objects(laws::byte(&self.types.kinds, i))
    }

    // Rule 1: so each object.
    pub fn are_concrete(&self) -> bool
        ensures { result ≡ all (concrete_at self.now.types.now.kinds self.now.types.now.count self.now.memory.now.types) self.now.memory.now.count }
    {
        (0..self.memory.count).all(|o| self.is_concrete(o))
    }

    // Object o has type i itself.
    #[tactic(auto, unfolding(crate::specs::TypesIn::typed_at))]
    fn is_typed(&self, i: usize, o: usize) -> bool
        ensures { result ≡ typed_at self.now.memory.now.types i o }
    {
        i == usize::from(laws::byte(&self.memory.types, o))
    }

    // How many objects have type i itself.
    fn count_typed(&self, i: usize) -> usize
        ensures { result ≡ tally (typed_at self.now.memory.now.types i) self.now.memory.now.count }
    {
        (0..self.memory.count)
            .filter(|o| self.is_typed(i, *o))
            .count()
    }

    // Type i, if it is a singleton class, is the type itself of exactly one object.
    #[tactic(auto, unfolding(laws::specs::Connective::imp, crate::specs::TypesIn::single_at))]
    fn is_single(&self, i: usize) -> bool
        ensures { result ≡ single_at self.now.types.now.kinds self.now.memory.now.types self.now.memory.now.count i }
    {
        laws::byte(&self.types.kinds, i) != 3 || self.count_typed(i) == 1
    }

    // Rule 2: so each type.
    pub fn are_single(&self) -> bool
        ensures { result ≡ all (single_at self.now.types.now.kinds self.now.memory.now.types self.now.memory.now.count) self.now.types.now.count }
    {
        (0..self.types.count).all(|i| self.is_single(i))
    }
}
