// Whether a diagram has an index for everything in a record in memory.
#![tactic(auto)]

ghost use Rattle.std.specs.Prelude.{◌≡◌, ◌^◌, ◌<◌, ◌≤◌, ltb};
ghost use Rattle.diagrams.specs.View.{diagram_of};
ghost use Rattle.records.specs.WithinTest.{value_known, values_known, row_known, targets_known, object_known, within};

use diagrams::ReadDiagram;
use records::MemoryRecord;

// Each target in the mask is one of n objects: by one comparison, since `Mask::is_inside` would ask for the mask of n objects, which
// `masks`, a crate above, has as a table.
fn row_known(n: usize, mask: u8) -> bool
    requires { n ≤ 8 }
    ensures { result ≡ row_known n mask }
{
    usize::from(mask) < 1 << n
}

// A record of at most 8 objects, and the diagram that is asked for its indices.
#[derive(Clone, Copy)]
struct Indexed<'a> {
    diagram: &'a ReadDiagram,
    memory: &'a MemoryRecord,
    ghost few: { memory.now.count ≤ 8 },
}

// Objects and slots are usize here, as the counts that they run to, so that `o * 32 + s` stands where `laws::place` would take bytes.
impl Indexed<'_> {
    // No value, or one more than the code of a value of the diagram.
    fn value_known(&self, v: u8) -> bool
        ensures { result ≡ value_known (diagram_of self.now.diagram.now.stored) v }
    {
        let Some(code) = v.checked_sub(1) else {
            return true;
        };
        let values = &self.diagram.stored.values;
        let t = usize::from(code / 8);
        if values.count <= t {
            return false;
        }
        fields::is_known(values.sizes[t], code % 8)
    }

    // Each value of object o is known.
    fn values_known(&self, o: usize) -> bool
        requires { o < 8 }
        ensures { result ≡ values_known (diagram_of self.now.diagram.now.stored) self.now.memory.now o }
    {
        (0..self.diagram.stored.attributes.count).all(|s| self.value_known(
            self.memory.values[o * 32 + s],
        ))
    }

    // Each link of object o has an object as its target.
    fn targets_known(&self, o: usize) -> bool
        requires { o < 8 }
        ensures { result ≡ targets_known (diagram_of self.now.diagram.now.stored) self.now.memory.now o }
    {
        (0..self.diagram.stored.associations.count * 2).all(|s| row_known(
            self.memory.count,
            self.memory.links[o * 32 + s],
        ))
    }

    // The type of object o, its values and its targets are known.
    fn object_known(&self, o: usize) -> bool
        requires { o < 8 }
        ensures { result ≡ object_known (diagram_of self.now.diagram.now.stored) self.now.memory.now o }
    {
        usize::from(self.memory.types[o]) < self.diagram.stored.types.count
            && self.values_known(o)
            && self.targets_known(o)
    }
}

// The diagram has an index for everything.
pub fn is_within(d: &ReadDiagram, m: &MemoryRecord) -> bool
    ensures { result ≡ within (diagram_of d.now.stored) m.now }
{
    if 8 < m.count {
        return false;
    }
    let indexed = Indexed {
        diagram: d,
        memory: m,
    };
    (0..m.count).all(|o| indexed.object_known(o))
}
