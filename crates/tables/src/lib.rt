// Tables that a record in memory is judged by. Types, counts and indices of slots are at most 32, as `as u8` keeps them.
#![tactic(auto)]

ghost use Rattle.std.specs.Prelude.{◌≡◌, ℕ, ◌<◌, ◌≤◌, get_or};
ghost use Rattle.laws.specs.Bits.{Marks};
ghost use Rattle.files.specs.Name.{same_name};
ghost use Rattle.fields.specs.Slot.{slot_name};
ghost use Rattle.diagrams.specs.View.{diagram_of};
ghost use Rattle.tables.specs.Numbers.{set_at, counts_as, slot_at};
ghost use Rattle.tables.specs.Tables.{Instances, RoleSlots, AttributeSlots, Coded, Codes};

use diagrams::{ReadDiagram, Types};
use laws::Mask;
use records::MemoryRecord;

// What the rules read: for each type the mask of its instances; for each attribute, or for each end, the slot of its name.
#[derive(Clone, Copy)]
pub struct Tables {
    pub masks: [u8; 24],
    pub slots: [u8; 32],
}

// ---- instances, by the sets of the diagram's types and the objects' types

// The types of a diagram, and of each object the index of its type.
#[derive(Clone, Copy)]
pub struct Typed<'a> {
    pub types: &'a Types,
    pub objects: &'a [u8; 8],
    ghost few: { types.now.count ≤ 24 },
}

impl Typed<'_> {
    // The set of types that object o counts as, empty where its type is unknown.
    pub fn type_set(&self, o: u8) -> u32
        requires { o < 8 }
        ensures { result ≡ set_at self.now.types.now.sets self.now.types.now.count self.now.objects.now o }
    {
        let i = usize::from(self.objects[usize::from(o)]);
        if i < self.types.count {
            self.types.sets[i]
        } else {
            0
        }
    }

    // Object o counts as type k.
    #[tactic(auto, unfolding(crate::specs::Numbers::counts_as))]
    fn counts_as(&self, k: u8, o: u8) -> bool
        requires { (k < 32) × (o < 8) }
        ensures { result ≡ counts_as self.now.types.now.sets self.now.types.now.count self.now.objects.now k o }
    {
        self.type_set(o).has(u32::from(k))
    }

    // The objects that count as type k.
    fn mask_of(&self, k: u8) -> u8
        requires { k < 32 }
        ensures { Marks (counts_as self.now.types.now.sets self.now.types.now.count self.now.objects.now k) 8 result }
    {
        laws::mask_of(8, |o| self.counts_as(k, o))
    }

    // The objects that count as each type.
    fn masks(&self) -> [u8; 24]
        ensures { (k : ℕ) → k < 24 → Marks (counts_as self.now.types.now.sets self.now.types.now.count self.now.objects.now k) 8 (get_or result k 0) }
    {
        std::array::from_fn(|k| self.mask_of(k as u8))
    }
}

// The instances of each type.
pub fn instance_masks(d: ReadDiagram, m: MemoryRecord) -> [u8; 24]
    requires { m.count ≤ 8 }
    ensures { Instances (diagram_of d.stored) m result }
{
    let typed = Typed {
        types: &d.stored.types,
        objects: &m.types,
    };
    typed.masks()
}

// ---- slots

// For each of n names the first that is the same.
#[tactic(auto, unfolding(crate::specs::Numbers::slot_at, fields::specs::Slot::slot_of))]
fn slots_of(names: &[u8; 544], n: u8) -> [u8; 32]
    requires { n ≤ 32 }
    ensures { (i : ℕ) → i < n → get_or result i 0 ≡ slot_at names.now n i }
{
    fields::places::<32>(names, n, names, n)
}

// The slot of each end's role name.
pub fn role_slots(d: ReadDiagram) -> [u8; 32]
    ensures { RoleSlots (diagram_of d.stored) result }
{
    slots_of(
        &d.stored.associations.roles,
        (d.stored.associations.count * 2) as u8,
    )
}

// The slot of each attribute's name.
pub fn attribute_slots(d: ReadDiagram) -> [u8; 32]
    ensures { AttributeSlots (diagram_of d.stored) result }
{
    slots_of(&d.stored.attributes.names, d.stored.attributes.count as u8)
}

// ---- what the rules read. `Values` and `Roles` have the same fields, but the slots of the one are those of attributes and of the other
// those of ends: in one struct the ghost facts would be a choice, and each rule would take it apart.

// A record in memory with the diagram that it is judged by, the table of instances and that of the attributes' slots.
#[derive(Clone, Copy)]
pub struct Values<'a> {
    pub diagram: &'a ReadDiagram,
    pub memory: &'a MemoryRecord,
    pub tables: Tables,
    ghost codes: { Codes (diagram_of diagram.now.stored) memory.now },
    ghost instances: { Instances (diagram_of diagram.now.stored) memory.now tables.masks },
    ghost slots: { AttributeSlots (diagram_of diagram.now.stored) tables.slots },
}

impl<'a> Values<'a> {
    pub fn new(diagram: &'a ReadDiagram, memory: &'a MemoryRecord, masks: [u8; 24]) -> Self
        requires { Coded (diagram_of diagram.now.stored) memory.now × Instances (diagram_of diagram.now.stored) memory.now masks }
        ensures diagram { result.diagram.now ≡ diagram.now }
        ensures memory { result.memory.now ≡ memory.now }
    {
        Values {
            diagram,
            memory,
            tables: Tables {
                masks,
                slots: attribute_slots(*diagram),
            },
        }
    }
}

// A record in memory with the diagram that it is judged by, the table of instances and that of the ends' slots.
#[derive(Clone, Copy)]
pub struct Roles<'a> {
    pub diagram: &'a ReadDiagram,
    pub memory: &'a MemoryRecord,
    pub tables: Tables,
    ghost few: { memory.now.count ≤ 8 },
    ghost instances: { Instances (diagram_of diagram.now.stored) memory.now tables.masks },
    ghost slots: { RoleSlots (diagram_of diagram.now.stored) tables.slots },
}

impl<'a> Roles<'a> {
    pub fn new(diagram: &'a ReadDiagram, memory: &'a MemoryRecord, masks: [u8; 24]) -> Self
        requires { (memory.now.count ≤ 8) × Instances (diagram_of diagram.now.stored) memory.now masks }
        ensures diagram { result.diagram.now ≡ diagram.now }
        ensures memory { result.memory.now ≡ memory.now }
    {
        Roles {
            diagram,
            memory,
            tables: Tables {
                masks,
                slots: role_slots(*diagram),
            },
        }
    }
}
