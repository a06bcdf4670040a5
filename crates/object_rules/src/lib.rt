// Rules 1 to 5 on a record in memory, by the tables of instances and slots. Objects are at most 8 and slots at most 32, as `as u8`
// keeps them.
#![tactic(auto)]

ghost use Rattle.std.specs.Prelude.{◌≡◌};
ghost use Rattle.rules.specs.TypeRules.{rule1, rule2};
ghost use Rattle.rules.specs.ValueRules.{rule4};
ghost use Rattle.memory_rules.specs.SiteIn.{site_in};
ghost use Rattle.memory_rules.specs.JudgeIn.{rule3_in, rule5_in};
ghost use Rattle.diagrams.specs.View.{diagram_of};
ghost use Rattle.object_rules.specs.ValuesIn.{own_slot};

mod links; // links.rt: rule 5
mod types; // types.rt: rules 1 and 2
mod values; // values.rt: rules 3 and 4

use diagrams::ReadDiagram;
use links::Linked;
use records::MemoryRecord;
use tables::{Roles, Tables, Values};
use types::Objects;
use values::Valued;

// Rule 1: each object's type is a class or singleton class of the diagram.
pub fn types_concrete(d: &ReadDiagram, m: &MemoryRecord) -> bool
    ensures { result ≡ rule1 (diagram_of d.now.stored) (site_in (diagram_of d.now.stored) m.now) }
{
    Objects::of(d, m).are_concrete()
}

// Rule 2: each singleton class is the type itself of exactly one object.
pub fn singletons_single(d: &ReadDiagram, m: &MemoryRecord) -> bool
    ensures { result ≡ rule2 (diagram_of d.now.stored) (site_in (diagram_of d.now.stored) m.now) }
{
    Objects::of(d, m).are_single()
}

// Slot s is one of n, and its name's own.
#[tactic(auto, unfolding(laws::specs::Connective::both, crate::specs::ValuesIn::own_slot))]
fn is_own(t: &Tables, n: usize, s: u8) -> bool
    ensures { result ≡ own_slot t.now.slots n s }
{
    let at = usize::from(s);
    at < n && laws::byte(&t.slots, at) == s
}

// Rule 3: an object has a value for an attribute name exactly when its type or an ancestor declares it.
pub fn values_declared(v: &Values) -> bool
    ensures { result ≡ rule3_in (diagram_of v.now.diagram.now.stored) v.now.memory.now }
{
    !v.memory.strays.values && Valued::of(v).all_due()
}

// Rule 4: each value belongs to the value type of every declaration of its attribute name for its object.
pub fn values_belong(v: &Values) -> bool
    ensures { result ≡ rule4 (diagram_of v.now.diagram.now.stored) (site_in (diagram_of v.now.diagram.now.stored) v.now.memory.now) }
{
    Valued::of(v).values_fit()
}

// Rule 5: each link's role is carried by some association in that direction with both objects instances of its ends.
pub fn links_permitted(r: &Roles) -> bool
    ensures { result ≡ rule5_in (diagram_of r.now.diagram.now.stored) r.now.memory.now }
{
    !r.memory.strays.links && Linked::of(r).links_fit()
}
