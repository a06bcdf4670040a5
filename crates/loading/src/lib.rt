// The reader of diagram files.
#![tactic(auto)]

ghost use Rattle.loading.specs.WithField.{FieldPasses, WithField};
ghost use Rattle.loading.specs.Loads.{Loads};

pub mod storing; // storing.rt: a diagram in memory with one field more

use diagrams::{ReadDiagram, StoredDiagram};
use fields::Refusal;

// ---- a field

// One field more, of a file of that edition.
fn add_field(edition: u8, d: &mut StoredDiagram, tag: u8, c: &[u8])
    requires { FieldPasses edition d.old tag c.now }
    ensures { WithField edition d.old tag c.now d.new }
{
    match tag {
        0x10 => {}
        0x20 => storing::add_value_type(&mut d.values, c),
        0x30 => storing::add_type(&mut d.types, c),
        0x40 => storing::add_attribute(&mut d.attributes, c),
        _ => storing::add_association(edition, &mut d.associations, c),
    }
}

// ---- a file

// Reads a diagram file: its fields from left to right, up to the first refusal. The edition is byte 3, which says it in a file that starts
// as it must. The last tag is 0 before the first field, as `fields::is_misplaced` takes it.
pub fn read_diagram(file: &[u8]) -> Result<ReadDiagram, Refusal>
    ensures { Loads file.now result }
{
    let edition = laws::byte(file, 3);
    let mut d = diagrams::empty_diagram();
    let mut last = 0;
    let mut rest = file;
    while let Some(field) = fields::read_field(rest)? {
        refusing::check_field(edition, &d, last, field.tag, field.content)?;
        add_field(edition, &mut d, field.tag, field.content);
        last = field.tag;
        rest = field.rest;
    }
    if last == 0 {
        return Err(Refusal::Misplaced);
    }
    Ok(ReadDiagram { stored: d })
}
