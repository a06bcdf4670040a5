// The edition 2 file of the diagram that the declarations of a text declare, tag by tag into the unused rest of a buffer. What each
// declaration is and where it starts is read from the outline of the body.
#![tactic(auto)]

ghost use Rattle.std.specs.Prelude.{[], ◌≡◌, ◌+◌, ◌-◌, ◌<◌, ◌≤◌, get_or, length};
ghost use Rattle.laws.specs.Lists.{joined};
ghost use Rattle.files.specs.DiagramBytes.{value_type_bytes, write_diagram};
ghost use Rattle.files.specs.Field.{field};
ghost use Rattle.field_writers.specs.Put.{Put};
ghost use Rattle.texts.specs.Declaration.{is_type};
ghost use Rattle.texts.specs.Declared.{declared, types_before};
ghost use Rattle.texts.specs.TextChecks.{names_of_kind};
ghost use Rattle.text_rows.specs.RowAt.{declarations_by};
ghost use Rattle.text_checks.specs.ValueNames.{value_names};
ghost use Rattle.text_fields.specs.Fields.{plain_of};
ghost use Rattle.name_lists.specs.Names.{names_in};
ghost use Rattle.text_writing.specs.Pieces.{Writable, WritableBody, association_piece, attributes_and_associations_part, attributes_piece, declared_part, enumeration_piece, plain_piece, type_piece, types_to_associations_part, value_types_part};

use name_lists::Names;
use text_outlines::{CompleteOutline, Outline};
use text_parts::Kind;

// The outline of a body whose diagram has a file, and the names of its types and value types.
#[derive(Drop)]
struct Named<'a> {
    outline: &'a Outline<'a>,
    types: &'a Names,
    values: &'a Names,
    ghost writable: { WritableBody outline.now.body.now outline.now.count },
    ghost types_named: { names_in types.now ≡ names_of_kind is_type (declarations_by outline.now.body.now) },
    ghost values_named: { names_in values.now ≡ value_names (declarations_by outline.now.body.now) },
}

// ---- plain types

// The field of the plain value type with name i; i is below 24, as `as u8` keeps it.
fn put_plain_at(out: &mut [u8], values: &Names, i: usize) -> usize
    requires { (i < values.now.count) × (160 ≤ length out.old) }
    ensures { Put (field 0x20 (value_type_bytes (plain_of (get_or (names_in values.now) i [])))) out.old result out.new }
{
    text_fields::put_plain_type(out, fields::slot_name(&values.names, i as u8))
}

// The value types from number e on, by i from 0, as `plain_piece` counts from e on.
fn put_plain_types(out: &mut [u8], values: &Names, e: usize) -> usize
    requires { (e ≤ values.now.count) × (length (joined (plain_piece (names_in values.now) e) (values.now.count - e)) + 160 ≤ length out.old) }
    ensures { Put (joined (plain_piece (names_in values.now) e) (values.now.count - e)) out.old result out.new }
{
    let end = values.count - e;
    let mut at = 0;
    for i in 0..end {
        at += put_plain_at(&mut out[at..], values, e + i);
    }
    at
}

impl Named<'_> {
    // ---- declaration k. Its index and that of the type that it may declare are the loops' own; as a struct of both each loop would
    // make one a turn, and take it apart here.

    // The index of the type that comes behind declaration k, where that of the type that it may declare is own.
    fn index_behind(&self, k: usize, own: u8) -> u8
        requires { (k < self.now.outline.now.count) × (own ≡ types_before (declarations_by self.now.outline.now.body.now) k) }
        ensures { result ≡ types_before (declarations_by self.now.outline.now.body.now) (k + 1) }
    {
        own + u8::from(self.outline.is_kind(k, Kind::Types))
    }

    // The field of an enumeration, or 0 bytes.
    fn put_enumeration_at(&self, out: &mut [u8], k: usize) -> usize
        requires { (k < self.now.outline.now.count) × (160 ≤ length out.old) }
        ensures { Put (enumeration_piece (declarations_by self.now.outline.now.body.now) k) out.old result out.new }
    {
        if self.outline.is_kind(k, Kind::Enumerations) {
            return text_fields::put_enumeration(out, self.outline.declaration(k));
        }
        0
    }

    // The field of the type with the index own, or 0 bytes.
    fn put_type_at(&self, out: &mut [u8], k: usize, own: u8) -> usize
        requires { (k < self.now.outline.now.count) × ((own ≡ types_before (declarations_by self.now.outline.now.body.now) k) × (160 ≤ length out.old)) }
        ensures { Put (type_piece (declarations_by self.now.outline.now.body.now) k) out.old result out.new }
    {
        if self.outline.is_kind(k, Kind::Types) {
            return text_fields::put_type(out, self.outline.declaration(k), self.types, own);
        }
        0
    }

    // The fields of the attributes of the type with the index own. What is no type has none.
    fn put_attributes_at(&self, out: &mut [u8], k: usize, own: u8) -> usize
        requires { (k < self.now.outline.now.count) × ((own ≡ types_before (declarations_by self.now.outline.now.body.now) k) × (length (attributes_piece (declarations_by self.now.outline.now.body.now) k) + 160 ≤ length out.old)) }
        ensures { Put (attributes_piece (declarations_by self.now.outline.now.body.now) k) out.old result out.new }
    {
        if 0 < self.outline.attribute_count(k) {
            return text_fields::put_attributes(out, self.outline.declaration(k), self.values, own);
        }
        0
    }

    // The field of an association, or 0 bytes.
    fn put_association_at(&self, out: &mut [u8], k: usize) -> usize
        requires { (k < self.now.outline.now.count) × (160 ≤ length out.old) }
        ensures { Put (association_piece (declarations_by self.now.outline.now.body.now) k) out.old result out.new }
    {
        if self.outline.is_kind(k, Kind::Associations) {
            return text_fields::put_association(out, self.outline.declaration(k), self.types);
        }
        0
    }

    // ---- all of them, tag by tag: what a loop has put is stated by the piece of its tag, so one function for all would have to be handed
    // that piece and the writer as a closure, and two of the loops count types besides

    fn put_enumerations(&self, out: &mut [u8]) -> usize
        requires { length (joined (enumeration_piece (declarations_by self.now.outline.now.body.now)) (length (declarations_by self.now.outline.now.body.now))) + 160 ≤ length out.old }
        ensures { Put (joined (enumeration_piece (declarations_by self.now.outline.now.body.now)) (length (declarations_by self.now.outline.now.body.now))) out.old result out.new }
    {
        let mut at = 0;
        for k in 0..self.outline.count {
            at += self.put_enumeration_at(&mut out[at..], k);
        }
        at
    }

    // The enumerations and the plain types.
    fn put_value_types(&self, out: &mut [u8]) -> usize
        requires { length (value_types_part (declarations_by self.now.outline.now.body.now)) + 160 ≤ length out.old }
        ensures { Put (value_types_part (declarations_by self.now.outline.now.body.now)) out.old result out.new }
    {
        // For the count alone; all else here reads the outline itself.
        let complete = CompleteOutline {
            outline: self.outline,
        };
        let count = text_checks::kind_count(&complete, Kind::Enumerations);
        let a = self.put_enumerations(out);
        a + put_plain_types(&mut out[a..], self.values, count)
    }

    fn put_types(&self, out: &mut [u8]) -> usize
        requires { length (joined (type_piece (declarations_by self.now.outline.now.body.now)) (length (declarations_by self.now.outline.now.body.now))) + 160 ≤ length out.old }
        ensures { Put (joined (type_piece (declarations_by self.now.outline.now.body.now)) (length (declarations_by self.now.outline.now.body.now))) out.old result out.new }
    {
        let mut at = 0;
        let mut own = 0;
        for k in 0..self.outline.count {
            at += self.put_type_at(&mut out[at..], k, own);
            own = self.index_behind(k, own);
        }
        at
    }

    fn put_attributes(&self, out: &mut [u8]) -> usize
        requires { length (joined (attributes_piece (declarations_by self.now.outline.now.body.now)) (length (declarations_by self.now.outline.now.body.now))) + 160 ≤ length out.old }
        ensures { Put (joined (attributes_piece (declarations_by self.now.outline.now.body.now)) (length (declarations_by self.now.outline.now.body.now))) out.old result out.new }
    {
        let mut at = 0;
        let mut own = 0;
        for k in 0..self.outline.count {
            at += self.put_attributes_at(&mut out[at..], k, own);
            own = self.index_behind(k, own);
        }
        at
    }

    fn put_associations(&self, out: &mut [u8]) -> usize
        requires { length (joined (association_piece (declarations_by self.now.outline.now.body.now)) (length (declarations_by self.now.outline.now.body.now))) + 160 ≤ length out.old }
        ensures { Put (joined (association_piece (declarations_by self.now.outline.now.body.now)) (length (declarations_by self.now.outline.now.body.now))) out.old result out.new }
    {
        let mut at = 0;
        for k in 0..self.outline.count {
            at += self.put_association_at(&mut out[at..], k);
        }
        at
    }

    fn put_attributes_and_associations(&self, out: &mut [u8]) -> usize
        requires { length (attributes_and_associations_part (declarations_by self.now.outline.now.body.now)) + 160 ≤ length out.old }
        ensures { Put (attributes_and_associations_part (declarations_by self.now.outline.now.body.now)) out.old result out.new }
    {
        let a = self.put_attributes(out);
        a + self.put_associations(&mut out[a..])
    }

    // The types, the attributes and the associations.
    fn put_types_to_associations(&self, out: &mut [u8]) -> usize
        requires { length (types_to_associations_part (declarations_by self.now.outline.now.body.now)) + 160 ≤ length out.old }
        ensures { Put (types_to_associations_part (declarations_by self.now.outline.now.body.now)) out.old result out.new }
    {
        let a = self.put_types(out);
        a + self.put_attributes_and_associations(&mut out[a..])
    }

    // All fields but the first.
    fn put_declared(&self, out: &mut [u8]) -> usize
        requires { length (declared_part (declarations_by self.now.outline.now.body.now)) + 160 ≤ length out.old }
        ensures { Put (declared_part (declarations_by self.now.outline.now.body.now)) out.old result out.new }
    {
        let a = self.put_value_types(out);
        a + self.put_types_to_associations(&mut out[a..])
    }
}

// The whole file, of edition 2, whose range of limits is that of a text.
pub fn put_diagram(out: &mut [u8], o: &CompleteOutline, types: &Names, values: &Names) -> usize
    requires { Writable (declarations_by o.now.outline.now.body.now) × ((names_in types.now ≡ names_of_kind is_type (declarations_by o.now.outline.now.body.now)) × ((names_in values.now ≡ value_names (declarations_by o.now.outline.now.body.now)) × (4160 ≤ length out.old))) }
    ensures { (result ≤ 4000) × Put (write_diagram 2 (declared (declarations_by o.now.outline.now.body.now))) out.old result out.new }
{
    field_writers::put_head(out, 0x10, 1, 2);
    let named = Named {
        outline: o.outline,
        types,
        values,
    };
    4 + named.put_declared(&mut out[4..])
}
