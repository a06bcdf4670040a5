// Resolving a record file: the names of an accepted file turned into the indices of one diagram. Counts of types, names and ends are at
// most 32, as `as u8` keeps them.
#![tactic(auto)]

ghost use Rattle.std.specs.Prelude.{◌≡◌, ◌<◌, ◌≤◌, length};
ghost use Rattle.laws.specs.Bounded.{first};
ghost use Rattle.fields.specs.Slot.{slot_name, slot_of};
ghost use Rattle.files.specs.Name.{same_name};
ghost use Rattle.files.specs.Content.{name_in};
ghost use Rattle.files.specs.RecordLayout.{value_of, link_of};
ghost use Rattle.diagrams.specs.View.{diagram_of};
ghost use Rattle.resolving.specs.Lookup.{is_constant_in, is_code_in};
ghost use Rattle.resolving.specs.Stored.{with_type, value_stored, link_stored, Takes};
ghost use Rattle.resolving.specs.Resolves.{Resolves};

use diagrams::{ReadDiagram, ValueTypes};
use laws::Mask;
use records::MemoryRecord;

// ---- look-ups

// Code k is that of the constant c, where its value type has `size` constants.
fn is_constant(constants: &[u8], size: u8, c: &[u8], k: u8) -> bool
    ensures { result ≡ is_constant_in constants.now size c.now k }
{
    fields::is_known(size, k % 8) & fields::same_name(fields::constant_name(constants, size, k), c)
}

// Code k is that of the constant c of a value type t. Names, sizes and constants of n value types stand by themselves, here and below:
// `code_of` answers for tables of any length, which `ValueTypes` has not.
fn is_code(
    names: &[u8],
    sizes: &[u8],
    constants: &[u8],
    n: usize,
    t: &[u8],
    c: &[u8],
    k: u8,
) -> bool
    ensures { result ≡ is_code_in names.now sizes.now constants.now n t.now c.now k }
{
    let i = k / 8;
    (usize::from(i) < n)
        & (fields::is_named(names, i, t)
            & is_constant(constants, laws::byte(sizes, usize::from(i)), c, k))
}

// The first code of the constant c of a value type t, or 96, the number past the last code: a record in memory stores it for a value
// that the diagram lacks.
pub fn code_of(names: &[u8], sizes: &[u8], constants: &[u8], n: usize, t: &[u8], c: &[u8]) -> u8
    ensures { (result ≡ first (is_code_in names.now sizes.now constants.now n t.now c.now) 96) × (result ≤ 96) }
{
    (0..96)
        .find(|k| is_code(names, sizes, constants, n, t, c, *k))
        .unwrap_or(96)
}

// ---- one field stored; what has no place is left out

// Each says how long the array is that it changes: `put_field`, which hands the record on, is not told what stands behind `&mut`.

// 0x61: an object, by its type's name.
fn put_object(m: &mut MemoryRecord, names: &[u8], k: u8, c: &[u8])
    ensures long { length m.old.types ≡ 8 }
    ensures stored { m.old.count < 8 → m.new ≡ with_type m.old (slot_of names.now k (name_in c.now)) }
{
    if 8 <= m.count {
        return;
    }
    m.types[m.count] = fields::slot_of(names, k, fields::name_in(c));
    m.count += 1;
}

// Slot k stands for no slot in the next two, as `fields::slot_of` gives it and what is stored is defined by it: an Option would be made of
// it in one line and taken apart in the next.

// 0x62: a value, by its attribute's name: its code at its object and slot, or the mark.
fn put_value(m: &mut MemoryRecord, names: &[u8], k: u8, code: u8, c: &[u8])
    requires { (k ≤ 32) × (code ≤ 96) }
    ensures long { length m.old.values ≡ 256 }
    ensures stored { (value_of c.now).object < 8 → m.new ≡ value_stored m.old (slot_of names.now k (value_of c.now).attribute) k (value_of c.now).object code }
{
    let object = laws::byte(c, 0);
    let s = fields::slot_of(names, k, fields::name_in(laws::past(c, 1)));
    if k <= s {
        m.strays.values = true;
        return;
    }
    if 8 <= object {
        return;
    }
    m.values[laws::place(object, s)] = 1 + code;
}

// 0x63: a link, by its role's name: its bit at its object and slot, or the mark.
fn put_link(m: &mut MemoryRecord, names: &[u8], k: u8, c: &[u8])
    requires { k ≤ 32 }
    ensures long { length m.old.links ≡ 256 }
    ensures stored { (link_of c.now).from < 8 → (link_of c.now).to < 8 → m.new ≡ link_stored m.old (slot_of names.now k (link_of c.now).role) k (link_of c.now).from (link_of c.now).to }
{
    let role = laws::past(c, 1);
    let from = laws::byte(c, 0);
    let to = laws::byte(fields::past_name(role), 0);
    let s = fields::slot_of(names, k, fields::name_in(role));
    if k <= s {
        m.strays.links = true;
        return;
    }
    if (8 <= from) | (8 <= to) {
        return;
    }
    let i = laws::place(from, s);
    m.links[i] = m.links[i].with(to);
}

// The code of the value in a content, or 96 where the diagram lacks it.
fn value_code(v: &ValueTypes, c: &[u8]) -> u8
    ensures { (result ≡ first (is_code_in v.now.names v.now.sizes v.now.constants v.now.count (value_of c.now).value_type (value_of c.now).constant) 96) × (result ≤ 96) }
{
    let t = fields::past_name(laws::past(c, 1));
    let w = fields::name_in(t);
    let constant = fields::name_in(fields::past_name(t));
    code_of(&v.names, &v.sizes, &v.constants, v.count, w, constant)
}

// One field of a record file stored.
fn put_field(m: &mut MemoryRecord, read: &ReadDiagram, tag: u8, c: &[u8])
    ensures { Takes (diagram_of read.now.stored) tag c.now m.old m.new }
{
    let d = &read.stored;
    match tag {
        0x60 => (),
        0x61 => put_object(m, &d.types.names, d.types.count as u8, c),
        0x62 => {
            let code = value_code(&d.values, c);
            put_value(m, &d.attributes.names, d.attributes.count as u8, code, c)
        }
        _ => put_link(
            m,
            &d.associations.roles,
            (d.associations.count * 2) as u8,
            c,
        ),
    }
}

// What the diagram makes of an accepted record file.
pub fn resolve(d: ReadDiagram, file: &[u8]) -> MemoryRecord
    ensures { Resolves (diagram_of d.stored) file.now result }
{
    let mut m = records::empty_record();
    let mut rest = file;
    while let Ok(Some(field)) = fields::read_field(rest) {
        put_field(&mut m, &d, field.tag, field.content);
        rest = field.rest;
    }
    m
}
