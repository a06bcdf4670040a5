// The refusals of a diagram file's fields. A number of names is cast where a test before it, or the contract, has it at most 24.
#![tactic(auto)]

ghost use Rattle.std.specs.Prelude.{◌≡◌, ◌&&◌, ℕ, suc, ◌<◌, ◌≤◌, eqb, ltb, length, get_or};
ghost use Rattle.fields.specs.Refusal.{refusal_number};
ghost use Rattle.files.specs.Name.{differ};
ghost use Rattle.files.specs.DiagramLayout.{type_of, value_type_of};
ghost use Rattle.files.specs.DiagramFile.{rising, type_named, edition_refusal, value_type_refusal, type_refusal, diagram_refusal};
ghost use Rattle.diagrams.specs.View.{diagram_of};
ghost use Rattle.diagrams.specs.Held.{only_types};
ghost use Rattle.refusing.specs.Numbers.{only_value_types, below, interfaces, kind_breaks, attribute_known, attribute_no, ends_known, whole_right, association_no};

use diagrams::{StoredDiagram, Types, ValueTypes};
use fields::Refusal;

// ---- editions and value types

// The first refusal of an edition, if it has one. Here and below the edition that a file is read by goes as the first argument.
fn check_edition(edition: u8, c: &[u8]) -> Result<(), Refusal>
    ensures { refusal_number result ≡ edition_refusal edition c.now }
{
    if !layouts::edition_laid(edition, c) {
        return Err(Refusal::Layout);
    }
    Ok(())
}

// No two of a value type's constants are the same.
fn constants_differ(c: &[u8]) -> bool
    ensures { result ≡ differ (value_type_of c.now).constants }
{
    let rest = fields::past_name(c);
    layouts::names_differ(laws::past(rest, 1), laws::byte(rest, 0))
}

// The first refusal of a value type behind these.
fn check_value_type(v: &ValueTypes, c: &[u8]) -> Result<(), Refusal>
    ensures { refusal_number result ≡ value_type_refusal (only_value_types v.now) c.now }
{
    if 12 <= v.count {
        return Err(Refusal::Count);
    }
    if !layouts::value_type_laid(c) {
        return Err(Refusal::Layout);
    }
    if fields::is_among(&v.names, v.count as u8, fields::name_in(c)) {
        return Err(Refusal::Order);
    }
    if !constants_differ(c) {
        return Err(Refusal::Order);
    }
    Ok(())
}

// ---- types

// The name of the type that a content says.
fn type_name(c: &[u8]) -> &[u8]
    ensures { result.now ≡ (type_of c.now).name }
{
    fields::name_in(laws::past(c, 1))
}

// Its parents.
fn type_parents(c: &[u8]) -> &[u8]
    ensures { result.now ≡ (type_of c.now).parents }
{
    laws::past(fields::past_name(laws::past(c, 1)), 1)
}

// Type p is among the first n, and an interface. Counts, here and below, and kinds stand by themselves, as the definitions have them.
fn is_interface(kinds: &[u8], n: usize, p: u8) -> bool
    ensures { result ≡ ltb p n && eqb (get_or kinds.now p 0) 2 }
{
    let at = usize::from(p);
    (at < n) & (laws::byte(kinds, at) == 2)
}

// The parents are strictly rising.
fn parents_rise(c: &[u8]) -> bool
    ensures { result ≡ rising (type_of c.now).parents }
{
    type_parents(c).is_sorted_by(|a, b| a < b)
}

// Each parent is below n.
fn parents_below(n: usize, c: &[u8]) -> bool
    ensures { result ≡ below n (type_of c.now).parents }
{
    type_parents(c).iter().all(|p| usize::from(*p) < n)
}

// Each parent is below n, and an interface.
fn parents_interfaces(kinds: &[u8], n: usize, c: &[u8]) -> bool
    ensures { result ≡ interfaces kinds.now n (type_of c.now).parents }
{
    type_parents(c).iter().all(|p| is_interface(kinds, n, *p))
}

// An interface with a parent that is none.
fn kind_breaks(t: &Types, c: &[u8]) -> bool
    ensures { result ≡ kind_breaks t.now c.now }
{
    (laws::byte(c, 0) == 2) & !parents_interfaces(&t.kinds, t.count, c)
}

// A type of this name stands already.
fn type_named(t: &Types, c: &[u8]) -> bool
    requires { t.now.count ≤ 24 }
    ensures { result ≡ type_named (only_types t.now) (type_of c.now).name }
{
    fields::is_among(&t.names, t.count as u8, type_name(c))
}

// The first refusal of a type behind these.
fn check_type(t: &Types, c: &[u8]) -> Result<(), Refusal>
    ensures { refusal_number result ≡ type_refusal (only_types t.now) c.now }
{
    if 24 <= t.count {
        return Err(Refusal::Count);
    }
    if !layouts::type_laid(c) {
        return Err(Refusal::Layout);
    }
    if type_named(t, c) {
        return Err(Refusal::Order);
    }
    if !parents_rise(c) {
        return Err(Refusal::Order);
    }
    if !parents_below(t.count, c) {
        return Err(Refusal::Unknown);
    }
    if kind_breaks(t, c) {
        return Err(Refusal::Parent);
    }
    Ok(())
}

// ---- attributes and associations

// The owner and the value type are below the counts.
fn attribute_known(values: usize, types: usize, c: &[u8]) -> bool
    ensures { result ≡ attribute_known values types c.now }
{
    (usize::from(laws::byte(c, 0)) < types)
        & (usize::from(laws::byte(fields::past_name(laws::past(c, 1)), 0)) < values)
}

// The first refusal of an attribute behind n others.
fn check_attribute(values: usize, types: usize, n: usize, c: &[u8]) -> Result<(), Refusal>
    ensures { refusal_number result ≡ attribute_no values types n c.now }
{
    if 32 <= n {
        return Err(Refusal::Count);
    }
    if !layouts::attribute_laid(c) {
        return Err(Refusal::Layout);
    }
    if !attribute_known(values, types, c) {
        return Err(Refusal::Unknown);
    }
    Ok(())
}

// The types of both ends are below the count.
fn ends_known(edition: u8, types: usize, c: &[u8]) -> bool
    ensures { result ≡ ends_known edition types c.now }
{
    let left = laws::past(c, 2);
    (usize::from(laws::byte(left, 0)) < types)
        & (usize::from(laws::byte(layouts::past_end(edition, left), 0)) < types)
}

// A composition with arrow 2: form and arrow stand at the same place in both editions.
fn whole_right(c: &[u8]) -> bool
    ensures { (e : ℕ) → result ≡ whole_right e c.now }
{
    (laws::byte(c, 0) == 1) & (laws::byte(c, 1) == 2)
}

// The first refusal of an association behind n others.
fn check_association(edition: u8, types: usize, n: usize, c: &[u8]) -> Result<(), Refusal>
    ensures { refusal_number result ≡ association_no edition types n c.now }
{
    if 16 <= n {
        return Err(Refusal::Count);
    }
    if !layouts::association_laid(edition, c) {
        return Err(Refusal::Layout);
    }
    if !ends_known(edition, types, c) {
        return Err(Refusal::Unknown);
    }
    if whole_right(c) {
        return Err(Refusal::Whole);
    }
    Ok(())
}

// ---- a field

// The first refusal of a field behind one of the tag last, which is 0 where there is none, as `fields::is_misplaced` takes it.
pub fn check_field(
    edition: u8,
    d: &StoredDiagram,
    last: u8,
    tag: u8,
    c: &[u8],
) -> Result<(), Refusal>
    ensures { refusal_number result ≡ diagram_refusal edition last (diagram_of d.now) tag c.now }
{
    if fields::is_misplaced(0x10, &[0x10, 0x20, 0x30, 0x40, 0x50], last, tag) {
        return Err(Refusal::Misplaced);
    }
    match tag {
        0x10 => check_edition(edition, c),
        0x20 => check_value_type(&d.values, c),
        0x30 => check_type(&d.types, c),
        0x40 => check_attribute(d.values.count, d.types.count, d.attributes.count, c),
        _ => check_association(edition, d.types.count, d.associations.count, c),
    }
}
