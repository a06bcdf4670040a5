// The checks of a text that the table accepts, and the names that it declares: by the outline of its body, and from row to row where
// the rows are read.
#![tactic(auto)]

ghost use Rattle.std.specs.Prelude.{◌≡◌, ℕ, ◌+◌, ◌≤◌, ◌<◌, ltb, length, take, get_or, [], ◌++◌};
ghost use Rattle.texts.specs.Declaration.{declaration_at, is_type};
ghost use Rattle.texts.specs.Declared.{types_before, used_types};
ghost use Rattle.texts.specs.WellFormedDeclaration.{ShortNames};
ghost use Rattle.texts.specs.TextChecks.{has_unknown, has_unknown_end, has_unknown_parent, is_declared, names_of_kind};
ghost use Rattle.text_rows.specs.RowAt.{declaration_by, declarations_by};
ghost use Rattle.text_parts.specs.Sort.{of_kind};
ghost use Rattle.name_lists.specs.Names.{names_in};
ghost use Rattle.text_checks.specs.Kinds.{declared_as, kind_count, unknown_in};
ghost use Rattle.text_checks.specs.Overlong.{has_many, has_overlong};
ghost use Rattle.text_checks.specs.ValueNames.{value_names, with_names};

use name_lists::Names;
use text_outlines::{CompleteOutline, Outline};
use text_parts::{Kind, Side};
use text_rows::Scanned;

// ---- undeclared names: by the outline for its first 52 declarations, else from row to row. Each test is there for both: one function for
// the two would take the sort and the name, and so read the name of each row that is not of the kind.

// The declaration at the front of the row is of that kind.
fn is_kind_in_row(row: &Scanned, kind: Kind) -> bool
    ensures { result ≡ of_kind kind (declaration_by row.now.rest.now) }
{
    text_parts::is_kind(text_parts::what(row), kind)
}

// It is of that kind and has the name w.
#[tactic(auto, unfolding(laws::specs::Connective::both))]
fn is_named_in_row(row: &Scanned, kind: Kind, w: &[u8]) -> bool
    ensures { result ≡ declared_as kind w.now (declaration_by row.now.rest.now) }
{
    is_kind_in_row(row, kind) && fields::same_name(text_parts::name(row.rest), w)
}

// One of the first k declarations is of that kind and has the name w: from row to row. That k rows end is known, so they are counted
// and each end is unwrapped; a `while let` would count them too, and have an end that is never met.
fn is_declared_in_rows(body: &[u8], k: usize, kind: Kind, w: &[u8]) -> bool
    requires { k ≤ length (declarations_by body.now) }
    ensures { result ≡ is_declared (of_kind kind) (declarations_by body.now) k w.now }
{
    let mut rest = body;
    for j in 0..k {
        let row = text_rows::scan_row(rest);
        if is_named_in_row(&row, kind, w) {
            return true;
        }
        rest = row.after().unwrap();
    }
    false
}

// Declaration j is of that kind and has the name w.
#[tactic(auto, unfolding(laws::specs::Connective::both))]
fn is_named_in_outline(o: &Outline, j: usize, kind: Kind, w: &[u8]) -> bool
    requires { (j < o.now.count) × (j < 52) }
    ensures { result ≡ declared_as kind w.now (declaration_at (declarations_by o.now.body.now) j) }
{
    o.is_kind(j, kind) && fields::same_name(o.name(j), w)
}

// One of the first k declarations is of that kind and has the name w: by the outline, which has these.
fn is_declared_in_outline(o: &Outline, k: usize, kind: Kind, w: &[u8]) -> bool
    requires { (k ≤ o.now.count) × (k ≤ 52) }
    ensures { result ≡ is_declared (of_kind kind) (declarations_by o.now.body.now) k w.now }
{
    (0..k).any(|j| is_named_in_outline(o, j, kind, w))
}

// One of the first k declarations is of that kind and has the name w. That there are k is asked of each function that is handed an
// outline and k: the number is that of the loop in `has_unknown`, or the count itself.
fn is_declared(o: &Outline, k: usize, kind: Kind, w: &[u8]) -> bool
    requires { k ≤ o.now.count }
    ensures { result ≡ is_declared (of_kind kind) (declarations_by o.now.body.now) k w.now }
{
    if k <= 52 {
        return is_declared_in_outline(o, k, kind, w);
    }
    is_declared_in_rows(o.body, k, kind, w)
}

// Outline, k and row go through the next four side by side: a struct of them would be made at each turn of the loop in `has_unknown`.

// A superclass in the row is none of the classes among the first k declarations.
fn has_unknown_class(o: &Outline, k: usize, row: &Scanned) -> bool
    requires { k ≤ o.now.count }
    ensures { result ≡ unknown_in Kind.Classes (declarations_by o.now.body.now) k (declaration_by row.now.rest.now).superclasses }
{
    let count = text_parts::superclass_count(row);
    (0..count).any(|i| !is_declared(o, k, Kind::Classes, text_parts::superclass(row.rest, i)))
}

// A superinterface in the row is none of the interfaces among them.
// One function for both would take what gives name i as a closure, and be no shorter.
fn has_unknown_interface(o: &Outline, k: usize, row: &Scanned) -> bool
    requires { k ≤ o.now.count }
    ensures { result ≡ unknown_in Kind.Interfaces (declarations_by o.now.body.now) k (declaration_by row.now.rest.now).interfaces }
{
    let count = text_parts::interface_count(row);
    (0..count).any(|i| !is_declared(o, k, Kind::Interfaces, text_parts::interface(row.rest, i)))
}

// The row, of declaration k, has a parent that is not declared before as its keyword calls for.
fn has_unknown_parent(o: &Outline, k: usize, row: &Scanned) -> bool
    requires { (k ≤ o.now.count) × (declaration_by row.now.rest.now ≡ declaration_at (declarations_by o.now.body.now) k) }
    ensures { result ≡ has_unknown_parent (declarations_by o.now.body.now) k }
{
    has_unknown_class(o, k, row) | has_unknown_interface(o, k, row)
}

// It is an association with an end that is no type of the text.
fn has_unknown_end(o: &Outline, k: usize, row: &Scanned) -> bool
    requires { declaration_by row.now.rest.now ≡ declaration_at (declarations_by o.now.body.now) k }
    ensures { result ≡ has_unknown_end (declarations_by o.now.body.now) k }
{
    is_kind_in_row(row, Kind::Associations)
        && (!is_declared(
            o,
            o.count,
            Kind::Types,
            text_parts::end_type(row, Side::Left),
        ) | !is_declared(
            o,
            o.count,
            Kind::Types,
            text_parts::end_type(row, Side::Right),
        ))
}

// Some parent or end is not declared as it has to be. The outline tells how many rows there are; they are read as above.
pub fn has_unknown(o: &Outline) -> bool
    ensures { result ≡ has_unknown (declarations_by o.now.body.now) }
{
    let mut rest = o.body;
    for k in 0..o.count {
        let row = text_rows::scan_row(rest);
        if has_unknown_parent(o, k, &row) | has_unknown_end(o, k, &row) {
            return true;
        }
        rest = row.after().unwrap();
    }
    false
}

// ---- counts

// How many declarations are of that kind.
pub fn kind_count(o: &CompleteOutline, kind: Kind) -> usize
    ensures { result ≡ kind_count kind (declarations_by o.now.outline.now.body.now) }
{
    (0..o.outline.count)
        .filter(|k| o.outline.is_kind(*k, kind))
        .count()
}

// There are more than 32 attributes. No `sum`: that they can be added up is known here only as long as they are few.
fn has_many_attributes(o: &CompleteOutline) -> bool
    ensures { result ≡ ltb 32 (length (used_types (declarations_by o.now.outline.now.body.now))) }
{
    let mut used: usize = 0;
    for k in 0..o.outline.count {
        let attributes = o.outline.attribute_count(k);
        if 32 < attributes {
            return true;
        }
        used += attributes;
        if 32 < used {
            return true;
        }
    }
    false
}

// Some declaration has more constants or parents than it may have.
fn has_overlong(o: &CompleteOutline) -> bool
    ensures { result ≡ has_overlong (declarations_by o.now.outline.now.body.now) }
{
    (0..o.outline.count).any(|k| (8 < o.outline.constant_count(k))
        | (4 < o.outline.parent_count(k)))
}

// Some count is over 01's limits, that of the value types left out.
pub fn has_many(o: &CompleteOutline) -> bool
    ensures { result ≡ has_many (declarations_by o.now.outline.now.body.now) }
{
    (24 < kind_count(o, Kind::Types))
        | (has_many_attributes(o) | ((16 < kind_count(o, Kind::Associations)) | has_overlong(o)))
}

// ---- names: by loops, which put no more where the list has no room. That names are short is known from the check of the grammar,
// not from an outline, so it is asked here.

// The names of the declarations of that kind, in order: the first ones, as many as there is room for.
fn names_of_kind(o: &CompleteOutline, kind: Kind, most: usize) -> Names
    requires { ShortNames (declarations_by o.now.outline.now.body.now) × (most ≤ 24) }
    ensures { (names_in result ≡ take most (names_of_kind (of_kind kind) (declarations_by o.now.outline.now.body.now))) × (result.count ≤ most) }
{
    let mut names = Names::none();
    for k in 0..o.outline.count {
        if names.count == most {
            return names;
        }
        if o.outline.is_kind(k, kind) {
            names.push(o.outline.name(k));
        }
    }
    names
}

// The names of the types, in order.
pub fn type_names(o: &CompleteOutline) -> Names
    requires { ShortNames (declarations_by o.now.outline.now.body.now) × (types_before (declarations_by o.now.outline.now.body.now) (length (declarations_by o.now.outline.now.body.now)) ≤ 24) }
    ensures { names_in result ≡ names_of_kind is_type (declarations_by o.now.outline.now.body.now) }
{
    names_of_kind(o, Kind::Types, 24)
}

// Those of the count attribute types of the declaration s more that are not there yet; no more than 13 names.
fn push_types_of(names: &mut Names, s: &[u8], count: usize)
    requires { (names.old.count ≤ 13) × ((count ≡ length (declaration_by s.now).attribute_types) × ((i : ℕ) → length (get_or (declaration_by s.now).attribute_types i []) ≤ 16)) }
    ensures { (names_in names.new ≡ take 13 (with_names (names_in names.old) (declaration_by s.now).attribute_types)) × (names.new.count ≤ 13) }
{
    for i in 0..count {
        if names.count == 13 {
            return;
        }
        let w = text_parts::attribute_type(s, i);
        if !names.has(w) {
            names.push(w);
        }
    }
}

// The names of the value types, the first 13 of them.
pub fn value_names(o: &CompleteOutline) -> Names
    requires { ShortNames (declarations_by o.now.outline.now.body.now) }
    ensures { (names_in result ≡ take 13 (value_names (declarations_by o.now.outline.now.body.now))) × (result.count ≤ 13) }
{
    let mut names = names_of_kind(o, Kind::Enumerations, 13);
    for k in 0..o.outline.count {
        push_types_of(
            &mut names,
            o.outline.declaration(k),
            o.outline.attribute_count(k),
        );
    }
    names
}
