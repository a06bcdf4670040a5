// One more value type, type, attribute or association of a diagram in memory, read off a content on its layout. The number of a type fits
// the cast, as the contract asks.
ghost use Rattle.std.specs.Prelude.{◌≡◌, true, ℕ, ◌+◌, ◌*◌, ◌<◌, ◌≤◌, length, get_or};
ghost use Rattle.laws.specs.Bounded.{all};
ghost use Rattle.files.specs.Content.{starts_name, past_names};
ghost use Rattle.files.specs.DiagramLayout.{end_laid};
ghost use Rattle.files.specs.Limit.{none_of, upper_of};
ghost use Rattle.diagrams.specs.View.{upper_in};
ghost use Rattle.loading.specs.Stored.{NameStored, ConstantsStored, ValueTypeFits, ValueTypeStored, ParentsStored, SetOf, TypeFits, TypeStored, AttributeFits, AttributeStored, EndStored, AssociationFits, AssociationStored};

use diagrams::{Associations, Attributes, Types, ValueTypes};
use laws::Mask;

// ---- names

// The name w into slot i.
pub fn store_name(names: &mut [u8], i: usize, w: &[u8])
    requires { (i * 17 + 17 ≤ length names.old) × (length w.now ≤ 16) }
    ensures { NameStored names.old i w.now names.new }
{
    field_writers::put_name(&mut names[i * 17..], w);
}

// ---- value types

// The first n names of c as the constants of value type v.
fn store_constants(constants: &mut [u8; 1632], v: usize, c: &[u8], n: u8)
    requires { (v < 12) × ((n ≤ 8) × (all (λ k. starts_name (past_names k c.now)) n ≡ true)) }
    ensures { ConstantsStored constants.old v c.now n constants.new }
{
    let mut rest = c;
    for i in 0..n {
        store_name(constants, v * 8 + usize::from(i), fields::name_in(rest));
        rest = fields::past_name(rest);
    }
}

// One value type more.
pub(crate) fn add_value_type(v: &mut ValueTypes, c: &[u8])
    requires { ValueTypeFits v.old c.now }
    ensures { ValueTypeStored v.old c.now v.new }
{
    let i = v.count;
    let rest = fields::past_name(c);
    let n = laws::byte(rest, 0);
    store_name(&mut v.names, i, fields::name_in(c));
    v.sizes[i] = n;
    store_constants(&mut v.constants, i, laws::past(rest, 1), n);
    v.count = i + 1;
}

// ---- types

// The parents of type t.
fn store_parents(parents: &mut [u8; 96], t: usize, ps: &[u8])
    requires { (t < 24) × (length ps.now ≤ 4) }
    ensures { ParentsStored parents.old t ps.now parents.new }
{
    laws::copy(ps, &mut parents[t * 4..]);
}

// The set of type t: its own bit, or-ed with the finished sets of its parents.
fn ancestor_set(sets: &[u32; 24], t: usize, ps: &[u8]) -> u32
    requires { (t < 24) × ((s : ℕ) → s < length ps.now → get_or ps.now s 0 < t) }
    ensures { SetOf sets.now t ps.now result }
{
    ps.iter()
        .fold(0u32.with(t as u32), |set, p| set | sets[usize::from(*p)])
}

// One type more.
pub(crate) fn add_type(t: &mut Types, c: &[u8])
    requires { TypeFits t.old c.now }
    ensures { TypeStored t.old c.now t.new }
{
    let i = t.count;
    let name = laws::past(c, 1);
    let rest = fields::past_name(name);
    let ps = laws::past(rest, 1);
    t.kinds[i] = laws::byte(c, 0);
    store_name(&mut t.names, i, fields::name_in(name));
    t.sizes[i] = laws::byte(rest, 0);
    store_parents(&mut t.parents, i, ps);
    t.sets[i] = ancestor_set(&t.sets, i, ps);
    t.count = i + 1;
}

// ---- attributes

// One attribute more.
pub(crate) fn add_attribute(a: &mut Attributes, c: &[u8])
    requires { AttributeFits a.old c.now }
    ensures { AttributeStored a.old c.now a.new }
{
    let i = a.count;
    let name = laws::past(c, 1);
    a.owners[i] = laws::byte(c, 0);
    store_name(&mut a.names, i, fields::name_in(name));
    a.types[i] = laws::byte(fields::past_name(name), 0);
    a.count = i + 1;
}

// ---- associations

// An upper limit as `diagrams::Associations` has it: 65,535 in place of the edition's number for none. 02 3/12, of edition 1 files: "their
// 255 becoming 65,535 and every other limit keeping its number".
fn upper(edition: u8, up: u16) -> u16
    requires { up ≤ none_of edition }
    ensures { upper_in result ≡ upper_of edition up }
{
    if up == layouts::none_of(edition) {
        65535
    } else {
        up
    }
}

// What c says of an end, as end e.
fn store_end(edition: u8, a: &mut Associations, e: usize, c: &[u8])
    requires { (e < 32) × (end_laid edition c.now ≡ true) }
    ensures { EndStored edition a.old e c.now a.new }
{
    a.types[e] = laws::byte(c, 0);
    a.lows[e] = layouts::low_of(edition, c);
    a.ups[e] = upper(edition, layouts::up_of(edition, c));
    store_name(
        &mut a.roles,
        e,
        fields::name_in(layouts::role_of(edition, c)),
    );
}

// One association more.
pub(crate) fn add_association(edition: u8, a: &mut Associations, c: &[u8])
    requires { AssociationFits edition a.old c.now }
    ensures { AssociationStored edition a.old c.now a.new }
{
    let i = a.count;
    let left = laws::past(c, 2);
    let right = layouts::past_end(edition, left);
    store_end(edition, a, i * 2, left);
    store_end(edition, a, i * 2 + 1, right);
    a.forms[i] = laws::byte(c, 0);
    a.arrows[i] = laws::byte(c, 1);
    a.count = i + 1;
}
