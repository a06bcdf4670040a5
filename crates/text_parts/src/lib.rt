// The parts of the declaration at the front of what is left of a text.
#![tactic(auto)]

ghost use Rattle.std.specs.Prelude.{◌≡◌, true, [], ◌*◌, ◌+◌, ◌-◌, ◌≤◌, get_or, length};
ghost use Rattle.files.specs.Diagram.{Limits as FileLimits};
ghost use Rattle.texts.specs.Declaration.{Declaration, value};
ghost use Rattle.texts.specs.Declared.{parent_names};
ghost use Rattle.texts.specs.Table.{limits_in, passes, words_for};
ghost use Rattle.texts.specs.TextChecks.{ends_forbidden, limits_forbidden};
ghost use Rattle.text_rows.specs.Noted.{word_or};
ghost use Rattle.text_rows.specs.RowAt.{declaration_by, row_at};
ghost use Rattle.text_rows.specs.Scan.{IsFirst};
ghost use Rattle.text_parts.specs.Ends.{Capped, capped, end_on, role_word, role_words};
ghost use Rattle.text_parts.specs.Sort.{kind_test, number_of, of_kind, sort_number};

use text_rows::{Scanned, State, Word};

// What an integer that is larger than any limit is kept as: the number above the largest limit.
const TOO_LARGE: u16 = 4001;

// The limits of an end. Where there is no upper limit, up is what it is in an edition 2 file; an integer that is larger than any limit is
// TOO_LARGE in each.
#[derive(Clone, Copy)]
pub struct Limits {
    pub low: u16,
    pub up: u16,
}

// An end of an association.
#[derive(Clone, Copy)]
pub enum Side {
    Left,
    Right,
}

// ---- what it is, and its names

#[derive(Clone, Copy)]
pub enum Sort {
    Class,
    AbstractClass,
    Interface,
    SingletonClass,
    Enumeration,
    Association,
    Composition,
}

// The kinds of declarations that are looked for or counted. Only associations have no name.
#[derive(Clone, Copy)]
pub enum Kind {
    Classes,
    Interfaces,
    Types,
    Enumerations,
    Associations,
}

impl Sort {
    // Its number in the text's declarations and, but for the last three, in the file.
    pub fn number(self) -> u8
        ensures { (result ≡ sort_number self) × (result ≤ 6) }
    {
        self as u8
    }

    // It is of that kind.
    pub fn is(self, kind: Kind) -> bool
        ensures { result ≡ kind_test kind (sort_number self) }
    {
        match self {
            Sort::Class | Sort::AbstractClass | Sort::SingletonClass => {
                matches!(kind, Kind::Classes | Kind::Types)
            }
            Sort::Interface => matches!(kind, Kind::Interfaces | Kind::Types),
            Sort::Enumeration => matches!(kind, Kind::Enumerations),
            Sort::Association | Sort::Composition => matches!(kind, Kind::Associations),
        }
    }
}

// By the definition's order; 23 is the class of "composition".
pub fn what(row: &Scanned) -> Option<Sort>
    ensures { number_of result ≡ (declaration_by row.now.rest.now).what }
{
    if row.is_passed(State::CLASS_NAME) {
        if row.is_passed(State::STEREOTYPE) {
            return Some(Sort::SingletonClass);
        }
        if row.is_passed(State::MODIFIED) {
            return Some(Sort::AbstractClass);
        }
        return Some(Sort::Class);
    }
    if row.is_passed(State::INTERFACE_NAME) {
        return Some(Sort::Interface);
    }
    if row.is_passed(State::ENUMERATION_NAME) {
        return Some(Sort::Enumeration);
    }
    row.class_for(State::ASSOCIATION).map(|class| match class {
        23 => Sort::Composition,
        _ => Sort::Association,
    })
}

// The number, 7 for none, as in the definition: the writers of a declaration's field ask it of rows that are declarations, so that an
// Option would be unwrapped there.
pub fn number(what: Option<Sort>) -> u8
    ensures { (result ≡ number_of what) × (result ≤ 7) }
{
    what.map_or(7, Sort::number)
}

// A declaration of that sort is of the kind.
pub fn is_kind(what: Option<Sort>, kind: Kind) -> bool
    ensures { (d : Declaration) → number_of what ≡ d.what → result ≡ of_kind kind d }
{
    what.is_some_and(|sort| sort.is(kind))
}

// It has no name, as an association has none.
pub fn is_nameless(row: &Scanned) -> bool
    ensures { result ≡ true → [] ≡ (declaration_by row.now.rest.now).name }
{
    (row.count_for(State::CLASS_NAME) == 0)
        & ((row.count_for(State::INTERFACE_NAME) == 0)
            & (row.count_for(State::ENUMERATION_NAME) == 0))
}

// Where the name of the type or enumeration stands.
pub fn name_at(s: &[u8]) -> Option<Word>
    ensures { word_or s.now result [] ≡ (declaration_by s.now).name }
{
    text_rows::word_at(
        s,
        State::CLASS_NAME.number,
        State::INTERFACE_NAME.number,
        State::ENUMERATION_NAME.number,
        0,
    )
}

// The name of the type or enumeration.
pub fn name(s: &[u8]) -> &[u8]
    ensures { result.now ≡ (declaration_by s.now).name }
{
    text_rows::word_of(s, name_at(s))
}

// Word i of those that lead to the state q.
fn word_to(s: &[u8], q: State, i: usize) -> &[u8]
    ensures { result.now ≡ get_or (words_for q.number q.number q.number (row_at s.now)) i [] }
{
    text_rows::word_for(s, q.number, q.number, q.number, i)
}

pub fn superclass_count(row: &Scanned) -> usize
    ensures { (result ≡ length (declaration_by row.now.rest.now).superclasses) × (result ≤ length row.now.rest.now) }
{
    row.count_for(State::SUPERCLASS)
}

pub fn superclass(s: &[u8], i: usize) -> &[u8]
    ensures { result.now ≡ get_or (declaration_by s.now).superclasses i [] }
{
    word_to(s, State::SUPERCLASS, i)
}

pub fn interface_count(row: &Scanned) -> usize
    ensures { (result ≡ length (declaration_by row.now.rest.now).interfaces) × (result ≤ length row.now.rest.now) }
{
    row.count_for(State::CLASS_INTERFACE) + row.count_for(State::SUPERINTERFACE)
}

pub fn interface(s: &[u8], i: usize) -> &[u8]
    ensures { result.now ≡ get_or (declaration_by s.now).interfaces i [] }
{
    text_rows::word_for(
        s,
        State::CLASS_INTERFACE.number,
        State::SUPERINTERFACE.number,
        State::SUPERINTERFACE.number,
        i,
    )
}

// How many superclasses and superinterfaces.
pub fn parent_count(row: &Scanned) -> usize
    ensures { result ≡ length (parent_names (declaration_by row.now.rest.now)) }
{
    superclass_count(row) + interface_count(row)
}

// Parent i, the superclasses first.
pub fn parent<'a>(row: &Scanned<'a>, i: usize) -> &'a [u8]
    ensures { result.now ≡ get_or (parent_names (declaration_by row.now.rest.now)) i [] }
{
    let n = superclass_count(row);
    if i < n {
        return superclass(row.rest, i);
    }
    interface(row.rest, i - n)
}

pub fn attribute_count(row: &Scanned) -> usize
    ensures { (result ≡ length (declaration_by row.now.rest.now).attribute_types) × (result ≤ length row.now.rest.now) }
{
    row.count_for(State::ATTRIBUTE_TYPE)
}

pub fn attribute_type(s: &[u8], i: usize) -> &[u8]
    ensures { result.now ≡ get_or (declaration_by s.now).attribute_types i [] }
{
    word_to(s, State::ATTRIBUTE_TYPE, i)
}

pub fn attribute_name(s: &[u8], i: usize) -> &[u8]
    ensures { result.now ≡ get_or (declaration_by s.now).attribute_names i [] }
{
    word_to(s, State::ATTRIBUTE_NAME, i)
}

pub fn constant_count(row: &Scanned) -> usize
    ensures { (result ≡ length (declaration_by row.now.rest.now).constants) × (result ≤ length row.now.rest.now) }
{
    row.count_for(State::CONSTANT)
}

pub fn constant(s: &[u8], i: usize) -> &[u8]
    ensures { result.now ≡ get_or (declaration_by s.now).constants i [] }
{
    word_to(s, State::CONSTANT, i)
}

// ---- associations

// The numbers of arrows are the file's, and 0 where there is none; these and the classes, those of <->, ->, <- and --, are as in the
// definition.
pub fn arrow(row: &Scanned) -> u8
    ensures { (result ≡ (declaration_by row.now.rest.now).arrow) × (result ≤ 4) }
{
    match row.class_for(State::ARROW) {
        Some(0) => 3,
        Some(1) => 1,
        Some(2) => 2,
        Some(3) => 4,
        _ => 0,
    }
}

// The type of an end.
pub fn end_type<'a>(row: &Scanned<'a>, side: Side) -> &'a [u8]
    ensures { result.now ≡ (end_on side (declaration_by row.now.rest.now)).type }
{
    match side {
        Side::Left => row.first_for(State::LEFT_TYPE).unwrap_or(&[]),
        Side::Right => row.first_for(State::RIGHT_TYPE).unwrap_or(&[]),
    }
}

// The role that is written at the end, if one is.
pub fn written_role<'a>(row: &Scanned<'a>, side: Side) -> Option<&'a [u8]>
    ensures { IsFirst (role_words side (row_at row.now.rest.now)) result }
{
    match side {
        Side::Left => row.first_for(State::LEFT_ROLE),
        Side::Right => row.first_for(State::RIGHT_ROLE),
    }
}

// The role that is written, or else the type's name.
pub fn role_word<'a>(row: &Scanned<'a>, side: Side) -> &'a [u8]
    ensures { result.now ≡ role_word side (row_at row.now.rest.now) }
{
    written_role(row, side).unwrap_or(end_type(row, side))
}

// A digit behind digits of the value v, TOO_LARGE where the value is larger than any limit.
fn with_digit(v: u16, b: u8) -> u16
    ensures { result ≡ capped (capped v * 10 + (b - 48)) }
{
    let more = v.min(TOO_LARGE) * 10 + u16::from(b.saturating_sub(48));
    more.min(TOO_LARGE)
}

// The value of a run of digits, TOO_LARGE where it is larger than any limit. No `parse`: that takes a `&str`, and refuses a number that
// is too large for its type, where the value is to stay at TOO_LARGE.
fn value_of(w: &[u8]) -> u16
    ensures { result ≡ capped (value w.now) }
{
    w.iter().fold(0, |v, b| with_digit(v, *b))
}

// The limits of the end whose low integer, ".." and high integer lead to these states.
fn limits_for(row: &Scanned, low: State, dots: State, up: State) -> Limits
    ensures { Capped (limits_in (words_for low.number low.number low.number (row_at row.now.rest.now)) (passes dots.number (row_at row.now.rest.now)) (words_for up.number up.number up.number (row_at row.now.rest.now))) result }
{
    let Some(first) = row.first_for(low) else {
        return Limits {
            low: 0,
            up: layouts::none_of(2),
        };
    };
    let n = value_of(first);
    if !row.is_passed(dots) {
        return Limits { low: n, up: n };
    }
    Limits {
        low: n,
        up: row.first_for(up).map_or(layouts::none_of(2), value_of),
    }
}

pub fn end_limits(row: &Scanned, side: Side) -> Limits
    ensures { Capped (end_on side (declaration_by row.now.rest.now)).limits result }
{
    match side {
        Side::Left => limits_for(row, State::LEFT_LOW, State::LEFT_DOTS, State::LEFT_UP),
        Side::Right => limits_for(row, State::RIGHT_LOW, State::RIGHT_DOTS, State::RIGHT_UP),
    }
}

// 01: "up is .. not below low"; 02 3/12: "range 0 to 4,000", as in an edition 2 file.
fn is_forbidden(l: Limits) -> bool
    ensures { (m : FileLimits) → Capped m l → result ≡ limits_forbidden m }
{
    !layouts::limits_laid(2, l.low, l.up)
}

// One of its cardinalities is forbidden.
pub fn has_forbidden_end(row: &Scanned) -> bool
    ensures { result ≡ ends_forbidden (declaration_by row.now.rest.now) }
{
    is_forbidden(end_limits(row, Side::Left)) | is_forbidden(end_limits(row, Side::Right))
}
