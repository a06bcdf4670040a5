// Refusal 3 for each tag: whether a content is on its layout. All reads are total, so that nothing is asked of the content, and no test
// waits for another: they are joined by `&`.
#![tactic(auto)]

ghost use Rattle.std.specs.Prelude.{◌≡◌, ◌∷◌, [], true, drop};
ghost use Rattle.laws.specs.Bounded.{any};
ghost use Rattle.laws.specs.Lists.{joined};
ghost use Rattle.files.specs.Name.{same_name, differ};
ghost use Rattle.files.specs.Content.{name_in, past_names};
ghost use Rattle.files.specs.DiagramLayout.{edition_laid, value_type_laid, type_laid, attribute_laid, end_laid, past_end, association_laid};
ghost use Rattle.files.specs.Limit.{most_of, none_of, up_start, limits_end, limit_at, limit_written, limits_laid};
ghost use Rattle.layouts.specs.Names.{names_laid};
ghost use Rattle.files.specs.RecordLayout.{count_laid, object_laid, value_laid, link_laid};

// ---- rows of names

// What follows the first n names.
pub fn past_names(c: &[u8], n: u8) -> &[u8]
    ensures { result.now ≡ past_names n c.now }
{
    (0..n).fold(c, |rest, _| fields::past_name(rest))
}

// n names, and nothing behind them: one walk, up to the first that is no name, since n is a byte of a file that may be refused.
pub fn names_laid(c: &[u8], n: u8) -> bool
    ensures { result ≡ names_laid c.now n }
{
    let mut rest = c;
    for _ in 0..n {
        if !fields::starts_name(rest) {
            return false;
        }
        rest = fields::past_name(rest);
    }
    rest.is_empty()
}

// Names i and j are the same.
fn same_names(c: &[u8], i: u8, j: u8) -> bool
    ensures { result ≡ same_name (name_in (past_names i c.now)) (name_in (past_names j c.now)) }
{
    fields::same_name(
        fields::name_in(past_names(c, i)),
        fields::name_in(past_names(c, j)),
    )
}

// Name i is the same as one before it.
fn repeats(c: &[u8], i: u8) -> bool
    ensures { result ≡ any (λ j. same_name (name_in (past_names j c.now)) (name_in (past_names i c.now))) i }
{
    (0..i).any(|j| same_names(c, j, i))
}

// No two of the first n names are the same.
pub fn names_differ(c: &[u8], n: u8) -> bool
    ensures { result ≡ differ (joined (λ i. name_in (past_names i c.now) ∷ []) n) }
{
    (0..n).all(|i| !repeats(c, i))
}

// A byte, a name, a byte: the layout of an attribute and of a link.
fn is_name_between(c: &[u8]) -> bool
    ensures { result ≡ link_laid c.now }
{
    let name = laws::past(c, 1);
    fields::starts_name(name) & (fields::past_name(name).len() == 1)
}

// ---- diagram files

// Each comment begins with the field's tag in the file. Tags are numbers, since a file may have any byte there: `fields::is_misplaced`
// refuses those that are none.

// 0x10: the edition that the file is read by, 1 or 2. Here and in the crates above it is a number, since a file may have any byte there.
pub fn edition_laid(edition: u8, c: &[u8]) -> bool
    ensures { result ≡ edition_laid edition c.now }
{
    (c.len() == 1) & (laws::byte(c, 0) == edition) & ((edition == 1) | (edition == 2))
}

// 0x20: name, count, constant names.
pub fn value_type_laid(c: &[u8]) -> bool
    ensures { result ≡ value_type_laid c.now }
{
    let rest = fields::past_name(c);
    let n = laws::byte(rest, 0);
    fields::starts_name(c) & (1 <= rest.len()) & (n <= 8) & names_laid(laws::past(rest, 1), n)
}

// 0x30: kind, name, count, parents.
pub fn type_laid(c: &[u8]) -> bool
    ensures { result ≡ type_laid c.now }
{
    let name = laws::past(c, 1);
    let rest = fields::past_name(name);
    let n = laws::byte(rest, 0);
    (laws::byte(c, 0) <= 3)
        & fields::starts_name(name)
        & (n <= 4)
        & (rest.len() == 1 + usize::from(n))
}

// 0x40: owner, name, value type.
pub fn attribute_laid(c: &[u8]) -> bool
    ensures { result ≡ attribute_laid c.now }
{
    is_name_between(c)
}

// The largest finite limit of an edition.
pub fn most_of(edition: u8) -> u16
    ensures { result ≡ most_of edition }
{
    if edition == 2 { 4000 } else { 100 }
}

// The number by which an edition says "no upper limit".
pub fn none_of(edition: u8) -> u16
    ensures { result ≡ none_of edition }
{
    if edition == 2 { 65535 } else { 255 }
}

// Low is at most the largest limit; up too and not below low, or it says that there is none.
pub fn limits_laid(edition: u8, low: u16, up: u16) -> bool
    ensures { result ≡ limits_laid edition low up }
{
    let most = most_of(edition);
    (low <= most) & (((up <= most) & (low <= up)) | (up == none_of(edition)))
}

// The limit that starts at byte i: two bytes in edition 2, else one.
fn limit_at(edition: u8, c: &[u8], i: u8) -> u16
    ensures { (result ≡ limit_at edition c.now i) × (limit_written edition c.now i ≡ true) }
{
    let at = usize::from(i);
    let first = laws::byte(c, at);
    if edition == 2 {
        u16::from_be_bytes([first, laws::byte(c, at + 1)])
    } else {
        u16::from(first)
    }
}

// The low of an end.
pub fn low_of(edition: u8, c: &[u8]) -> u16
    ensures { (result ≡ limit_at edition c.now 1) × (limit_written edition c.now 1 ≡ true) }
{
    limit_at(edition, c, 1)
}

// The up of an end, as the file has it.
pub fn up_of(edition: u8, c: &[u8]) -> u16
    ensures { (result ≡ limit_at edition c.now (up_start edition)) × (limit_written edition c.now (up_start edition) ≡ true) }
{
    limit_at(edition, c, if edition == 2 { 3 } else { 2 })
}

// The role name of an end, and all behind it.
pub fn role_of(edition: u8, c: &[u8]) -> &[u8]
    ensures { result.now ≡ drop (limits_end edition) c.now }
{
    laws::past(c, if edition == 2 { 5 } else { 3 })
}

// One end: type, low, up, role name.
pub fn end_laid(edition: u8, c: &[u8]) -> bool
    ensures { result ≡ end_laid edition c.now }
{
    limits_laid(edition, low_of(edition, c), up_of(edition, c))
        & fields::starts_name(role_of(edition, c))
}

// What follows an end.
pub fn past_end(edition: u8, c: &[u8]) -> &[u8]
    ensures { result.now ≡ past_end edition c.now }
{
    fields::past_name(role_of(edition, c))
}

// 0x50: form, arrow, left end, right end.
pub fn association_laid(edition: u8, c: &[u8]) -> bool
    ensures { result ≡ association_laid edition c.now }
{
    let left = laws::past(c, 2);
    let right = past_end(edition, left);
    let arrow = laws::byte(c, 1);
    (laws::byte(c, 0) <= 1)
        & ((1 <= arrow) & (arrow <= 4))
        & end_laid(edition, left)
        & end_laid(edition, right)
        & past_end(edition, right).is_empty()
}

// ---- record files

// 0x60: object count 0 to 8.
pub fn count_laid(c: &[u8]) -> bool
    ensures { result ≡ count_laid c.now }
{
    (c.len() == 1) & (laws::byte(c, 0) <= 8)
}

// 0x61: type name.
pub fn object_laid(c: &[u8]) -> bool
    ensures { result ≡ object_laid c.now }
{
    fields::starts_name(c) & fields::past_name(c).is_empty()
}

// 0x62: object, attribute name, value type name, constant name.
pub fn value_laid(c: &[u8]) -> bool
    ensures { result ≡ value_laid c.now }
{
    let attribute = laws::past(c, 1);
    let value_type = fields::past_name(attribute);
    let constant = fields::past_name(value_type);
    fields::starts_name(attribute)
        & fields::starts_name(value_type)
        & fields::starts_constant(constant)
        & fields::past_name(constant).is_empty()
}

// 0x63: from object, role name, to object.
pub fn link_laid(c: &[u8]) -> bool
    ensures { result ≡ link_laid c.now }
{
    is_name_between(c)
}
