// Fields and names, read off the unread rest of a file.
#![tactic(auto)]

ghost use Rattle.std.specs.Prelude.{◌≡◌, ◌*◌, ◌<◌, ◌≤◌, ℕ, get_or};
ghost use Rattle.files.specs.Field.{two_bytes};
ghost use Rattle.files.specs.Name.{name_byte, valid_name, same_name, before};
ghost use Rattle.files.specs.Refusal.{misplaced};
ghost use Rattle.files.specs.Content.{name_in, past_name, starts_name, starts_constant};
ghost use Rattle.fields.specs.Field.{ReadsField};
ghost use Rattle.fields.specs.Refusal.{number_of};
ghost use Rattle.fields.specs.Slot.{slot_name, is_among, slot_of, known_in, constant_name};

// ---- refusals

// Why a file, a text or a call is refused; each has its number.
#[derive(Clone, Copy, Debug, PartialEq, Eq)]
pub enum Refusal {
    // A field passes the end of the file.
    Cut = 1,
    // A tag of no such file, falling, again where it comes once, or another first tag; an empty file.
    Misplaced = 2,
    // A content off its layout.
    Layout = 3,
    // Too many of a kind, or another number of objects than the count says.
    Count = 4,
    // A name twice where names differ, or numbers, values or links that do not rise.
    Order = 5,
    // An index or object number that names nothing.
    Unknown = 6,
    // An interface with a parent that is none.
    Parent = 7,
    // A composition with its whole at the right end.
    Whole = 8,
    // A bound above 8.
    Bound = 9,
    // A place above 1.
    Place = 10,
    // A lent buffer that is too short.
    Buffer = 20,
    // A place that the call needs is empty.
    Empty = 21,
    // There is no witness.
    NoWitness = 22,
    // A text outside the grammar, with a long name, or with limits that no file has.
    Grammar = 23,
    // A text with a parent or an end that is not declared.
    Undeclared = 24,
    // A finite limit above 100 in an edition 2 file that is to become edition 1.
    Limit = 25,
}

impl Refusal {
    pub fn number(self) -> u8
        ensures { result ≡ number_of self }
    {
        self as u8
    }
}

// ---- a field at the front

// A whole field, and the rest behind it: parts of the file itself.
#[derive(Clone, Copy)]
pub struct Field<'a> {
    // A number, here and in the crates above: a file may have any byte there, and `is_misplaced` refuses those that are no tags.
    pub tag: u8,
    pub content: &'a [u8],
    pub rest: &'a [u8],
}

// The field at the front of a file's unread rest; none where nothing is left. The three readers of files call it in a loop of their own: an
// iterator's contract would say again what is left of the file, and two of them would keep the `?`.
pub fn read_field(s: &[u8]) -> Result<Option<Field<'_>>, Refusal>
    ensures { ReadsField s.now result }
{
    if s.is_empty() {
        return Ok(None);
    }
    let [tag, high, low, behind @ ..] = s else {
        return Err(Refusal::Cut);
    };
    let len = usize::from(u16::from_be_bytes([*high, *low]));
    if behind.len() < len {
        return Err(Refusal::Cut);
    }
    let (content, rest) = behind.split_at(len);
    Ok(Some(Field {
        tag: *tag,
        content,
        rest,
    }))
}

// The tag is none of the file's, falls, is that of the first field again, or is not that of the first field where it should be. The
// definitions `misplaced`, `diagram_refusal` and `record_refusal` take the tag of the field before, and 0 before the first: so does the
// code, here and in all that calls this.
pub fn is_misplaced(once: u8, tags: &[u8], last: u8, tag: u8) -> bool
    ensures { result ≡ misplaced once tags.now last tag }
{
    !tags.contains(&tag) | (tag < last) | ((tag == once) != (last == 0))
}

// ---- a number

// Its two bytes, high byte first. A function over the number alone: that it is below 65,536 is known of what is passed by
// value, and not of what stands in an array.
pub fn two_bytes(n: u16) -> [u8; 2]
    ensures { result ≡ two_bytes n }
{
    n.to_be_bytes()
}

// ---- names

// A byte of A-Z, a-z, 0-9 or underscore.
pub fn name_byte(b: u8) -> bool
    ensures { result ≡ name_byte b }
{
    b.is_ascii_alphanumeric() | (b == b'_')
}

// 1 to 16 such bytes. Ranges are tested by two comparisons, here and in the crates above: `contains` promises by the library's order, the
// definitions go by `leb`.
pub fn valid_name(w: &[u8]) -> bool
    ensures { result ≡ valid_name w.now }
{
    (1 <= w.len()) & (w.len() <= 16) && w.iter().all(|b| name_byte(*b))
}

// Names are compared by this function and the next alone, since 01 has one equality and one order of names.
pub fn same_name(a: &[u8], b: &[u8]) -> bool
    ensures { result ≡ same_name a.now b.now }
{
    a == b
}

// By unsigned bytes, a prefix first.
pub fn name_before(a: &[u8], b: &[u8]) -> bool
    ensures { result ≡ before a.now b.now }
{
    a < b
}

// ---- a name at the front of a content

// As many bytes as the first one says.
pub fn name_in(c: &[u8]) -> &[u8]
    ensures { result.now ≡ name_in c.now }
{
    laws::front(laws::past(c, 1), usize::from(laws::byte(c, 0)))
}

// What follows them.
pub fn past_name(c: &[u8]) -> &[u8]
    ensures { result.now ≡ past_name c.now }
{
    laws::past(c, 1 + usize::from(laws::byte(c, 0)))
}

// A name stands there whole.
pub fn starts_name(c: &[u8]) -> bool
    ensures { result ≡ starts_name c.now }
{
    (1 + usize::from(laws::byte(c, 0)) <= c.len()) & valid_name(name_in(c))
}

// A constant's name stands there whole, or the unnamed value's, of length 0.
pub fn starts_constant(c: &[u8]) -> bool
    ensures { result ≡ starts_constant c.now }
{
    starts_name(c) | ((1 <= c.len()) & (laws::byte(c, 0) == 0))
}

// ---- names in a row of slots, each a length byte and room for 16 bytes

// A row and how many of its slots are in use go side by side here and in the crates above, with the bound on the number where one is
// needed: the row is a field of a diagram's table, whose number is that of the table's other rows too, and a struct of the two would be
// built at each call.

// The name in slot i.
pub fn slot_name(names: &[u8], i: u8) -> &[u8]
    ensures { result.now ≡ slot_name names.now i }
{
    let at = usize::from(i) * 17;
    laws::front(
        laws::past(names, at + 1),
        usize::from(laws::byte(names, at)).min(16),
    )
}

// Slot i has the name w.
pub fn is_named(names: &[u8], i: u8, w: &[u8]) -> bool
    ensures { result ≡ same_name (slot_name names.now i) w.now }
{
    same_name(slot_name(names, i), w)
}

// One of the first n slots has the name w.
pub fn is_among(names: &[u8], n: u8, w: &[u8]) -> bool
    ensures { result ≡ is_among names.now n w.now }
{
    (0..n).any(|i| is_named(names, i, w))
}

// The first of the first k slots with the name w, or k: a record in memory and a table of slots store k for a name that is not there.
pub fn slot_of(names: &[u8], k: u8, w: &[u8]) -> u8
    ensures { (result ≡ slot_of names.now k w.now) × (result ≤ k) }
{
    (0..k).find(|i| is_named(names, *i, w)).unwrap_or(k)
}

// For each of n names its place among k others, or k; the entries behind are 0. A loop over n: the closure of `array::from_fn` would have
// to tell the n in use from the entries behind.
pub fn places<const N: usize>(names: &[u8], n: u8, others: &[u8], k: u8) -> [u8; N]
    requires { n ≤ N }
    ensures { ((i : ℕ) → i < n → get_or result i 0 ≡ slot_of others.now k (slot_name names.now i)) × ((i : ℕ) → get_or result i 0 ≤ k) }
{
    let mut r = [0u8; N];
    for i in 0..n {
        let at = slot_of(others, k, slot_name(names, i));
        r[usize::from(i)] = at;
    }
    r
}

// Of so many constants c is one, or it is the unnamed value.
pub fn is_known(size: u8, c: u8) -> bool
    ensures { result ≡ known_in size c }
{
    (c < size) | ((size == 0) & (c == 0))
}

// The name of constant k % 8 of value type k / 8, which has `size` constants; the unnamed value's has length 0.
pub fn constant_name(constants: &[u8], size: u8, k: u8) -> &[u8]
    ensures { result.now ≡ constant_name constants.now size k }
{
    if k % 8 < size {
        return slot_name(constants, k);
    }
    &[]
}
