// The reader of record files that keeps nothing of them but the answer. A record here holds names, and no diagram is asked.
#![tactic(auto)]

ghost use Rattle.std.specs.Prelude.{◌≡◌, ◌≤◌, ltb};
ghost use Rattle.laws.specs.Connective.{both};
ghost use Rattle.fields.specs.Refusal.{refusal_number};
ghost use Rattle.files.specs.RecordFile.{count_refusal, link_before, read_record, value_before};
ghost use Rattle.files.specs.RecordLayout.{link_of, value_of};
ghost use Rattle.files.specs.Refusal.{refusal_of};
ghost use Rattle.checking.specs.Progress.{counted, end_no, field_no, link_no, object_no, value_no};

use fields::Refusal;

// What the fields so far left: the last tag, 0 before the first field, as `fields::is_misplaced` asks for it; the count that the file
// gives; how many of each have come; and the contents of the last value and of the last link, empty where there is none. These are no
// Options: the numbers say already whether there is one, and two that say it would have to agree.
#[derive(Clone, Copy)]
pub struct Progress<'a> {
    pub last: u8,
    pub count: u8,
    pub objects: u8,
    pub values: usize,
    pub links: usize,
    pub value: &'a [u8],
    pub link: &'a [u8],
}

// ---- strictly rising. The tests are written out, and not orders of tuples, since these would compare names past `fields::name_before`.

// By object, then attribute name.
fn value_before(a: &[u8], b: &[u8]) -> bool
    ensures { result ≡ value_before (value_of a.now) (value_of b.now) }
{
    let x = laws::byte(a, 0);
    let y = laws::byte(b, 0);
    let v = fields::name_in(laws::past(a, 1));
    let w = fields::name_in(laws::past(b, 1));
    (x < y) | ((x == y) & fields::name_before(v, w))
}

// By from object, role name and to object.
fn link_before(a: &[u8], b: &[u8]) -> bool
    ensures { result ≡ link_before (link_of a.now) (link_of b.now) }
{
    let p = laws::past(a, 1);
    let q = laws::past(b, 1);
    let x = laws::byte(a, 0);
    let y = laws::byte(b, 0);
    let v = fields::name_in(p);
    let w = fields::name_in(q);
    let i = laws::byte(fields::past_name(p), 0);
    let j = laws::byte(fields::past_name(q), 0);
    (x < y) | ((x == y) & (fields::name_before(v, w) | (fields::same_name(v, w) & (i < j))))
}

// ---- the refusal of a field

// The objects at both ends are below the count.
fn ends_known(count: u8, c: &[u8]) -> bool
    ensures { result ≡ both (ltb (link_of c.now).from count) (ltb (link_of c.now).to count) }
{
    (laws::byte(c, 0) < count) & (laws::byte(fields::past_name(laws::past(c, 1)), 0) < count)
}

// 0x60, object count.
fn check_count(c: &[u8]) -> Result<(), Refusal>
    ensures { refusal_number result ≡ count_refusal c.now }
{
    if !layouts::count_laid(c) {
        return Err(Refusal::Layout);
    }
    Ok(())
}

// 0x61, object.
fn check_object(count: u8, objects: u8, c: &[u8]) -> Result<(), Refusal>
    ensures { refusal_number result ≡ object_no count objects c.now }
{
    if count <= objects {
        return Err(Refusal::Count);
    }
    if !layouts::object_laid(c) {
        return Err(Refusal::Layout);
    }
    Ok(())
}

// 0x62, value; p is the content of the one before, if there is one.
fn check_value(count: u8, values: usize, p: &[u8], c: &[u8]) -> Result<(), Refusal>
    ensures { refusal_number result ≡ value_no count values p.now c.now }
{
    if 256 <= values {
        return Err(Refusal::Count);
    }
    if !layouts::value_laid(c) {
        return Err(Refusal::Layout);
    }
    if (0 < values) & !value_before(p, c) {
        return Err(Refusal::Order);
    }
    if count <= laws::byte(c, 0) {
        return Err(Refusal::Unknown);
    }
    Ok(())
}

// 0x63, link; p is the content of the one before, if there is one.
fn check_link(count: u8, links: usize, p: &[u8], c: &[u8]) -> Result<(), Refusal>
    ensures { refusal_number result ≡ link_no count links p.now c.now }
{
    if 2048 <= links {
        return Err(Refusal::Count);
    }
    if !layouts::link_laid(c) {
        return Err(Refusal::Layout);
    }
    if (0 < links) & !link_before(p, c) {
        return Err(Refusal::Order);
    }
    if !ends_known(count, c) {
        return Err(Refusal::Unknown);
    }
    Ok(())
}

// A field behind those of s.
fn check_field(s: Progress<'_>, tag: u8, c: &[u8]) -> Result<(), Refusal>
    ensures { refusal_number result ≡ field_no s.entry tag c.now }
{
    if fields::is_misplaced(0x60, &[0x60, 0x61, 0x62, 0x63], s.last, tag) {
        return Err(Refusal::Misplaced);
    }
    match tag {
        0x60 => check_count(c),
        0x61 => check_object(s.count, s.objects, c),
        0x62 => check_value(s.count, s.values, s.value, c),
        _ => check_link(s.count, s.links, s.link, c),
    }
}

// ---- a file

// The progress behind one field more.
fn count_field<'a>(s: Progress<'a>, tag: u8, c: &'a [u8]) -> Progress<'a>
    requires { (s.objects ≤ 8) × ((s.values ≤ 256) × (s.links ≤ 2048)) }
    ensures { result ≡ counted s.entry tag c.entry }
{
    let now = Progress { last: tag, ..s };
    match tag {
        0x60 => Progress {
            count: laws::byte(c, 0),
            ..now
        },
        0x61 => Progress {
            objects: s.objects + 1,
            ..now
        },
        0x62 => Progress {
            values: s.values + 1,
            value: c,
            ..now
        },
        0x63 => Progress {
            links: s.links + 1,
            link: c,
            ..now
        },
        _ => now,
    }
}

// A file with no field, then missing objects.
fn check_end(s: Progress<'_>) -> Result<(), Refusal>
    ensures { refusal_number result ≡ end_no s.entry }
{
    if s.last == 0 {
        return Err(Refusal::Misplaced);
    }
    if s.objects != s.count {
        return Err(Refusal::Count);
    }
    Ok(())
}

// Whether the file is accepted, else its refusal.
pub fn check_record(file: &[u8]) -> Result<(), Refusal>
    ensures { refusal_number result ≡ refusal_of (read_record file.now) }
{
    // No field so far. Written out: a loop that begins with a derived `Default` is not accepted.
    let mut s = Progress {
        last: 0,
        count: 0,
        objects: 0,
        values: 0,
        links: 0,
        value: &[],
        link: &[],
    };
    let mut rest = file;
    while let Some(field) = fields::read_field(rest)? {
        check_field(s, field.tag, field.content)?;
        s = count_field(s, field.tag, field.content);
        rest = field.rest;
    }
    check_end(s)
}
