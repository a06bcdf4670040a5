// A diagram file in its other edition, put into a lent buffer field by field: from is the edition of the file, to the other one.
#![tactic(auto)]

ghost use Rattle.std.specs.Prelude.{◌≡◌, true, ◌++◌, ◌+◌, ◌<◌, ◌≤◌, length};
ghost use Rattle.files.specs.Convert.{narrow, narrow_limits, other_edition};
ghost use Rattle.files.specs.DiagramBytes.{association_bytes, end_bytes};
ghost use Rattle.files.specs.DiagramLayout.{association_laid, association_of, end_laid, end_of};
ghost use Rattle.files.specs.EditionFields.{in_edition, rows_in};
ghost use Rattle.files.specs.Field.{bytes_of, field, rows};
ghost use Rattle.files.specs.Limit.{upper_number, upper_of};
ghost use Rattle.files.specs.WellFormedDiagram.{FitsAssociation, FitsLimits};
ghost use Rattle.diagrams.specs.View.{diagram_of, end_in};
ghost use Rattle.field_writers.specs.Put.{Put};
ghost use Rattle.converting.specs.Conversion.{Conversion};
ghost use Rattle.converting.specs.Fitting.{AllFit, Fits};

use diagrams::{Associations, ReadDiagram};
use fields::Refusal;

// ---- the editions

// 1 for 2 and 2 for 1.
fn other_edition(edition: u8) -> u8
    ensures { result ≡ other_edition edition }
{
    if edition == 2 { 1 } else { 2 }
}

// Edition 1 has numbers for the limits of end e: neither low nor up is a finite limit above its largest one. 65,535 stands for no upper
// limit in memory.
fn is_narrow_end(a: &Associations, e: usize) -> bool
    requires { e < 32 }
    ensures { result ≡ narrow_limits (end_in a.now e).limits }
{
    let most = layouts::most_of(1);
    let up = a.ups[e];
    (a.lows[e] <= most) & ((up <= most) | (up == 65535))
}

// Edition 1 has numbers for all limits.
fn is_narrow(d: &ReadDiagram) -> bool
    ensures { result ≡ narrow (diagram_of d.now.stored) }
{
    let a = &d.stored.associations;
    (0..a.count).all(|i| is_narrow_end(a, i * 2) & is_narrow_end(a, i * 2 + 1))
}

// The number of an upper limit in edition to.
fn other_upper(from: u8, to: u8, up: u16) -> u16
    ensures { result ≡ upper_number to (upper_of from up) }
{
    if up == layouts::none_of(from) {
        layouts::none_of(to)
    } else {
        up
    }
}

// ---- associations

// Puts the end at the front of c in edition to.
fn put_end(out: &mut [u8], from: u8, to: u8, c: &[u8]) -> usize
    requires { (22 ≤ length out.old) × ((end_laid from c.now ≡ true) × FitsLimits to (end_of from c.now).limits) }
    ensures { (result ≤ 22) × Put (end_bytes to (end_of from c.now)) out.old result out.new }
{
    let low = layouts::low_of(from, c);
    let up = other_upper(from, to, layouts::up_of(from, c));
    let n = field_writers::put_limits(out, to, laws::byte(c, 0), low, up);
    let role = fields::name_in(layouts::role_of(from, c));
    n + field_writers::put_name(&mut out[n..], role)
}

// Puts both ends of an association whose content is c.
fn put_ends(out: &mut [u8], from: u8, to: u8, c: &[u8]) -> usize
    requires { (44 ≤ length out.old) × ((association_laid from c.now ≡ true) × FitsAssociation to (association_of from c.now)) }
    ensures { (result ≤ 44) × Put (end_bytes to (association_of from c.now).left ++ end_bytes to (association_of from c.now).right) out.old result out.new }
{
    let left = laws::past(c, 2);
    let right = layouts::past_end(from, left);
    let n = put_end(out, from, to, left);
    n + put_end(&mut out[n..], from, to, right)
}

// Puts the field of that association. Its ends are put first: the field's length counts their bytes.
fn put_association(out: &mut [u8], from: u8, to: u8, c: &[u8]) -> usize
    requires { (49 ≤ length out.old) × ((association_laid from c.now ≡ true) × FitsAssociation to (association_of from c.now)) }
    ensures { (result ≤ 49) × Put (field 0x50 (association_bytes to (association_of from c.now))) out.old result out.new }
{
    let n = put_ends(&mut out[5..], from, to, c);
    let form = laws::byte(c, 0);
    field_writers::put_form(out, 2 + n, form, laws::byte(c, 1)) + n
}

// ---- fields

// Puts the field of the tag with content c: the edition and the associations are written anew, all else is copied. Besides what it puts it
// asks for 96 bytes of room: the writers of names and of associations ask for the most that these take, 17 and 49 bytes.
fn put_converted(out: &mut [u8], from: u8, to: u8, tag: u8, c: &[u8]) -> usize
    requires { Fits from to tag c.now × (length (in_edition from to tag c.now) + 99 ≤ length out.old) }
    ensures { Put (field tag (in_edition from to tag c.now)) out.old result out.new }
{
    match tag {
        0x10 => {
            field_writers::put_head(out, 0x10, 1, to);
            4
        }
        0x50 => put_association(out, from, to, c),
        _ => field_writers::put_field(out, tag, c),
    }
}

// Puts all fields of the file, in its order. The file was read, so that none is cut. A buffer of 4,096 bytes has 96 more than the longest
// file.
fn put_fields(out: &mut [u8], from: u8, to: u8, file: &[u8]) -> usize
    requires { AllFit from to (rows file.now) × (length (bytes_of (rows_in from to (rows file.now))) + 96 ≤ length out.old) }
    ensures { Put (bytes_of (rows_in from to (rows file.now))) out.old result out.new }
{
    let mut at = 0;
    let mut rest = file;
    while let Ok(Some(field)) = fields::read_field(rest) {
        let n = put_converted(&mut out[at..], from, to, field.tag, field.content);
        at += n;
        rest = field.rest;
    }
    at
}

// ---- a file

// Writes a diagram file in its other edition to the front of the buffer, and returns how many bytes these are. Nothing is written before
// all checks are through.
pub fn convert(file: &[u8], out: &mut [u8]) -> Result<usize, Refusal>
    ensures { Conversion file.now out.old result out.new }
{
    let d = loading::read_diagram(file)?;
    let from = laws::byte(file, 3);
    if (from == 2) & !is_narrow(&d) {
        return Err(Refusal::Limit);
    }
    if out.len() < 4096 {
        return Err(Refusal::Buffer);
    }
    Ok(put_fields(out, from, other_edition(from), file))
}
