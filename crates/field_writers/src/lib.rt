// Fields and their parts, written into the unused rest of a buffer. Lengths fit the casts, as the contracts ask.
// Each writer takes a part of the caller's slice, and all but `put_head` give how many bytes they put, so that each promise is about one
// list: a struct of a buffer and a place would have to promise besides what stands before the place. A name of at most 16 bytes has no
// type of its own: the readers of files and texts test its length, `fields::slot_name` cuts it, and the struct would be built at each
// call. Nor has a content's length, which is a sum of numbers of type usize, cast here once.
#![tactic(auto)]

ghost use Rattle.std.specs.Prelude.{◌≡◌, [], ◌∷◌, ◌++◌, ◌+◌, ◌≤◌, ◌<◌, length};
ghost use Rattle.files.specs.Content.{name_bytes};
ghost use Rattle.files.specs.Field.{field};
ghost use Rattle.files.specs.Limit.{limit_bytes, limits_end, none_of};
ghost use Rattle.field_writers.specs.Put.{Put, head};

// The tag and the length of a field whose content has n bytes, and the first of these.
pub fn put_head(out: &mut [u8], tag: u8, n: usize, b: u8)
    requires { (4 ≤ length out.old) × (n < 65536) }
    ensures { Put (head tag n b) out.old 4 out.new }
{
    let [high, low] = fields::two_bytes(n as u16);
    out[..4].copy_from_slice(&[tag, high, low, b]);
}

// A whole field, its content a part of the file.
pub fn put_field(out: &mut [u8], tag: u8, c: &[u8]) -> usize
    requires { (length c.now < 65536) × (3 + length c.now ≤ length out.old) }
    ensures { (result ≡ 3 + length c.now) × Put (field tag c.now) out.old result out.new }
{
    let [high, low] = fields::two_bytes(c.len() as u16);
    out[..3].copy_from_slice(&[tag, high, low]);
    3 + laws::copy(c, &mut out[3..])
}

// A name: its length and its bytes.
pub fn put_name(out: &mut [u8], w: &[u8]) -> usize
    requires { (length w.now ≤ 16) × (17 ≤ length out.old) }
    ensures { (result ≡ 1 + length w.now) × Put (name_bytes w.now) out.old result out.new }
{
    out[0] = w.len() as u8;
    1 + laws::copy(w, &mut out[1..])
}

// A field up to a name and the byte behind it: n is the length of the content, whose first byte is `first`. An attribute's field and a
// link's end there, a type's goes on.
pub fn put_named(out: &mut [u8], tag: u8, n: usize, first: u8, w: &[u8], last: u8) -> usize
    requires { (n < 65536) × ((length w.now ≤ 16) × (22 ≤ length out.old)) }
    ensures { (result ≡ 6 + length w.now) × Put ((head tag n first ++ name_bytes w.now) ++ (last ∷ [])) out.old result out.new }
{
    put_head(out, tag, n, first);
    let a = put_name(&mut out[4..], w);
    out[4 + a] = last;
    5 + a
}

// An association's field up to its ends: n is the length of the content.
pub fn put_form(out: &mut [u8], n: usize, form: u8, arrow: u8) -> usize
    requires { (n < 65536) × (5 ≤ length out.old) }
    ensures { (result ≡ 5) × Put (head 0x50 n form ++ (arrow ∷ [])) out.old result out.new }
{
    put_head(out, 0x50, n, form);
    out[4] = arrow;
    5
}

// An end of an association up to its role: its type and its limits as the edition writes them.
pub fn put_limits(out: &mut [u8], edition: u8, type_index: u8, low: u16, up: u16) -> usize
    requires { (5 ≤ length out.old) × ((low ≤ none_of edition) × (up ≤ none_of edition)) }
    ensures { (result ≡ limits_end edition) × Put (type_index ∷ (limit_bytes edition low ++ limit_bytes edition up)) out.old result out.new }
{
    if edition == 2 {
        let [low_high, low_low] = fields::two_bytes(low);
        let [up_high, up_low] = fields::two_bytes(up);
        out[..5].copy_from_slice(&[type_index, low_high, low_low, up_high, up_low]);
        5
    } else {
        out[..3].copy_from_slice(&[type_index, low as u8, up as u8]);
        3
    }
}
