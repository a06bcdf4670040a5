// How calls and replies stand in bytes: the call at the front of a list of calls, and a reply at the front of the room for replies.
#![tactic(auto)]

ghost use Rattle.std.specs.Prelude.{◌≡◌, [], ◌++◌, ◌<◌, length};
ghost use Rattle.bench.specs.View.{reply_of};
ghost use Rattle.coding.specs.CallBytes.{length_at, long_at, next_of, row_at};
ghost use Rattle.coding.specs.Operands.{IsRow};
ghost use Rattle.coding.specs.Puts.{Puts};
ghost use Rattle.coding.specs.ReplyBytes.{head_bytes, parts_of, reply_bytes};

use bench::Reply;

// ---- calls

// The call at the front of a list of calls: its code, a byte, where a file stands and how long it is, how long a buffer is to lend,
// and how many bytes the call takes. The code is the byte of the list, by which the format defines the operands and the call. The file is
// told by two numbers and no slice, as the definition `next_of` computes them.
#[derive(Clone, Copy)]
pub struct Next {
    pub code: u8,
    pub byte: u8,
    pub from: usize,
    pub len: usize,
    pub lend: usize,
    pub used: usize,
}

// The operands of a call, as counts: an enum is no plainer, since positions are computed from them.
#[derive(Clone, Copy)]
struct Row {
    bytes: usize,
    files: usize,
    buffers: usize,
}

// A call with a byte and a file, with a byte alone, with a buffer to lend, with a file and a buffer, and none.
const FILE: Row = Row {
    bytes: 1,
    files: 1,
    buffers: 0,
};

const BYTE: Row = Row {
    bytes: 1,
    files: 0,
    buffers: 0,
};

const BUFFER: Row = Row {
    bytes: 0,
    files: 0,
    buffers: 1,
};

const FILE_AND_BUFFER: Row = Row {
    bytes: 0,
    files: 1,
    buffers: 1,
};

const NONE: Row = Row {
    bytes: 0,
    files: 0,
    buffers: 0,
};

// By code. NONE stands at 0 and past the table, as in the definition; `read_next` takes no such code for a call.
const ROWS: [Row; 10] = [
    NONE,
    FILE,
    BYTE,
    FILE,
    BYTE,
    FILE,
    BYTE,
    BUFFER,
    FILE,
    FILE_AND_BUFFER,
];

fn row_at(code: u8) -> Row
    ensures { IsRow (row_at code) result }
{
    ROWS.get(usize::from(code)).copied().unwrap_or(NONE)
}

// A number of four bytes, high byte first. `as`, since the library has no conversion of u32 to usize that cannot fail.
#[tactic(auto, unfolding(crate::specs::CallBytes::long_at))]
fn long_at(s: &[u8], i: usize) -> usize
    requires { i < 1152921504606846976 }
    ensures { (result ≡ long_at s.now i) × (result < 4294967296) }
{
    u32::from_be_bytes([
        laws::byte(s, i),
        laws::byte(s, i + 1),
        laws::byte(s, i + 2),
        laws::byte(s, i + 3),
    ]) as usize
}

// The same where there is such an operand, else 0.
#[tactic(auto, unfolding(crate::specs::CallBytes::length_at))]
fn length_at(s: &[u8], many: usize, i: usize) -> usize
    requires { i < 1152921504606846976 }
    ensures { (result ≡ length_at s.now many i) × (result < 4294967296) }
{
    if many == 0 { 0 } else { long_at(s, i) }
}

// The call at the front of s, where there are `room` bytes for replies; none where nothing is left, or a call is cut off or unknown, or
// has no room for its reply.
pub fn read_next(s: &[u8], room: usize) -> Option<Next>
    ensures { result ≡ next_of s.now room }
{
    let code = laws::byte(s, 0);
    let r = row_at(code);
    let from = 1 + r.bytes + r.files * 4;
    let len = length_at(s, r.files, 1 + r.bytes);
    let at = from + len;
    let lend = length_at(s, r.buffers, at);
    let used = at + r.buffers * 4;
    if (1 <= code) & (code < 10) & (used <= s.len()) & (r.buffers * 5 + lend <= room) {
        return Some(Next {
            code,
            byte: laws::byte(s, 1),
            from,
            len,
            lend,
            used,
        });
    }
    None
}

// ---- replies

// Puts xs and behind it ys at the front of out if both fit; how many bytes.
fn put(out: &mut [u8], xs: &[u8], ys: &[u8]) -> Option<usize>
    ensures { Puts (xs.now ++ ys.now) out.old result out.new }
{
    if out.len() < xs.len() {
        return None;
    }
    if out.len() - xs.len() < ys.len() {
        return None;
    }
    let n = laws::copy(xs, out);
    let m = laws::copy(ys, &mut out[n..]);
    Some(n + m)
}

// Puts a reply, with compile's list where it has one.
#[tactic(auto, unfolding(crate::specs::ReplyBytes::parts_of, crate::specs::ReplyBytes::reply_bytes))]
pub fn say(out: &mut [u8], r: Reply, list: &[u8]) -> Option<usize>
    ensures { Puts (reply_bytes (reply_of r list.now)) out.old result out.new }
{
    match r {
        Reply::Done | Reply::Written(_) => put(out, &[0], &[]),
        Reply::Rule(n) | Reply::FirstFalse(n) => put(out, &[0, n], &[]),
        Reply::Records(n) => put(out, &[0, n], list),
        Reply::NoDifference => put(out, &[0, 0], &[]),
        Reply::Difference(n) => put(out, &[0, 1, n], &[]),
        Reply::Refused(n) => put(out, &[n], &[]),
    }
}

// The status and the length that was written.
#[tactic(auto, unfolding(crate::specs::ReplyBytes::parts_of))]
fn told(r: Reply) -> (u8, usize)
    ensures { (result.0 ≡ (parts_of (reply_of r [])).status) × (result.1 ≡ (parts_of (reply_of r [])).length) }
{
    match r {
        Reply::Written(n) => (0, n),
        Reply::Refused(n) => (n, 0),
        _ => (0, 0),
    }
}

// Puts the first five bytes of the reply to a call that was lent a buffer.
pub fn head(out: &mut [u8], r: Reply) -> Option<usize>
    ensures { Puts (head_bytes (reply_of r [])) out.old result out.new }
{
    let (status, n) = told(r);
    let length = n.to_be_bytes();
    put(out, &[status], &length[4..])
}
