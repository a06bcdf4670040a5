// A row of calls from the fresh bench: every byte of the room for replies afterwards. It holds EE everywhere before, so that what
// was not written shows; more than three equal bytes in a row are printed once, with a star and their number.
ghost use Rattle.std.specs.Prelude.{◌≤◌, length};

use crate::{Case, STDOUT, decode};

// How many bytes at the front are b.
fn alike(s: &[u8], b: u8) -> usize
    ensures { result ≤ length s.now }
{
    s.iter().position(|x| *x != b).unwrap_or(s.len())
}

fn print_runs(s: &[u8]) {
    let mut rest = s;
    while 0 < rest.len() {
        let b = laws::byte(rest, 0);
        let behind = laws::past(rest, 1);
        let k = alike(behind, b);
        io::write_all(STDOUT, b" ");
        io::print_hex(STDOUT, u64::from(b), 2);
        if 2 < k {
            io::write_all(STDOUT, b"*");
            io::print_decimal(STDOUT, alike(rest, b) as u64);
            rest = laws::past(behind, k);
        } else {
            rest = behind;
        }
    }
}

// The calls in bytes, and their replies.
pub fn run_row(c: Case<'_>, space: &mut [u8], replies: &mut [u8]) {
    let n = decode(c.body, space);
    replies.fill(0xEE);
    let m = replay::replay(laws::front(space, n), replies);
    c.print_name(b"row, ");
    io::print_decimal(STDOUT, m as u64);
    io::write_all(STDOUT, b":");
    print_runs(replies);
    io::write_all(STDOUT, b"\n");
}
