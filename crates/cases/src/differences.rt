// Two diagrams compared: the reply, and of a witness, as it is handed out, its length, the replies of judge to it under the old
// and the new diagram, and its bytes where they are asked for.
use crate::{Case, STDOUT, ahead, behind, decode, pair};
use bench::{Bench, Replied, Reply};

// A colon, and bytes as pairs of hexadecimal digits, each behind a blank.
fn print_bytes(file: &[u8]) {
    io::write_all(STDOUT, b":");
    for b in file {
        io::write_all(STDOUT, b" ");
        io::print_hex(STDOUT, u64::from(*b), 2);
    }
}

// The number in a reply: a rule or a length; 0 where there is none.
fn number_in(r: Reply) -> usize {
    match r {
        Reply::Rule(n) => usize::from(n),
        Reply::Written(n) => n,
        _ => 0,
    }
}

// A file's length, and the lowest rule that it breaks under the old and under the new diagram.
fn print_witness(b: Bench, file: &[u8]) {
    let old = b.judge(0, file).reply;
    let new = b.judge(1, file).reply;
    io::write_all(STDOUT, b", ");
    io::print_decimal(STDOUT, file.len() as u64);
    io::write_all(STDOUT, b" bytes, old ");
    io::print_decimal(STDOUT, number_in(old) as u64);
    io::write_all(STDOUT, b", new ");
    io::print_decimal(STDOUT, number_in(new) as u64);
}

// What compare finds; a witness is handed out into space.
fn print_difference(b: Bench, bound: u8, bytes: bool, space: &mut [u8]) {
    let c = b.compare(bound);
    let Reply::Difference(n) = c.reply else {
        io::write_all(STDOUT, b"no difference");
        return;
    };
    io::write_all(STDOUT, b"difference ");
    io::print_decimal(STDOUT, u64::from(n));
    let found = c.bench;
    let written = found.hand_out(space).reply;
    let file = laws::front(space, number_in(written));
    print_witness(found, file);
    if bytes {
        print_bytes(file);
    }
}

// Loads the diagram whose file a row of pairs is.
fn load(b: Bench, place: u8, s: &[u8], space: &mut [u8]) -> Replied {
    let n = decode(s, space);
    b.load(place, laws::front(space, n))
}

// A bound and, each behind a slash, the old and the new diagram file.
pub fn run_compare(c: Case<'_>, bytes: bool, space: &mut [u8]) {
    let bound = pair(laws::byte(c.body, 1), laws::byte(c.body, 2));
    let files = behind(c.line, b'/');
    let b = bench::fresh();
    let old = load(b, 0, ahead(files), space);
    let new = load(old.bench, 1, behind(files, b'/'), space);
    if matches!((old.reply, new.reply), (Reply::Done, Reply::Done)) {
        c.print_name(b"compare, ");
        print_difference(new.bench, bound, bytes, space);
        io::write_all(STDOUT, b"\n");
    }
}
