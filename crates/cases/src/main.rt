// Runs worked cases: each line of standard input asks for one, and each line of standard output is its reply.
// A line is a letter for what is asked, a blank, the case's name up to a colon, and bytes as pairs of hexadecimal digits, each
// behind a blank; where two files are asked for, a blank and a slash stand between them. Before two diagrams to compare stands
// the bound, one byte, with a blank and a slash behind it.
#![tactic(auto)]

mod differences; // differences.rt: two diagrams compared
mod rows; // rows.rt: a row of calls

ghost use Rattle.std.specs.Prelude.{◌≡◌, ◌<◌, ◌≤◌, length};

use fields::Refusal;

// Where the replies go, piece by piece with `io`: `print!` asks for a handle in every function and gives a Result that no one
// would read here.
const STDOUT: i32 = 1;

// How many bytes stand before the first b, or all. `rows` has the same with `!=`: one line each.
fn before(s: &[u8], b: u8) -> usize
    ensures { result ≤ length s.now }
{
    s.iter().position(|x| *x == b).unwrap_or(s.len())
}

// What a hexadecimal digit stands for; 0 for any other byte.
fn digit(b: u8) -> u8
    ensures { result < 16 }
{
    match b {
        b'0'..=b'9' => b - b'0',
        b'A'..=b'F' => b - b'A' + 10,
        _ => 0,
    }
}

fn pair(high: u8, low: u8) -> u8 {
    digit(high) * 16 + digit(low)
}

// How many pairs there are, at most what there is room for.
fn pairs(s: &[u8], out: &[u8]) -> usize
    ensures { (result ≤ length out.now) × (result ≤ length s.now) }
{
    (s.len() / 3).min(out.len())
}

// The bytes of a row of pairs at the front of out; how many they are. By index: of a slice that an adapter of `iter_mut` has written, as
// `zip`, the library says nothing, and its length is promised.
fn decode(s: &[u8], out: &mut [u8]) -> usize
    ensures { result ≤ length out.new }
{
    let n = pairs(s, out);
    let mut t = s;
    for i in 0..n {
        out[i] = pair(laws::byte(t, 1), laws::byte(t, 2));
        t = laws::past(t, 3);
    }
    n
}

// What stands behind the first b.
fn behind(s: &[u8], b: u8) -> &[u8] {
    laws::past(laws::past(s, before(s, b)), 1)
}

// What stands before the first slash.
fn ahead(s: &[u8]) -> &[u8] {
    laws::front(s, before(s, b'/'))
}

// A line: all of it, its letter, its name, and what stands behind the colon. Files are parted by the first slash of the line, a name's too.
#[derive(Clone, Copy)]
struct Case<'a> {
    line: &'a [u8],
    letter: u8,
    name: &'a [u8],
    body: &'a [u8],
}

impl<'a> Case<'a> {
    fn of(line: &'a [u8]) -> Self {
        Case {
            line,
            letter: laws::byte(line, 0),
            name: laws::past(laws::front(line, before(line, b':')), 2),
            body: behind(line, b':'),
        }
    }

    // Prints what is asked for and the case's name.
    fn print_name(&self, what: &[u8]) {
        io::write_all(STDOUT, what);
        io::write_all(STDOUT, self.name);
        io::write_all(STDOUT, b": ");
    }

    // The same with a number behind it, on a line. `as u64` loses nothing of a usize here and in the modules, and no From turns one into
    // it.
    fn say(&self, what: &[u8], reply: usize) {
        self.print_name(what);
        io::print_decimal(STDOUT, reply as u64);
        io::write_all(STDOUT, b"\n");
    }

    // What reading a file gave: its refusal, 0 where it is accepted.
    fn print_refusal<T: Copy>(&self, what: &[u8], r: Result<T, Refusal>) {
        self.say(
            what,
            r.err().map_or(0, |refusal| usize::from(refusal.number())),
        );
    }
}

// A diagram file, and its refusal.
fn run_diagram(c: Case<'_>, space: &mut [u8]) {
    let n = decode(c.body, space);
    c.print_refusal(b"diagram, ", loading::read_diagram(laws::front(space, n)));
}

// A record file, and its refusal.
fn run_record(c: Case<'_>, space: &mut [u8]) {
    let n = decode(c.body, space);
    c.print_refusal(b"record, ", checking::check_record(laws::front(space, n)));
}

// The replies of judge and evaluate to a record file under a diagram: 0 where it is refused; its refusal is what `run_record` prints.
fn print_replies(c: Case<'_>, d: diagrams::ReadDiagram, file: &[u8]) {
    let rule = judging::judge(d, file).unwrap_or(0);
    let first = evaluating::evaluate(d, file).unwrap_or(0);
    c.say(b"judge, ", usize::from(rule));
    c.say(b"evaluate, ", first);
}

// A diagram file and, behind a slash, a record file.
fn run_site(c: Case<'_>, space: &mut [u8], other: &mut [u8]) {
    let first = laws::past(ahead(c.line), before(c.line, b':'));
    let n = decode(laws::past(first, 1), space);
    let k = decode(behind(c.line, b'/'), other);
    if let Ok(d) = loading::read_diagram(laws::front(space, n)) {
        print_replies(c, d, laws::front(other, k));
    }
}

// A diagram file, the number of its compiled predicates, and their bytes, seven of each.
fn run_compile(c: Case<'_>, space: &mut [u8]) {
    let n = decode(c.body, space);
    if let Ok(d) = loading::read_diagram(laws::front(space, n)) {
        let compiled = compiling::compile(d);
        c.print_name(b"compile, ");
        io::print_decimal(STDOUT, compiled.number as u64);
        let list = compiled.list;
        for b in laws::front(&list, compiled.number.min(64) * 7) {
            io::write_all(STDOUT, b" ");
            io::print_decimal(STDOUT, u64::from(*b));
        }
        io::write_all(STDOUT, b"\n");
    }
}

// One line: a diagram file (D), a record file (R), a record file under a diagram (J), a diagram to compile (C), or two diagrams to
// compare (F), where there is only one witness also for its bytes (W), or a row of calls (B).
fn run(line: &[u8], space: &mut [u8], other: &mut [u8], replies: &mut [u8]) {
    let c = Case::of(line);
    match c.letter {
        b'D' => run_diagram(c, space),
        b'R' => run_record(c, space),
        b'C' => run_compile(c, space),
        b'J' => run_site(c, space, other),
        b'F' => differences::run_compare(c, false, space),
        b'W' => differences::run_compare(c, true, space),
        b'B' => rows::run_row(c, space, replies),
        _ => {}
    }
}

// All lines.
fn run_all(text: &[u8], space: &mut [u8], other: &mut [u8], replies: &mut [u8]) {
    for line in text.split(|b| *b == b'\n') {
        run(line, space, other, replies);
    }
}

// Room for standard input. The promise gives the length alone, which lending it as a slice needs: with the zeros in sight of `main` the
// check would count them.
fn room() -> [u8; 524288]
    ensures { 524288 ≡ length result }
{
    [0; 524288]
}

fn main() {
    let mut text = room();
    let n = io::read_full(0, &mut text);
    // Room for two files, and for the replies of a row of calls.
    let mut space = [0; 65536];
    let mut other = [0; 65536];
    let mut replies = [0; 262144];
    run_all(&text[..n], &mut space, &mut other, &mut replies);
}
