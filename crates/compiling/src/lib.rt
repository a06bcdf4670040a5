// The compiler: the entries that a diagram in memory asks for, and their bytes. An association's index is below 16, so that
// `as u8` keeps it.
#![tactic(auto)]

ghost use Rattle.std.specs.Prelude.{◌≡◌, [], ◌∷◌, ◌+◌, ◌<◌, ◌≤◌};
ghost use Rattle.diagrams.specs.View.{association_in, upper_in};
ghost use Rattle.rules.specs.Compile.{entries_of, limited, row_of};
ghost use Rattle.rules.specs.Evaluate.{side_of};
ghost use Rattle.entries.specs.View.{Appends};
ghost use Rattle.compiling.specs.Table.{asked, entries_for, whole_for};
ghost use Rattle.compiling.specs.Compiled.{Compiles, Gives, bytes_to, written};

use diagrams::{Associations, ReadDiagram};
use entries::{Entries, Entry};

// The list is the reply's: 64 places of seven bytes each, of which `number` are entries.
#[derive(Clone, Copy)]
pub struct Compiled {
    pub number: usize,
    pub list: [u8; 448],
}

// Of each arrow, the kinds of its entries in order with their sides, kind 0 for none. Kinds and sides are numbers of the compiled
// record, and a row of fixed length with a kind for none is how the table of the definition reads.
const ROWS: [[(u8, u8); 3]; 5] = [
    [(0, 0), (0, 0), (0, 0)], // no arrow has the number 0
    [(1, 0), (3, 0), (0, 0)], // arrow 1
    [(1, 1), (3, 1), (0, 0)], // arrow 2
    [(1, 0), (1, 1), (5, 0)], // arrow 3
    [(1, 0), (1, 1), (5, 0)], // arrow 4
];

// ---- entries. The list, the associations and the index of one go through four functions: a struct of them would borrow the list for
// changes, and its contracts would say of that field what these say of `r`.

// One entry more, of a kind with limits: without an upper one it is the next kind, and up is 0.
fn push_limited(r: &mut Entries, kind: u8, association: u8, side: u8, low: u16, up: u16)
    requires { (r.old.number < 64) × ((kind < 4) × (side ≤ 1)) }
    ensures { Appends r.old r.new (limited kind association (side_of side) low (upper_in up) ∷ []) × (r.new.number ≡ r.old.number + 1) }
{
    let (kind, up) = if up == 65535 {
        (kind + 1, 0)
    } else {
        (kind, up)
    };
    r.push(Entry {
        kind,
        association,
        side,
        low,
        up,
    });
}

// What a place of the table asks for, of association i. Side 0 goes from the left end to the right one, side 1 back; rule 6 has the
// limits of the end that the side's links go to, rule 7 those of the end that they come from.
fn push_asked(r: &mut Entries, a: &Associations, i: usize, kind: u8, side: u8)
    requires { (r.old.number < 64) × ((i < 16) × (side ≤ 1)) }
    ensures { Appends r.old r.new (entries_for i (association_in a.now i) (asked kind side)) × (r.new.number ≤ r.old.number + 1) }
{
    let from = i * 2 + usize::from(side);
    let to = i * 2 + 1 - usize::from(side);
    match kind {
        0 => (),
        1 => push_limited(r, 1, i as u8, side, a.lows[to], a.ups[to]),
        5 => r.push(Entry::bare(5, i as u8)),
        _ => push_limited(r, 3, i as u8, side, a.lows[from], a.ups[from]),
    }
}

// What the row of association i's arrow asks for.
fn push_row(r: &mut Entries, a: &Associations, i: usize)
    requires { (r.old.number < 62) × ((i < 16) × ((association_in a.now i).arrow < 5)) }
    ensures { Appends r.old r.new (entries_for i (association_in a.now i) (row_of (association_in a.now i))) × (r.new.number ≤ r.old.number + 3) }
{
    let arrow = usize::from(a.arrows[i]);
    let row = &ROWS[arrow];
    for (kind, side) in row {
        push_asked(r, a, i, *kind, *side);
    }
}

// Kind 6 of association i, if it is a composition.
fn push_whole(r: &mut Entries, a: &Associations, i: usize)
    requires { (r.old.number < 64) × (i < 16) }
    ensures { Appends r.old r.new (whole_for i (association_in a.now i)) × (r.new.number ≤ r.old.number + 1) }
{
    if a.forms[i] == 1 {
        r.push(Entry::bare(6, i as u8));
    }
}

// The entries of association i: its row's, and kind 6 last.
fn push_association(r: &mut Entries, a: &Associations, i: usize)
    requires { (r.old.number < 61) × ((i < 16) × ((association_in a.now i).arrow < 5)) }
    ensures { Appends r.old r.new (entries_of i (association_in a.now i)) × (r.new.number ≤ r.old.number + 4) }
{
    push_row(r, a, i);
    push_whole(r, a, i);
}

// The entries of a diagram, association by association.
pub fn compile_entries(d: ReadDiagram) -> Entries
    ensures { Compiles d.stored result }
{
    let mut r = Entries::none();
    for i in 0..d.stored.associations.count {
        push_association(&mut r, &d.stored.associations, i);
    }
    r
}

// ---- bytes

// The bytes of entry i into its place.
fn put_entry(list: &mut [u8; 448], e: &Entries, i: usize)
    requires { (i < 64) × (list.old ≡ written e.now i) }
    ensures { list.new ≡ written e.now (i + 1) }
{
    let entry = e.list[i];
    let low = fields::two_bytes(entry.low);
    let up = fields::two_bytes(entry.up);
    list[i * 7..i * 7 + 7].copy_from_slice(&[
        entry.kind,
        entry.association,
        entry.side,
        low[0],
        low[1],
        up[0],
        up[1],
    ]);
}

// The 64 entries, seven bytes each: by index, as the definition `bytes_to` joins them.
pub fn list_bytes(e: Entries) -> [u8; 448]
    ensures { result ≡ bytes_to e 64 }
{
    let mut list = [0u8; 448];
    for i in 0..64 {
        put_entry(&mut list, &e, i);
    }
    list
}

// The number of a diagram's entries, and their list.
pub fn compile(d: ReadDiagram) -> Compiled
    ensures { Gives d.stored result }
{
    let e = compile_entries(d);
    let list = list_bytes(e);
    Compiled {
        number: e.number,
        list,
    }
}
