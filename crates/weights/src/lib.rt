// Counting by types alone: the links that rows ask for have room in columns, in mirrored rows and in parts. Where the first objects of a
// site ask for more than they have room for, further objects must have room for the rest.
#![tactic(auto)]

ghost use Rattle.std.specs.Prelude.{IfSome, ◌≡◌, true, ℕ, ◌<◌, ◌≤◌, ◌+◌, ◌*◌, get_or};
ghost use Rattle.laws.specs.Bits.{bit};
ghost use Rattle.worlds.specs.Asked.{Sane};
ghost use Rattle.worlds.specs.Lined.{zero_whole};
ghost use Rattle.weights.specs.Numbers.{in_mask, limit_at, number_at, number_by, whole_low, whole_row};
ghost use Rattle.weights.specs.Scales.{Fair, column_least, column_most, columns_scale, mirror_scale, row_least, row_most, rows_scale, whole_scale};
ghost use Rattle.weights.specs.Sums.{sum};
ghost use Rattle.weights.specs.Weigh.{Gained, Gains, Lacks, Short};

use laws::Mask;
use worlds::{Column, ColumnLimits, Mirror, Query, RowLimits, Tables, Types, Whole};

// At least c of the further objects, where c is not 0, have types of the mask g.
#[derive(Clone, Copy)]
pub struct Shortage {
    pub g: u32,
    pub c: u8,
}

// What is counted, by one of the lines: what asks for links, against what has room for them.
#[derive(Clone, Copy)]
pub enum Way {
    // Rows of a column's sources against the column, and the column against these.
    Rows,
    Columns,
    // By a mirror, rows against the rows back, and these against those.
    There,
    Back,
    // Wholes against parts, by all compositions together.
    Wholes,
}

// What the number of a type is.
#[derive(Clone, Copy)]
enum Count {
    // If all targets in the slot are of `to`, the lower limit there, or `limit` where that is larger.
    Low { to: u32 },
    // The upper limit in the slot, or `limit` where that is smaller.
    High,
    // `limit`.
    Flat,
    // The largest lower limit for links to parts; in the slot, `limit` where that is larger.
    Parts,
}

// A number for each type of the mask; the others have 0. For the first object `first` stands for `limit`. That the slot is below 32 is no
// part of it: the definitions (specs/Scales) make weights of numbers alone, and each would have to bring the proof.
#[derive(Clone, Copy)]
struct Weight {
    count: Count,
    mask: u32,
    slot: u8,
    limit: u8,
    first: u8,
}

// The numbers a of all objects are together not above the numbers b.
#[derive(Clone, Copy)]
struct Scale {
    a: Weight,
    b: Weight,
}

// What is asked of the first object besides the tables.
#[derive(Clone, Copy)]
struct Own {
    row: RowLimits,
    column: ColumnLimits,
}

// Types for which one number is above another, and by how much at most.
#[derive(Clone, Copy)]
struct Gain {
    g: u32,
    most: u8,
}

// ---- numbers

// How many links to parts an object of type t has at least by line j.
fn whole_row(tables: &Tables, slot: u8, limit: u8, t: u8, j: usize) -> u8
    requires { (t < 24) × (j < 16) }
    ensures { result ≡ whole_row tables.now.targets tables.now.lows tables.now.lines.wholes slot limit t j }
{
    let whole = tables.lines.wholes[j];
    let x = laws::place(t, whole.slot);
    let low = tables.lows[x];
    let counts = whole.from.has(u32::from(t)) & tables.targets[x].is_inside(whole.to);
    type_tables::pick(
        counts,
        type_tables::pick(slot == whole.slot, low.max(limit), low),
        0,
    )
}

// The largest of these.
fn whole_low(tables: &Tables, slot: u8, limit: u8, t: u8) -> u8
    requires { t < 24 }
    ensures { result ≡ whole_low tables.now.targets tables.now.lows tables.now.lines.wholes slot limit t 16 }
{
    (0..16).fold(0, |n: u8, j| n.max(whole_row(tables, slot, limit, t, j)))
}

// The number of type t.
fn number_of(tables: &Tables, w: Weight, limit: u8, t: u8) -> u8
    requires { (t < 24) × (w.slot < 32) }
    ensures { result ≡ number_by tables.now.targets tables.now.lows tables.now.highs tables.now.lines.wholes w limit t }
{
    if !w.mask.has(u32::from(t)) {
        return 0;
    }
    let x = laws::place(t, w.slot);
    match w.count {
        Count::Low { to } => type_tables::pick(
            tables.targets[x].is_inside(to),
            tables.lows[x].max(limit),
            0,
        ),
        Count::High => tables.highs[x].min(limit),
        Count::Flat => limit,
        Count::Parts => whole_low(tables, w.slot, limit, t),
    }
}

// The limit for object o.
fn limit_at(w: Weight, o: u8) -> u8
    ensures { result ≡ limit_at w o }
{
    type_tables::pick(o == 0, w.first, w.limit)
}

// The numbers of the first k objects together. The objects come as `types` and `k`, here and below: the struct of the two,
// `demands::Start`, stands above this crate. A loop, whose invariant bounds the sum that the next number is added to.
fn total(tables: &Tables, w: Weight, types: Types, k: u8) -> u16
    requires { (k ≤ 8) × (w.slot < 32) }
    ensures { (result ≡ sum (λ o. number_at tables.now.targets tables.now.lows tables.now.highs tables.now.lines.wholes w o (get_or types.at o 0)) k) × (result ≤ 2040) }
{
    let mut n: u16 = 0;
    for o in 0..k {
        let t = types.at[usize::from(o)];
        n += u16::from(number_of(tables, w, limit_at(w, o), t));
    }
    n
}

// ---- what is lacking

// The gain with that of type t besides, whose numbers are x and y.
fn added(gain: Gain, t: u8, x: u8, y: u8) -> Gain
    requires { t < 24 }
    ensures { Gained gain result t x y }
{
    if y <= x {
        return gain;
    }
    Gain {
        g: gain.g.with(u32::from(t)),
        most: gain.most.max(y - x),
    }
}

// The types of the mask `free` for which b's number is above a's, and by how much at most. A loop, as no law stands in `laws` for a fold
// behind a `filter`.
fn gains(tables: &Tables, x: Scale, free: u32) -> Gain
    requires { (x.a.slot < 32) × (x.b.slot < 32) }
    ensures { Gains (number_by tables.now.targets tables.now.lows tables.now.highs tables.now.lines.wholes x.a x.a.limit) (number_by tables.now.targets tables.now.lows tables.now.highs tables.now.lines.wholes x.b x.b.limit) free 24 result }
{
    let a = x.a;
    let b = x.b;
    let mut gain = Gain { g: 0, most: 0 };
    for t in 0u8..24 {
        if free.has(u32::from(t)) {
            let m = number_of(tables, a, a.limit, t);
            let n = number_of(tables, b, b.limit, t);
            gain = added(gain, t, m, n);
        }
    }
    gain
}

// How many times `most` must be added to y so that it is not below x: 9 stands for all numbers above 8, as no world has so many objects. A
// loop that adds `most` once a turn: a `find` would multiply two variables, whose product has to be bounded.
fn times(x: u16, y: u16, most: u8) -> u8
    requires { (y < x) × (y ≤ 2040) }
    ensures { (0 < result) × ((e : ℕ) → e < result → y + most * e < x) }
{
    let mut z = y + u16::from(most);
    for c in 1u8..9 {
        if x <= z {
            return c;
        }
        z += u16::from(most);
    }
    9
}

// What is lacking where the numbers a of all objects are together not above the numbers b.
fn lacking(tables: &Tables, x: Scale, types: Types, k: u8, free: u32) -> Option<Shortage>
    requires { (0 < k) × (k ≤ 8) × (x.a.slot < 32) × (x.b.slot < 32) }
    ensures { Lacks (number_at tables.now.targets tables.now.lows tables.now.highs tables.now.lines.wholes x.a) (number_at tables.now.targets tables.now.lows tables.now.highs tables.now.lines.wholes x.b) types.at k free result }
{
    let a = x.a;
    let b = x.b;
    if a.mask == 0 {
        return None;
    }
    let m = total(tables, a, types, k);
    if m == 0 {
        return None;
    }
    let n = total(tables, b, types, k);
    if m <= n {
        return None;
    }
    let gain = gains(tables, x, free);
    Some(Shortage {
        g: gain.g,
        c: times(m, n, gain.most),
    })
}

// ---- pairs of weights

// How many targets the first object has in slot s at least.
fn row_least(own: Option<Own>, s: u8) -> u8
    ensures { result ≡ row_least own s }
{
    own.map_or(0, |a| type_tables::pick(a.row.slot == s, a.row.low, 0))
}

// How many it has at most; 255, above every number of links, where nothing limits it.
fn row_most(own: Option<Own>, s: u8) -> u8
    ensures { result ≡ row_most own s }
{
    own.map_or(255, |a| type_tables::pick(a.row.slot == s, a.row.high, 255))
}

// How many sources of the types `from` the first object has in slot s at least; only types of the mask `may` can have links to it.
fn column_least(own: Option<Own>, s: u8, from: u32, may: u32) -> u8
    ensures { result ≡ column_least own s from may }
{
    own.map_or(
        0,
        |a| type_tables::pick(
            (a.column.slot == s) & (a.column.from & may).is_inside(from),
            a.column.least,
            0,
        ),
    )
}

// How many it has at most.
fn column_most(own: Option<Own>, s: u8, from: u32, may: u32) -> u8
    ensures { result ≡ column_most own s from may }
{
    own.map_or(
        255,
        |a| type_tables::pick(
            (a.column.slot == s) & (from & may).is_inside(a.column.from),
            a.column.most,
            255,
        ),
    )
}

// Rows of a column's sources against the column.
fn rows_scale(own: Option<Own>, column: Column, may: u32) -> Scale
    ensures { result ≡ rows_scale own column.slot column.from column.to column.high may }
{
    Scale {
        a: Weight {
            count: Count::Low { to: column.to },
            mask: column.from,
            slot: column.slot,
            limit: 0,
            first: row_least(own, column.slot),
        },
        b: Weight {
            count: Count::Flat,
            mask: column.to,
            slot: column.slot,
            limit: column.high,
            first: column
                .high
                .min(column_most(own, column.slot, column.from, may)),
        },
    }
}

// A column against the rows of its sources.
fn columns_scale(own: Option<Own>, column: Column, may: u32) -> Scale
    ensures { result ≡ columns_scale own column.slot column.from column.to column.low may }
{
    Scale {
        a: Weight {
            count: Count::Flat,
            mask: column.to,
            slot: column.slot,
            limit: column.low,
            first: column
                .low
                .max(column_least(own, column.slot, column.from, may)),
        },
        b: Weight {
            count: Count::High,
            mask: column.from,
            slot: column.slot,
            limit: 255,
            first: row_most(own, column.slot),
        },
    }
}

// Rows of a mirror's sources against the rows back.
fn mirror_scale(own: Option<Own>, mirror: Mirror, may: u32) -> Scale
    ensures { result ≡ mirror_scale own mirror.right mirror.left mirror.from mirror.to may }
{
    Scale {
        a: Weight {
            count: Count::Low { to: mirror.to },
            mask: mirror.from,
            slot: mirror.right,
            limit: 0,
            first: row_least(own, mirror.right),
        },
        b: Weight {
            count: Count::High,
            mask: mirror.to,
            slot: mirror.left,
            limit: 255,
            first: row_most(own, mirror.left).min(column_most(own, mirror.right, mirror.from, may)),
        },
    }
}

// Rows of wholes, of the types `from`, against parts, of the types `to`.
fn whole_scale(own: Option<Own>, from: u32, to: u32) -> Scale
    ensures { result ≡ whole_scale own from to }
{
    let (slot, first) = own.map_or((0, 0), |a| (a.row.slot, a.row.low));
    Scale {
        a: Weight {
            count: Count::Parts,
            mask: from,
            slot,
            limit: 0,
            first,
        },
        b: Weight {
            count: Count::Flat,
            mask: to,
            slot,
            limit: 1,
            first: 1,
        },
    }
}

// The types of all wholes, and of all parts: both by one loop over the lines.
fn joined(wholes: &[Whole; 16]) -> (u32, u32)
    ensures { (j t : ℕ) → j < 16 → bit t (get_or wholes.now j zero_whole).to ≡ true → bit t result.1 ≡ true }
{
    let mut from: u32 = 0;
    let mut to: u32 = 0;
    for whole in wholes {
        from |= whole.from;
        to |= whole.to;
    }
    (from, to)
}

// The types of objects that may have links in the slot to an object of type t.
fn sources_of(tables: &Tables, t: u8, slot: u8) -> u32
    requires { (t < 24) × (slot < 32) }
    ensures { result ≡ get_or tables.now.sources (t * 32 + slot) 0 }
{
    tables.sources[laws::place(t, slot)]
}

// The pair of one way, by line j, where the first object has type t.
fn scale_of(tables: &Tables, own: Option<Own>, t: u8, way: Way, j: usize) -> Scale
    requires { IfSome own (λ a. a.row.slot < 32) × (t < 24) × (j < 16) }
    ensures { Fair tables.now.sources tables.now.lines own t result }
{
    let column = tables.lines.columns[j];
    let mirror = tables.lines.mirrors[j];
    match way {
        Way::Rows => rows_scale(own, column, sources_of(tables, t, column.slot)),
        Way::Columns => columns_scale(own, column, sources_of(tables, t, column.slot)),
        Way::There => mirror_scale(own, mirror, sources_of(tables, t, mirror.right)),
        Way::Back => {
            let back = Mirror {
                right: mirror.left,
                left: mirror.right,
                from: mirror.to,
                to: mirror.from,
            };
            mirror_scale(own, back, sources_of(tables, t, back.right))
        }
        Way::Wholes => {
            let (from, to) = joined(&tables.lines.wholes);
            whole_scale(own, from, to)
        }
    }
}

// What the first k objects of the given types lack, counted in one way by line j, of which only the remainder by 16 counts.
pub fn weigh(
    tables: &Tables,
    q: &Query,
    types: Types,
    k: u8,
    free: u32,
    way: Way,
    j: usize,
) -> Option<Shortage>
    requires { Sane q.now × (q.now.seeds ≤ k) × (k ≤ 8) }
    ensures { Short tables.now.targets tables.now.lows tables.now.highs tables.now.lines q.now types.at k free result }
{
    if k == 0 {
        return None;
    }
    let own = (0 < q.seeds).then_some(Own {
        row: q.row,
        column: q.column,
    });
    let x = scale_of(tables, own, types.at[0], way, j % 16);
    lacking(tables, x, types, k, free)
}
