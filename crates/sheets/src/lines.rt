// What a diagram asks by associations. The left end of association j is end j * 2, the right one j * 2 + 1. An association past the last
// asks nothing.
ghost use Rattle.std.specs.Prelude.{◌≡◌, ℕ, ◌*◌, ◌+◌, ◌<◌, ◌≤◌};
ghost use Rattle.sheets.specs.LinesBy.{LinesIn, column_by, end_if, mirror_by, whole_by};

use crate::Ends;
use worlds::{Column, Mirror, Whole};

// The right end of association j, or the left one. `right` is the test of the arrow itself (`counted_right`), as in the definition.
fn end_if(right: bool, j: usize) -> usize
    requires { j < 16 }
    ensures { (result ≡ end_if right j) × (result < 32) }
{
    if right { j * 2 + 1 } else { j * 2 }
}

// What association j asks by rule 7. Its limits stand also where it asks nothing, as the definition has them. What asks nothing is spelled
// out, here and below: its `high` is 8, so that a derived `Default` would serve two of the three.
fn column_of(ends: &Ends, j: usize) -> Column
    requires { j < 16 }
    ensures { result ≡ column_by ends.now.sets ends.now.slots ends.now.asked.now.arrows ends.now.asked.now.lows ends.now.asked.now.ups ends.now.asked.now.count j }
{
    if ends.asked.count <= j {
        return Column {
            slot: 0,
            from: 0,
            to: 0,
            low: 0,
            high: 8,
        };
    }
    let arrow = ends.asked.arrows[j];
    let right = arrows::counted_right(arrow);
    let on = right | arrows::counted_left(arrow);
    let to = end_if(right, j);
    let from = end_if(!right, j);
    Column {
        slot: type_tables::pick(on, ends.slots[to], 0),
        from: type_tables::pick(on, ends.sets[from], 0),
        to: type_tables::pick(on, ends.sets[to], 0),
        low: type_tables::capped(9, ends.asked.lows[from]),
        high: type_tables::capped(8, ends.asked.ups[from]),
    }
}

// By rule 8.
fn mirror_of(ends: &Ends, j: usize) -> Mirror
    requires { j < 16 }
    ensures { result ≡ mirror_by ends.now.sets ends.now.slots ends.now.asked.now.arrows ends.now.asked.now.count j }
{
    if (j < ends.asked.count) & arrows::is_mirrored(ends.asked.arrows[j]) {
        return Mirror {
            right: ends.slots[j * 2 + 1],
            left: ends.slots[j * 2],
            from: ends.sets[j * 2],
            to: ends.sets[j * 2 + 1],
        };
    }
    Mirror {
        right: 0,
        left: 0,
        from: 0,
        to: 0,
    }
}

// By rule 9.
fn whole_of(ends: &Ends, j: usize) -> Whole
    requires { j < 16 }
    ensures { result ≡ whole_by ends.now.sets ends.now.slots ends.now.asked.now.forms ends.now.asked.now.count j }
{
    if (j < ends.asked.count) & (ends.asked.forms[j] == 1) {
        return Whole {
            slot: ends.slots[j * 2 + 1],
            from: ends.sets[j * 2],
            to: ends.sets[j * 2 + 1],
        };
    }
    Whole {
        slot: 0,
        from: 0,
        to: 0,
    }
}

// What each association asks.
pub fn lines_of(ends: &Ends) -> worlds::Lines
    ensures { LinesIn ends.now.sets ends.now.slots ends.now.asked.now.arrows ends.now.asked.now.forms ends.now.asked.now.lows ends.now.asked.now.ups ends.now.asked.now.count result }
{
    worlds::Lines {
        columns: std::array::from_fn(|j| column_of(ends, j)),
        mirrors: std::array::from_fn(|j| mirror_of(ends, j)),
        wholes: std::array::from_fn(|j| whole_of(ends, j)),
    }
}
