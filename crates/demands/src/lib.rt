// Which types one more object must have: what a search by types asks before it looks at links.
#![tactic(auto)]

ghost use Rattle.std.specs.Prelude.{◌≤◌, is_none, ltb, unwrap_or};
ghost use Rattle.growing.specs.Growth.{Demanded};
ghost use Rattle.worlds.specs.Kept.{sheet_of};
ghost use Rattle.worlds.specs.Asked.{Sane, Solution};

use worlds::{Query, Tables, Types};

mod columns;
mod needs;
mod own;
mod parts;
mod rows;
mod sets;
mod singles;
mod weighing;

// The types of the first k objects, how many more there can be, and the types that these can have. The tables and the query are handed on
// apart: what a need sharpens is said of all worlds that start so (`Sharpens`), whichever tables allow them, and a query is `Sane` where it
// is read.
#[derive(Clone, Copy)]
struct Start {
    types: Types,
    k: u8,
    spare: u8,
    free: u32,
    ghost few: { k ≤ 8 },
}

// What the first k objects, whose types are given, demand of one more object in a world of n objects: a type of the mask. None: no world
// that is looked for starts with these. In the modules needs sharpen a wish one after the other by loops with `?`: of `try_fold` no law
// stands in `laws`.
pub fn demand(tables: &Tables, q: &Query, types: Types, k: u8, forb: u32, n: u8) -> Option<u32>
    requires { Sane q.now × (q.now.seeds ≤ k) × (k ≤ n) × (n ≤ 8) }
    ensures { Demanded (Solution (sheet_of tables.now) q.now n) 24 types.at k forb n (is_none result) (ltb k n) (unwrap_or result 0) }
{
    let here = sets::types_present(&types, k);
    let free = sets::types_free(tables.usable, tables.singles, forb, here);
    let s = Start {
        types,
        k,
        spare: n - k,
        free,
    };
    let single = singles::with_singles(free, s, tables.singles, here)?;
    let row = rows::with_rows(single, s, tables, &q.shut)?;
    let column = columns::with_columns(row, s, tables)?;
    let part = parts::with_wholes(column, s, tables)?;
    let own = own::with_own(part, s, tables, q)?;
    weighing::with_weights(own, s, here, tables, q)
}
