// The search for the links of objects whose types are all given: what tables by types and a query ask of them, as arrays by object,
// and the search over these.
#![tactic(auto)]

ghost use Rattle.std.specs.Prelude.{false, ℕ, ◌≤◌, is_some};
ghost use Rattle.growing.specs.Growth.{Ended};
ghost use Rattle.worlds.specs.Coherent.{Slotted};
ghost use Rattle.worlds.specs.Kept.{sheet};
ghost use Rattle.worlds.specs.Asked.{Sane, Solution, world_built};

use link_search::{Bounds, NetConstraints};
use objects::Objects;

mod columns;
mod fitting;
mod objects;
mod rows;

// Links of n objects with these types that the tables allow and the query asks for. The tables come one by one: `relaxing` asks with other
// lower limits and no singletons, and a `Tables` of these would have to copy the sources too, and prove their law, which no one reads here.
pub fn ends(
    targets: &[u32; 768],
    lows: &[u8; 768],
    highs: &[u8; 768],
    lines: &worlds::Lines,
    usable: u32,
    singles: u32,
    q: &worlds::Query,
    types: worlds::Types,
    n: u8,
) -> Option<worlds::Site>
    requires { Slotted lines.now × Sane q.now × (n ≤ 8) }
    ensures { Ended (Solution (sheet usable singles targets.now lows.now highs.now lines.now) q.now n) types.at n false (is_some result) (world_built n result) }
{
    let objects = Objects {
        types: &types,
        n,
        lines,
        q,
    };
    if !objects.types_fit(usable, singles) {
        return None;
    }
    let mut bounds = Bounds {
        must: q.must,
        may: objects.mays(targets),
    };
    if !rows::all_covered(&bounds) {
        return None;
    }
    let net = NetConstraints {
        rows: objects.rows(lows, highs),
        columns: objects.columns(),
        mirrors: objects.mirrors(),
        wholes: objects.wholes(),
    };
    let ok = link_search::links(&net, &mut bounds).is_ok();
    ok.then_some(worlds::Site {
        types: types.at,
        links: bounds.must,
    })
}
