// The search for a world that a query asks for: first the types of the seeds, then one extra object after the other, of the types that
// a demand names, and at n objects the search for links.
#![tactic(auto)]

ghost use Rattle.std.specs.Prelude.{◌≡◌, true, ℕ, ◌<◌, ◌≤◌, is_some, set};
ghost use Rattle.growing.specs.Growth.{Grown, Nowhere};
ghost use Rattle.worlds.specs.Asked.{Answers, Sane, Solution, world_built};
ghost use Rattle.worlds.specs.Kept.{sheet_of};
ghost use Rattle.growth.specs.Wanted.{wanted};

mod wanted;

use crate::wanted::Wanted;
use laws::Mask;
use worlds::{Query, Site, Tables, Types};

// The types with t at place k. They come with k, how many are chosen, as `demands::demand` and the definition `Grown` take them: each step
// makes both anew. `grow` and `seed` cast to t: the library's conversions to a narrower number give a Result, and with it a path that is
// never taken.
fn put(types: Types, k: u8, t: u8) -> Types
    requires { (k < 8) × (t < 24) }
    ensures { result.at ≡ set types.at k t }
{
    let mut at = types.at;
    at[usize::from(k)] = t;
    Types { at }
}

// `grow` and `seed` go by loops: a closure for `find_map` that calls them stands in a cycle of calls, for which the check infers no
// promise; that of `grow` would change f besides.
impl Wanted<'_> {
    // One whose first k objects have the given types, and the others none of the types forb.
    fn grow(&self, types: Types, k: u8, forb: u32) -> Option<Site>
        requires { (self.now.q.now.seeds ≤ k) × (k ≤ self.now.n) }
        ensures { Grown (wanted self.now) types.at k forb self.now.n (is_some result) (world_built self.now.n result) }
    {
        let g = demands::demand(self.tables, self.q, types, k, forb, self.n)?;
        if k == self.n {
            let tables = self.tables;
            return leaves::ends(
                &tables.targets,
                &tables.lows,
                &tables.highs,
                &tables.lines,
                tables.usable,
                tables.singles,
                self.q,
                types,
                self.n,
            );
        }
        let mut f = forb;
        for t in 0u32..24 {
            if g.has(t) & !f.has(t) {
                if let Some(site) = self.grow(put(types, k, t as u8), k + 1, f) {
                    return Some(site);
                }
                f = f.with(t);
            }
        }
        None
    }

    // Whether the seeds alone cannot stand together. The tables one by one, as `leaves::ends` takes them: `relaxing` reads neither sources
    // nor singletons.
    fn is_stuck(&self, types: Types) -> bool
        ensures { result ≡ true → Nowhere (wanted self.now) types.at self.now.q.now.seeds self.now.q.now.never self.now.n }
    {
        let tables = self.tables;
        relaxing::is_stuck(
            &tables.targets,
            &tables.highs,
            &tables.lines,
            tables.usable,
            self.q,
            types,
        )
    }

    // One whose first k objects, which are seeds, have the given types: the types of the other seeds are tried first.
    fn seed(&self, types: Types, k: u8) -> Option<Site>
        requires { (k ≤ self.now.q.now.seeds) × (self.now.q.now.seeds ≤ self.now.n) }
        ensures { Grown (wanted self.now) types.at k 0 self.now.n (is_some result) (world_built self.now.n result) }
    {
        if k == self.q.seeds {
            if clashes::is_implied(self.tables, self.q, types, self.n) || self.is_stuck(types) {
                return None;
            }
            return self.grow(types, k, self.q.never);
        }
        let may = self.q.types[usize::from(k)];
        for t in 0u32..24 {
            if may.has(t) & self.tables.usable.has(t) {
                if let Some(site) = self.seed(put(types, k, t as u8), k + 1) {
                    return Some(site);
                }
            }
        }
        None
    }
}

// A world of n objects that the tables allow and the query asks for.
pub fn find(tables: &Tables, q: &Query, n: u8) -> Option<Site>
    requires { Sane q.now × (n ≤ 8) }
    ensures { Answers (Solution (sheet_of tables.now) q.now n) (is_some result) (world_built n result) }
{
    if n < q.seeds {
        return None;
    }
    Wanted { tables, q, n }.seed(Types { at: [0; 8] }, 0)
}
