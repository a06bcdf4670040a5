// The search for a world that a diagram's tables allow and that does not keep another diagram's tables: a short list of queries.
#![tactic(auto)]

ghost use Rattle.std.specs.Prelude.{◌≡◌, false, ◌≤◌, is_some};
ghost use Rattle.worlds.specs.Kept.{KeepsOthers, sheet_of};
ghost use Rattle.worlds.specs.Asked.{Breaks, world_built};
ghost use Rattle.aims.specs.Finds.{Finds};
ghost use Rattle.aims.specs.Lines.{LinesKept};

// A search that finds nothing is followed by the next by `if let`, here and in the modules: a proof cannot cite what the closure of an
// `or_else` promises.

mod asks;
mod columns;
mod mirrors;
mod rows;
mod search;
mod singles;
mod wholes;

use crate::search::Search;
use worlds::{Lines, Others, Site, Tables};

impl Search<'_> {
    // Any world, where a singleton class is missing.
    fn find_any(&self, missing: bool) -> Option<Site>
        ensures { Finds self.now (λ _. missing ≡ false) result }
    {
        if missing { self.ask_any() } else { None }
    }

    // Links that the other diagram does not allow.
    fn find_lines(&self, others: &Lines) -> Option<Site>
        ensures { Finds self.now (LinesKept others.now) result }
    {
        if let Some(site) = self.find_columns(others) {
            return Some(site);
        }
        if let Some(site) = self.find_mirrors(others) {
            return Some(site);
        }
        self.find_wholes(others)
    }
}

// A world that does not keep what the other diagram asks.
pub fn find_break(tables: &Tables, others: &Others, n: u8) -> Option<Site>
    requires { n ≤ 8 }
    ensures { Breaks (sheet_of tables.now) (KeepsOthers others.now) n (is_some result) (world_built n result) }
{
    let search = &Search { tables, n };
    if let Some(site) = search.find_any(others.missing) {
        return Some(site);
    }
    if let Some(site) = search.ask_types(others.bad) {
        return Some(site);
    }
    if let Some(site) = search.find_singles(others.singles) {
        return Some(site);
    }
    if let Some(site) = search.find_rows(others) {
        return Some(site);
    }
    search.find_lines(&others.lines)
}
