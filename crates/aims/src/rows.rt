// Rows: the links of each object go to types of the other diagram's masks, and their number lies within its limits.
ghost use Rattle.std.specs.Prelude.{◌≡◌, ℕ, ◌%◌, ◌/◌, ◌<◌, None, eqb, false};
ghost use Rattle.laws.specs.Bits.{bit};
ghost use Rattle.worlds.specs.Kept.{RowsKept};
ghost use Rattle.aims.specs.Finds.{Finds};
ghost use Rattle.aims.specs.Rows.{AllLinksAvoided, HighsKept, LowsKept, RowKept, RowTargetsKept};

use crate::search::Search;
use laws::Mask;
use worlds::{Others, Site};

// The type that the row at i speaks of, as a set. The library's conversions to a narrower number, here and at its slot, give a Result, and
// with it a path that is never taken.
fn type_at(i: usize) -> u32
    requires { i < 768 }
    ensures { (j : ℕ) → bit j result ≡ eqb j (i / 32) }
{
    queries::only((i / 32) as u32)
}

// Its slot.
fn slot_at(i: usize) -> u8
    ensures { (result ≡ i % 32) × (result < 32) }
{
    (i % 32) as u8
}

impl Search<'_> {
    // A link in slot s from an object of the types a to one of the types b.
    pub fn find_links(&self, s: u8, a: u32, b: u32) -> Option<Site>
        requires { s < 32 }
        ensures { Finds self.now (AllLinksAvoided s a b) result }
    {
        if let Some(site) = self.ask_links(s, a, b) {
            return Some(site);
        }
        self.ask_loops(s, queries::common(a, b))
    }

    // A link that row i of the other diagram does not allow. The row comes as i and `others`, here and below: a struct of the two would be
    // made for each of the 768 rows, and one number of it read.
    fn find_target(&self, i: usize, others: &Others) -> Option<Site>
        requires { i < 768 }
        ensures { Finds self.now (RowTargetsKept others.now.targets i) result }
    {
        let b = self.tables.targets[i].minus(others.targets[i]);
        if b == 0 {
            return None;
        }
        self.find_links(slot_at(i), type_at(i), b)
    }

    // Fewer links than row i of the other diagram asks for.
    fn find_low(&self, i: usize, others: &Others) -> Option<Site>
        requires { i < 768 }
        ensures { Finds self.now (LowsKept others.now.lows i) result }
    {
        let low = others.lows[i];
        if low <= self.tables.lows[i] {
            return None;
        }
        self.ask_rows(slot_at(i), type_at(i), 0, low - 1)
    }

    // More links than row i of the other diagram allows.
    fn find_high(&self, i: usize, others: &Others) -> Option<Site>
        requires { i < 768 }
        ensures { Finds self.now (HighsKept others.now.highs i) result }
    {
        let high = others.highs[i];
        if self.tables.highs[i] <= high {
            return None;
        }
        if 8 <= high {
            return None;
        }
        self.ask_rows(slot_at(i), type_at(i), high + 1, 8)
    }

    // Links that row i of the other diagram does not allow.
    fn find_row(&self, i: usize, others: &Others) -> Option<Site>
        requires { i < 768 }
        ensures { Finds self.now (RowKept others.now.targets others.now.lows others.now.highs i) result }
    {
        if let Some(site) = self.find_target(i, others) {
            return Some(site);
        }
        if let Some(site) = self.find_low(i, others) {
            return Some(site);
        }
        self.find_high(i, others)
    }

    // Whether row i of the other diagram asks for more than the searched diagram's own.
    fn is_new_row(&self, i: usize, others: &Others) -> bool
        requires { i < 768 }
        ensures { result ≡ false → Finds self.now (RowKept others.now.targets others.now.lows others.now.highs i) None }
    {
        if self.tables.targets[i].minus(others.targets[i]) != 0 {
            return true;
        }
        if self.tables.lows[i] < others.lows[i] {
            return true;
        }
        if others.highs[i] < self.tables.highs[i] {
            return true;
        }
        false
    }

    // Links that the other diagram does not allow. Most of the 768 rows ask for nothing more: the test passes over them, and a chain would
    // hand on an Option of a whole site for each.
    pub fn find_rows(&self, others: &Others) -> Option<Site>
        ensures { Finds self.now (RowsKept others.now.targets others.now.lows others.now.highs) result }
    {
        for i in 0..768 {
            if self.is_new_row(i, others) {
                if let Some(site) = self.find_row(i, others) {
                    return Some(site);
                }
            }
        }
        None
    }
}
