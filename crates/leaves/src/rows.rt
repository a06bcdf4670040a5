// What is asked of rows: their limits, and the objects that they may go to. In this crate `as u8` is of numbers below 32: the library's
// conversion gives a Result, which here never fails.
ghost use Rattle.std.specs.Prelude.{◌≡◌, ℕ, ◌*◌, ◌<◌, ◌≤◌, get_or};
ghost use Rattle.leaves.specs.Arrays.{Mays, RowAsk, RowMay, RowsAsk, all_covered, covered, row_by, spot_of};

use crate::objects::Objects;
use laws::Mask;
use link_search::{Bounds, Limits};

impl Objects<'_> {
    // Where a table has row i.
    fn spot(&self, i: usize) -> usize
        requires { i < 256 }
        ensures { (result ≡ spot_of self.now.types.now.at i) × (result < 768) }
    {
        self.types.row((i / 32) as u8, (i % 32) as u8)
    }

    // The limit of row i by a table; d past the objects.
    fn row_by(&self, table: &[u8; 768], d: u8, i: usize) -> u8
        ensures { result ≡ row_by table.now self.now.types.now.at self.now.n d i }
    {
        if i < usize::from(self.n) * 32 {
            table[self.spot(i)]
        } else {
            d
        }
    }

    // The limits of row i: the tables', and the query's besides for the first seed's row.
    fn row(&self, lows: &[u8; 768], highs: &[u8; 768], i: usize) -> Limits
        ensures { RowAsk lows.now highs.now self.now.types.now.at self.now.n self.now.q.now i result }
    {
        let low = self.row_by(lows, 0, i);
        let high = self.row_by(highs, 8, i);
        let first = self.q.row;
        if (0 < self.q.seeds) & (i == usize::from(first.slot)) {
            return Limits {
                low: low.max(first.low),
                high: high.min(first.high),
            };
        }
        Limits { low, high }
    }

    // The limits of all rows.
    pub(crate) fn rows(&self, lows: &[u8; 768], highs: &[u8; 768]) -> [Limits; 256]
        ensures { RowsAsk lows.now highs.now self.now.types.now.at self.now.n self.now.q.now result }
    {
        std::array::from_fn(|i| self.row(lows, highs, i))
    }

    // The objects that row i may go to.
    fn may(&self, targets: &[u32; 768], i: usize) -> u8
        requires { i < 256 }
        ensures { RowMay targets.now self.now.types.now.at self.now.n self.now.q.now.shut i result }
    {
        if i < usize::from(self.n) * 32 {
            self.among(targets[self.spot(i)]).minus(self.q.shut[i])
        } else {
            0
        }
    }

    // The objects that each row may go to.
    pub(crate) fn mays(&self, targets: &[u32; 768]) -> [u8; 256]
        ensures { Mays targets.now self.now.types.now.at self.now.n self.now.q.now.shut result }
    {
        std::array::from_fn(|i| self.may(targets, i))
    }
}

// Each bit of a is one of b, as `covered` says it bit by bit; `Mask::is_inside` says it of the numbers.
fn is_covered(a: u8, b: u8) -> bool
    ensures { result ≡ covered a b }
{
    a.is_inside(b)
}

// Each link that must stand may.
pub(crate) fn all_covered(bounds: &Bounds) -> bool
    ensures { result ≡ all_covered bounds.now.must bounds.now.may }
{
    (0..256).all(|i| is_covered(bounds.must[i], bounds.may[i]))
}
