// What is asked by associations: limits of columns, and the objects that count.
ghost use Rattle.std.specs.Prelude.{◌≡◌, ◌<◌, ◌≤◌, ◌&&◌, eqb, ltb};
ghost use Rattle.laws.specs.Bits.{bit};
ghost use Rattle.worlds.specs.Lined.{column_at, mirror_at, whole_at};
ghost use Rattle.leaves.specs.Fitting.{typed};
ghost use Rattle.leaves.specs.Arrays.{ColumnAsk, ColumnsAsk, LineAsk, MirrorAsk, MirrorsAsk, QueryAsk, WholeAsk, WholesAsk};

use crate::objects::Objects;
use laws::Mask;
use link_search::{Column, Limits, Mirror, Whole};

impl Objects<'_> {
    // A column with the same limits for all targets that it asks, one bit for each.
    fn column(&self, slot: u8, from: u32, asked: u8, limits: Limits) -> Column
        requires { slot < 32 }
        ensures { ColumnAsk slot from limits self.now.types.now.at self.now.n (λ p. bit p asked) result }
    {
        Column {
            slot,
            from: self.among(from),
            limits: std::array::from_fn(|p| {
                if asked.has(p as u8) {
                    limits
                } else {
                    Limits { low: 0, high: 8 }
                }
            }),
        }
    }

    // The column of association j.
    fn line_column(&self, j: usize) -> Column
        requires { j < 16 }
        ensures { LineAsk self.now.lines.now self.now.types.now.at self.now.n j result }
    {
        let c = self.lines.columns[j];
        let limits = Limits {
            low: c.low,
            high: c.high,
        };
        self.column(c.slot, c.from, self.among(c.to), limits)
    }

    // The query's column.
    fn query_column(&self) -> Column
        ensures { QueryAsk self.now.q.now self.now.types.now.at self.now.n result }
    {
        let c = self.q.column;
        let limits = Limits {
            low: c.least,
            high: c.most,
        };
        self.column(c.slot, c.from, u8::from(0 < self.q.seeds), limits)
    }

    // The columns of the associations, and the query's as the last one.
    pub(crate) fn columns(&self) -> [Column; 17]
        ensures { ColumnsAsk self.now.lines.now self.now.q.now self.now.types.now.at self.now.n result }
    {
        std::array::from_fn(|j| {
            if j < 16 {
                self.line_column(j)
            } else {
                self.query_column()
            }
        })
    }

    // The mirror of association j.
    fn mirror(&self, j: usize) -> Mirror
        requires { j < 16 }
        ensures { MirrorAsk self.now.lines.now self.now.types.now.at self.now.n j result }
    {
        let m = self.lines.mirrors[j];
        Mirror {
            right: m.right,
            left: m.left,
            from: self.among(m.from),
            to: self.among(m.to),
        }
    }

    // The mirrors of all associations.
    pub(crate) fn mirrors(&self) -> [Mirror; 16]
        ensures { MirrorsAsk self.now.lines.now self.now.types.now.at self.now.n result }
    {
        std::array::from_fn(|j| self.mirror(j))
    }

    // The wholes of association j.
    fn whole(&self, j: usize) -> Whole
        requires { j < 16 }
        ensures { WholeAsk self.now.lines.now self.now.types.now.at self.now.n j result }
    {
        let w = self.lines.wholes[j];
        Whole {
            slot: w.slot,
            from: self.among(w.from),
            to: self.among(w.to),
        }
    }

    // The wholes of all associations.
    pub(crate) fn wholes(&self) -> [Whole; 16]
        ensures { WholesAsk self.now.lines.now self.now.types.now.at self.now.n result }
    {
        std::array::from_fn(|j| self.whole(j))
    }
}
