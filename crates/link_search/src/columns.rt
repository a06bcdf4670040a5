// The limits of columns: how many sources a target has by a role.
ghost use Rattle.std.specs.Prelude.{◌<◌};
ghost use Rattle.laws.specs.Bits.{Marks};
ghost use Rattle.link_search.specs.Nets.{net_of};
ghost use Rattle.link_search.specs.Families.{Columns, source};
ghost use Rattle.link_search.specs.Answers.{ColumnSaid, Looked};

use crate::{Bounds, Column, NoNet, Spot, judge};
use laws::Mask;

impl Column {
    // Which of its objects have p in their row of its slot.
    fn sources(&self, rows: &[u8; 256], p: u8) -> u8
        requires { p < 8 }
        ensures { Marks (source self.now (net_of rows.now) p) 8 result }
    {
        laws::mask_of(
            8,
            |o| self.from.has(o) & records::is_linked(rows, o, self.slot, p),
        )
    }

    // Target p, as `judge`: the bit is an object whose link to p may stand.
    fn judge_target(&self, bounds: &Bounds, p: u8) -> Result<Option<u8>, NoNet>
        requires { p < 8 }
        ensures { ColumnSaid self.now bounds.now.must bounds.now.may p result }
    {
        let limits = self.limits[usize::from(p)];
        if (limits.low == 0) & (8 <= limits.high) {
            return Ok(None);
        }
        judge(
            self.sources(&bounds.must, p),
            self.sources(&bounds.may, p),
            limits,
        )
    }
}

// A look at the columns.
pub(crate) fn look_columns(columns: &[Column; 17], bounds: &Bounds) -> Result<Option<Spot>, NoNet>
    ensures { Looked (Columns columns.now) bounds.now.must bounds.now.may result }
{
    let mut best = None;
    for column in columns {
        for target in 0u8..8 {
            if let Some(o) = column.judge_target(bounds, target)? {
                let row = laws::place(o, column.slot);
                best = Some(Spot { row, target });
            }
        }
    }
    Ok(best)
}
