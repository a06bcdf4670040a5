// The limits of rows: how many targets an object has by a role.
ghost use Rattle.link_search.specs.Families.{RowsFit};
ghost use Rattle.link_search.specs.Answers.{Looked};

use crate::{Bounds, Limits, NoNet, Spot, judge};

// A look at the rows. A loop, as in `look_columns`: all are looked at, since any can have no net, and the spot is the last one wanted.
pub(crate) fn look_rows(rows: &[Limits; 256], bounds: &Bounds) -> Result<Option<Spot>, NoNet>
    ensures { Looked (RowsFit rows.now) bounds.now.must bounds.now.may result }
{
    let mut best = None;
    for row in 0..256 {
        if let Some(target) = judge(bounds.must[row], bounds.may[row], rows[row])? {
            best = Some(Spot { row, target });
        }
    }
    Ok(best)
}
