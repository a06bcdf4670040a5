// Wholes: at most one object has a target as a part, by all compositions together.
ghost use Rattle.std.specs.Prelude.{◌≡◌, ◌<◌};
ghost use Rattle.laws.specs.Bounded.{tally};
ghost use Rattle.link_search.specs.Nets.{net_of};
ghost use Rattle.link_search.specs.Families.{part, whole};
ghost use Rattle.link_search.specs.Answers.{WholesSaid};

use crate::{NoNet, Whole};
use laws::Mask;

impl Whole {
    // Whether o has p as a part: as `masks::Role::is_whole_by`, said of a net.
    fn has_part(&self, rows: &[u8; 256], p: u8, o: u8) -> bool
        requires { (p < 8) × (o < 8) }
        ensures { result ≡ part self.now (net_of rows.now) p o }
    {
        self.from.has(o) & self.to.has(p) & records::is_linked(rows, o, self.slot, p)
    }
}

// Whether o has p as a part by some composition.
fn is_whole(wholes: &[Whole; 16], rows: &[u8; 256], p: u8, o: u8) -> bool
    requires { (p < 8) × (o < 8) }
    ensures { result ≡ whole wholes.now (net_of rows.now) p o }
{
    wholes.iter().any(|whole| whole.has_part(rows, p, o))
}

// How many objects have p as a part.
fn count_wholes(wholes: &[Whole; 16], rows: &[u8; 256], p: u8) -> usize
    requires { p < 8 }
    ensures { result ≡ tally (whole wholes.now (net_of rows.now) p) 8 }
{
    (0u8..8).filter(|o| is_whole(wholes, rows, p, *o)).count()
}

// A look at the wholes. It never wants a bit: only what must stand can break the rule.
pub(crate) fn look_wholes(wholes: &[Whole; 16], must: &[u8; 256]) -> Result<(), NoNet>
    ensures { WholesSaid wholes.now must.now result }
{
    if (0u8..8).any(|p| 1 < count_wholes(wholes, must, p)) {
        return Err(NoNet);
    }
    Ok(())
}
