// Mirrors: a link by one role stands exactly when the link back by the other does.
ghost use Rattle.std.specs.Prelude.{◌<◌};
ghost use Rattle.link_search.specs.Families.{MirrorHolds, MirrorKept, Mirrors};
ghost use Rattle.link_search.specs.Answers.{Looked, Paired};

use crate::{Bounds, Mirror, NoNet, Spot};
use laws::Mask;

// Of a link and the link back, the one that is wanted.
#[derive(Clone, Copy)]
enum Side {
    There,
    Back,
}

// A link and the link back, each by what must stand and what may: where one must stand and not the other, the other is wanted.
fn pair(first: bool, may_first: bool, second: bool, may_second: bool) -> Result<Option<Side>, NoNet>
    ensures { Paired first may_first second may_second result }
{
    if first == second {
        return Ok(None);
    }
    if first & may_second {
        return Ok(Some(Side::Back));
    }
    if second & may_first {
        return Ok(Some(Side::There));
    }
    Err(NoNet)
}

impl Mirror {
    // Object o and object p.
    fn judge(&self, bounds: &Bounds, o: u8, p: u8) -> Result<Option<Spot>, NoNet>
        requires { (o < 8) × (p < 8) }
        ensures { Looked (λ w. MirrorHolds self.now w o p) bounds.now.must bounds.now.may result }
    {
        if !self.from.has(o) {
            return Ok(None);
        }
        if !self.to.has(p) {
            return Ok(None);
        }
        let wanted = pair(
            records::is_linked(&bounds.must, o, self.right, p),
            records::is_linked(&bounds.may, o, self.right, p),
            records::is_linked(&bounds.must, p, self.left, o),
            records::is_linked(&bounds.may, p, self.left, o),
        )?;
        Ok(wanted.map(|side| match side {
            Side::There => Spot {
                row: laws::place(o, self.right),
                target: p,
            },
            Side::Back => Spot {
                row: laws::place(p, self.left),
                target: o,
            },
        }))
    }

    // A look at all objects, up to the first bit that is wanted. By loops, here and below, which `?` leaves where there is no net:
    // `find_map` would carry that out as a value.
    fn look(&self, bounds: &Bounds) -> Result<Option<Spot>, NoNet>
        ensures { Looked (MirrorKept self.now) bounds.now.must bounds.now.may result }
    {
        for o in 0u8..8 {
            for p in 0u8..8 {
                if let Some(spot) = self.judge(bounds, o, p)? {
                    return Ok(Some(spot));
                }
            }
        }
        Ok(None)
    }
}

// A look at the mirrors, up to the first bit that is wanted.
pub(crate) fn look_mirrors(mirrors: &[Mirror; 16], bounds: &Bounds) -> Result<Option<Spot>, NoNet>
    ensures { Looked (Mirrors mirrors.now) bounds.now.must bounds.now.may result }
{
    for mirror in mirrors {
        if let Some(spot) = mirror.look(bounds)? {
            return Ok(Some(spot));
        }
    }
    Ok(None)
}
