// A need of more objects, and how a wish is sharpened by it.
ghost use Rattle.std.specs.Prelude.{◌≡◌, Bool, Some, ℕ, ◌<◌, ◌≤◌};
ghost use Rattle.laws.specs.Bits.{bit};
ghost use Rattle.growing.specs.Demand.{candidates, extras};
ghost use Rattle.demands.specs.Wishes.{Limited, Sharpens};

use crate::Start;
use laws::Mask;

// At least c more objects have types of the mask g.
pub(crate) fn with_need(best: u32, s: Start, g: u32, c: u8) -> Option<u32>
    requires { 0 < c }
    ensures { Sharpens (λ w. c ≤ extras g s.k w) s (Some best) result }
{
    if g == 0 {
        return None;
    }
    if s.spare < c {
        return None;
    }
    if g.count_ones() < best.count_ones() {
        return Some(g);
    }
    Some(best)
}

// How many of the first objects have a type of the mask and are not among the objects `shut`.
fn count_candidates(s: Start, mask: u32, shut: u8) -> usize
    ensures { result ≡ candidates (λ t. bit t mask) (λ o. bit o shut) s.types.at s.k }
{
    (0..s.k)
        .filter(|o| mask.has(s.types.of(*o)) & !shut.has(*o))
        .count()
}

// At `low` to `high` objects something holds; these have types of the mask, and are not among the objects `shut`.
pub(crate) fn with_limits(
    best: u32,
    s: Start,
    mask: u32,
    shut: u8,
    low: u8,
    high: u8,
) -> Option<u32>
    ensures { Sharpens (λ w. (p : ℕ → Bool) × Limited low high mask shut p w) s (Some best) result }
{
    if low == 0 {
        return Some(best);
    }
    if high < low {
        return None;
    }
    let n = count_candidates(s, mask, shut);
    if usize::from(low) <= n {
        return Some(best);
    }
    // n is below `low` here, so that `as u8` keeps it.
    with_need(best, s, mask & s.free, low - n as u8)
}
