// Needs by singletons: each has exactly one object.
ghost use Rattle.std.specs.Prelude.{◌≡◌, Some, ℕ};
ghost use Rattle.laws.specs.Bits.{bit};
ghost use Rattle.worlds.specs.Kept.{SinglesKept};
ghost use Rattle.demands.specs.Wishes.{Sharpens, present};

use crate::Start;
use laws::Mask;

// One more object for each singleton that is not among the types `here` of the given objects.
pub(crate) fn with_singles(mut best: u32, s: Start, singles: u32, here: u32) -> Option<u32>
    requires { (t : ℕ) → bit t here ≡ present s.types.at s.k t }
    ensures { Sharpens (SinglesKept singles) s (Some best) result }
{
    let missing = singles.minus(here);
    if missing == 0 {
        return Some(best);
    }
    for t in 0u32..24 {
        if missing.has(t) {
            best = crate::needs::with_need(best, s, 0u32.with(t) & s.free, 1)?;
        }
    }
    Some(best)
}
