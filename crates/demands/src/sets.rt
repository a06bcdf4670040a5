// Sets of types, as masks.
ghost use Rattle.std.specs.Prelude.{◌≡◌, List, ℕ, ◌<◌, ◌≤◌, get_or};
ghost use Rattle.laws.specs.Bits.{bit};
ghost use Rattle.demands.specs.Wishes.{available, present};

use laws::Mask;
use worlds::Types;

// The types of the first k objects.
pub(crate) fn types_present(types: &Types, k: u8) -> u32
    requires { k ≤ 8 }
    ensures { (t : ℕ) → bit t result ≡ present types.now.at k t }
{
    (0..k).fold(0u32, |mask, o| mask.with(types.of(o)))
}

// The types that one more object can have, where `here` are the types of the first k.
pub(crate) fn types_free(usable: u32, singles: u32, forb: u32, here: u32) -> u32
    ensures { (types : List ℕ) (k : ℕ) → ((t : ℕ) → bit t here ≡ present types k t) → (t : ℕ) → bit t result ≡ available usable singles forb types k t }
{
    usable.minus(forb).minus(singles & here)
}
