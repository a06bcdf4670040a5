// Sets of types, one bit for each.
ghost use Rattle.std.specs.Prelude.{◌≡◌, ℕ, ◌*◌, ◌<◌, ◌≤◌};
ghost use Rattle.laws.specs.Bits.{Marks, bit};
ghost use Rattle.laws.specs.Bounded.{all, any};
ghost use Rattle.sheets.specs.MasksBy.{fine_in, missing_in, single_in, usable_in};

use crate::Ends;
use crate::places::source_at;

// Declarations do not disagree in slot s of type t: 255 says that they do, in the table of what is due.
fn is_fine(dues: &[u8; 768], t: u8, s: u8) -> bool
    requires { (t < 24) × (s < 32) }
    ensures { result ≡ fine_in dues.now t s }
{
    dues[laws::place(t, s)] != 255
}

// In each slot.
fn is_possible(dues: &[u8; 768], t: u8) -> bool
    requires { t < 24 }
    ensures { result ≡ all (fine_in dues.now t) 32 }
{
    (0u8..32).all(|s| is_fine(dues, t, s))
}

// An object can have type t.
fn is_usable(kinds: &[u8; 24], dues: &[u8; 768], t: u8) -> bool
    requires { t < 24 }
    ensures { result ≡ usable_in kinds.now dues.now t }
{
    let kind = laws::byte(kinds, usize::from(t));
    diagrams::has_objects(kind) & is_possible(dues, t)
}

// The types of n that an object can have.
pub fn usable_of(kinds: &[u8; 24], dues: &[u8; 768], n: u8) -> u32
    requires { n ≤ 24 }
    ensures { Marks (usable_in kinds.now dues.now) n result }
{
    laws::mask_of(n, |t| is_usable(kinds, dues, t))
}

// Type t is a singleton class.
fn is_single(kinds: &[u8; 24], t: u8) -> bool
    ensures { result ≡ single_in kinds.now t }
{
    laws::byte(kinds, usize::from(t)) == 3
}

// The singleton classes among n types.
pub fn singles_of(kinds: &[u8; 24], n: u8) -> u32
    requires { n ≤ 24 }
    ensures { Marks (single_in kinds.now) n result }
{
    laws::mask_of(n, |t| is_single(kinds, t))
}

// The types that are asked for links to end e, for which there is no slot.
fn missing_at(ends: &Ends, e: u8) -> u32
    requires { e < 32 }
    ensures { result ≡ missing_in ends.now.sets ends.now.asked.now.arrows ends.now.slots ends.now.asked.now.lows e }
{
    let i = usize::from(e);
    if (32 <= ends.slots[i]) & (0 < ends.asked.lows[i]) {
        return source_at(ends, e);
    }
    0u32
}

// To any end.
pub fn missing_of(ends: &Ends) -> u32
    ensures { (t : ℕ) → bit t result ≡ any (λ e. bit t (missing_in ends.now.sets ends.now.asked.now.arrows ends.now.slots ends.now.asked.now.lows e)) (ends.now.asked.now.count * 2) }
{
    (0..ends.count()).fold(0u32, |mask, e| mask | missing_at(ends, e))
}
