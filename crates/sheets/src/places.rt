// What is asked of the links of an object, by its type and the role slot: at t * 32 + s for type t and slot s. By loops, since each end
// changes many places of the tables.
ghost use Rattle.std.specs.Prelude.{◌≡◌, ℕ, ◌*◌, ◌<◌, ◌≤◌, max, min, ltb, get_or, length};
ghost use Rattle.std.specs.Int.Bits.{bit_and, bit_or};
ghost use Rattle.laws.specs.Bits.{bit};
ghost use Rattle.laws.specs.Connective.{both};
ghost use Rattle.sheets.specs.RowsBy.{Stepped, high_at, leads_at, low_at, mask_at, source_in, target_at};

use crate::{Ends, Rows};
use laws::Mask;
use type_tables::ALL_TYPES;

// The types whose links go to end e, by the types of each end.
pub fn source_at(ends: &Ends, e: u8) -> u32
    requires { e < 32 }
    ensures { result ≡ source_in ends.now.sets ends.now.asked.now.arrows e }
{
    if type_tables::is_carried(&ends.asked.arrows, e) {
        return ends.sets[usize::from(e / 2 * 2 + (1 - e % 2))];
    }
    0u32
}

// Slot s is one, and type t is in the set.
fn is_among(set: u32, s: u8, t: u8) -> bool
    requires { t < 32 }
    ensures { result ≡ both (ltb s 32) (bit t set) }
{
    (s < 32) & set.has(u32::from(t))
}

// The larger of each lower limit and this one, the smaller of each upper limit and this one, in slot s of each type of the set. Apart
// from `mask_slot`, since what a step does is stated of lists of numbers, and not of a type of elements.
fn limit_slot(
    lows: &mut [u8; 768],
    highs: &mut [u8; 768],
    set: u32,
    s: u8,
    low: u8,
    high: u8,
    k: u8,
)
    requires { (k ≤ 24) × (length lows.old ≡ 768) × (length highs.old ≡ 768) }
    ensures { Stepped (λ m. max m low) set s k lows.old lows.new × Stepped (λ m. min m high) set s k highs.old highs.new }
{
    for t in 0..k {
        if is_among(set, s, t) {
            let at = laws::place(t, s);
            lows[at] = lows[at].max(low);
            highs[at] = highs[at].min(high);
        }
    }
}

// The rows by all ends.
pub fn rows_of(ends: &Ends) -> Rows
    ensures targets { (x u : ℕ) → x < 768 → u < 24 → bit u (get_or result.targets x 0) ≡ target_at ends.now.sets (leads_at ends.now.sets ends.now.asked.now.arrows ends.now.slots ends.now.types x) (ends.now.asked.now.count * 2) u }
    ensures lows { (x : ℕ) → x < 768 → get_or result.lows x 0 ≡ low_at ends.now.asked.now.lows (leads_at ends.now.sets ends.now.asked.now.arrows ends.now.slots ends.now.types x) (ends.now.asked.now.count * 2) }
    ensures highs { (x : ℕ) → x < 768 → get_or result.highs x 0 ≡ high_at ends.now.asked.now.ups (leads_at ends.now.sets ends.now.asked.now.arrows ends.now.slots ends.now.types x) (ends.now.asked.now.count * 2) }
{
    let mut least = [0u8; 768];
    let mut most = [8u8; 768];
    for e in 0..ends.count() {
        let i = usize::from(e);
        let set = source_at(ends, e);
        let low = type_tables::capped(9, ends.asked.lows[i]);
        let high = type_tables::capped(8, ends.asked.ups[i]);
        limit_slot(
            &mut least,
            &mut most,
            set,
            ends.slots[i],
            low,
            high,
            ends.types,
        );
    }
    Rows {
        targets: targets_of(ends),
        lows: least,
        highs: most,
    }
}

// With the types of `more`, and of these the ones in `keep`, in slot s of each type of the set.
pub fn mask_slot(masks: &mut [u32; 768], set: u32, s: u8, more: u32, keep: u32, k: u8)
    requires { (k ≤ 24) × (length masks.old ≡ 768) }
    ensures { Stepped (λ m. bit_and (bit_or m more) keep) set s k masks.old masks.new }
{
    for t in 0..k {
        if is_among(set, s, t) {
            let at = laws::place(t, s);
            masks[at] = (masks[at] | more) & keep;
        }
    }
}

// The same by all ends, with a set to keep for each.
fn masks_of(start: [u32; 768], ends: &Ends, more: u32, keeps: &[u32; 32]) -> [u32; 768]
    ensures { (x : ℕ) → x < 768 → get_or result x 0 ≡ mask_at more keeps.now (get_or start x 0) (leads_at ends.now.sets ends.now.asked.now.arrows ends.now.slots ends.now.types x) (ends.now.asked.now.count * 2) }
{
    let mut r = start;
    for e in 0..ends.count() {
        let i = usize::from(e);
        let set = source_at(ends, e);
        mask_slot(&mut r, set, ends.slots[i], more, keeps[i], ends.types);
    }
    r
}

// The types that a target may have: of the places with an end, those in the set of each end.
fn targets_of(ends: &Ends) -> [u32; 768]
    ensures { (x u : ℕ) → x < 768 → u < 24 → bit u (get_or result x 0) ≡ target_at ends.now.sets (leads_at ends.now.sets ends.now.asked.now.arrows ends.now.slots ends.now.types x) (ends.now.asked.now.count * 2) u }
{
    let all = [ALL_TYPES; 32];
    let led = masks_of([0u32; 768], ends, ALL_TYPES, &all);
    masks_of(led, ends, 0, &ends.sets)
}
