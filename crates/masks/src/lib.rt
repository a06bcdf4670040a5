// The link rules on masks, one bit for each object. The links of object o for the role in slot s are the mask at o * 32 + s.
#![tactic(auto)]

ghost use Rattle.std.specs.Prelude.{◌≡◌, ℕ, ◌<◌, ◌≤◌, ltb};
ghost use Rattle.laws.specs.Connective.{same};
ghost use Rattle.laws.specs.Bits.{bit, Marks};
ghost use Rattle.rules.specs.Arrow.{within};
ghost use Rattle.masks.specs.Masks.{limits_of, link_in, row_fits, row_at_fits, rows_fit, arrives_from, arriving, column_at_fits, columns_fit, mirror_fits, mirror_row_fits, mirrors_fit, whole_in};

use laws::Mask;
use records::is_linked;

// ---- objects and links

// A table, since `(1 << n) - 1` is no byte on the way to 8 objects.
const OBJECTS: [u8; 9] = [0, 1, 3, 7, 15, 31, 63, 127, 255];

// The first n objects.
pub fn objects(n: u8) -> u8
    requires { n ≤ 8 }
    ensures { (p : ℕ) → bit p result ≡ ltb p n }
{
    OBJECTS[usize::from(n)]
}

// All targets of object o.
#[tactic(auto, unfolding(crate::specs::Masks::link_in))]
fn row(links: &[u8; 256], s: u8, o: u8) -> u8
    requires { (s < 32) × (o < 8) }
    ensures { (p : ℕ) → bit p result ≡ link_in links.now s o p }
{
    links[laws::place(o, s)]
}

// ---- limits

// At least low, and at most up where there is an upper limit.
#[derive(Clone, Copy)]
pub struct Limits {
    pub low: u16,
    pub up: Option<u16>,
}

impl Limits {
    // A count of n is within them.
    #[tactic(auto, unfolding(laws::specs::Connective::both, rules::specs::Arrow::within, rules::specs::Arrow::not_above))]
    fn admits(self, n: usize) -> bool
        ensures { result ≡ within (limits_of self) n }
    {
        usize::from(self.low) <= n && self.up.is_none_or(|up| n <= usize::from(up))
    }
}

// A row of targets has only objects of `to`, and as many as the limits say. `as`, since the library has no conversion of u32 to usize that
// cannot fail.
#[tactic(auto, unfolding(laws::specs::Connective::both, crate::specs::Masks::row_fits))]
fn row_fits(targets: u8, to: u8, limits: Limits) -> bool
    ensures { result ≡ row_fits (λ p. bit p targets) to (limits_of limits) 8 }
{
    targets.is_inside(to) && limits.admits(laws::count8(targets) as usize)
}

// ---- the links of the role in a slot, between the objects of two masks, among the first `count` objects

#[derive(Clone, Copy)]
pub struct Role<'a> {
    pub links: &'a [u8; 256],
    pub slot: u8,
    pub from: u8,
    pub to: u8,
    pub count: u8,
    ghost bounds: { (slot < 32) × (count ≤ 8) },
}

impl Role<'_> {
    // ---- rule 6

    // Object o, if it is one of `from`, has only objects of `to` as targets, and as many as the limits say.
    #[tactic(auto, unfolding(laws::specs::Connective::imp, crate::specs::Masks::row_at_fits))]
    fn row_at_fits(&self, limits: Limits, o: u8) -> bool
        requires { o < 8 }
        ensures { result ≡ row_at_fits self.now.links.now self.now.slot self.now.from self.now.to (limits_of limits) self.now.count o }
    {
        !self.from.has(o)
            || row_fits(
                row(self.links, self.slot, o) & objects(self.count),
                self.to,
                limits,
            )
    }

    pub fn rows_fit(&self, limits: Limits) -> bool
        ensures { result ≡ rows_fit self.now.links.now self.now.slot self.now.from self.now.to (limits_of limits) self.now.count }
    {
        (0..self.count).all(|o| self.row_at_fits(limits, o))
    }

    // ---- rule 7

    // Object o is one of `from` and links to p.
    #[tactic(auto, unfolding(laws::specs::Connective::both, crate::specs::Masks::arrives_from))]
    fn arrives(&self, p: u8, o: u8) -> bool
        requires { (o < 8) × (p < 8) }
        ensures { result ≡ arrives_from self.now.links.now self.now.slot self.now.from p o }
    {
        self.from.has(o) && is_linked(self.links, o, self.slot, p)
    }

    // How many objects of `from` link to p.
    pub fn count_arriving(&self, p: u8) -> usize
        requires { p < 8 }
        ensures { result ≡ arriving self.now.links.now self.now.slot self.now.from p self.now.count }
    {
        (0..self.count).filter(|o| self.arrives(p, *o)).count()
    }

    // Object p, if it is one of `to`, is the target of as many objects of `from` as the limits say.
    #[tactic(auto, unfolding(laws::specs::Connective::imp, crate::specs::Masks::column_at_fits))]
    fn column_at_fits(&self, limits: Limits, p: u8) -> bool
        requires { p < 8 }
        ensures { result ≡ column_at_fits self.now.links.now self.now.slot self.now.from self.now.to (limits_of limits) self.now.count p }
    {
        !self.to.has(p) || limits.admits(self.count_arriving(p))
    }

    pub fn columns_fit(&self, limits: Limits) -> bool
        ensures { result ≡ columns_fit self.now.links.now self.now.slot self.now.from self.now.to (limits_of limits) self.now.count }
    {
        (0..self.count).all(|p| self.column_at_fits(limits, p))
    }

    // ---- rule 8: slot `back` has the links from `to` to `from`

    // For o of `from` and p of `to`, the one link is there exactly when the other is.
    #[tactic(auto, unfolding(laws::specs::Connective::imp, laws::specs::Connective::both, laws::specs::Connective::same, crate::specs::Masks::mirror_fits))]
    fn mirror_fits(&self, back: u8, o: u8, p: u8) -> bool
        requires { (back < 32) × ((o < 8) × (p < 8)) }
        ensures { result ≡ mirror_fits self.now.links.now self.now.slot back self.now.from self.now.to o p }
    {
        !self.from.has(o)
            || !self.to.has(p)
            || is_linked(self.links, o, self.slot, p) == is_linked(self.links, p, back, o)
    }

    fn mirror_row_fits(&self, back: u8, o: u8) -> bool
        requires { (back < 32) × (o < 8) }
        ensures { result ≡ mirror_row_fits self.now.links.now self.now.slot back self.now.from self.now.to self.now.count o }
    {
        (0..self.count).all(|p| self.mirror_fits(back, o, p))
    }

    pub fn mirrors_fit(&self, back: u8) -> bool
        requires { back < 32 }
        ensures { result ≡ mirrors_fit self.now.links.now self.now.slot back self.now.from self.now.to self.now.count }
    {
        (0..self.count).all(|o| self.mirror_row_fits(back, o))
    }

    // ---- rule 9

    // Object o is a whole of p by a composition of these ends.
    #[tactic(auto, unfolding(laws::specs::Connective::both, crate::specs::Masks::whole_in))]
    fn is_whole_by(&self, p: u8, o: u8) -> bool
        requires { (o < 8) × (p < 8) }
        ensures { result ≡ whole_in self.now.links.now self.now.slot self.now.from self.now.to p o }
    {
        is_linked(self.links, o, self.slot, p) && self.from.has(o) && self.to.has(p)
    }

    // The wholes that p has by a composition of these ends.
    pub fn wholes_by(&self, p: u8) -> u8
        requires { p < 8 }
        ensures { Marks (whole_in self.now.links.now self.now.slot self.now.from self.now.to p) self.now.count result }
    {
        laws::mask_of(self.count, |o| self.is_whole_by(p, o))
    }
}
