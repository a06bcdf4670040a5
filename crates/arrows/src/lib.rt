// What the arrow of an association, by its number in the diagram file, says of the links of its two roles.
#![tactic(auto)]

ghost use Rattle.std.specs.Prelude.{◌≡◌};
ghost use Rattle.rules.specs.Arrow.{carries_right, carries_left, counted_right, counted_left, mirrors};

// r2 links, from the left to the right.
#[tactic(auto, unfolding(laws::specs::Connective::either, rules::specs::Arrow::carries_right))]
pub fn carries_right(arrow: u8) -> bool
    ensures { result ≡ carries_right arrow }
{
    matches!(arrow, 1 | 3 | 4)
}

// r1 links, from the right to the left.
#[tactic(auto, unfolding(laws::specs::Connective::either, rules::specs::Arrow::carries_left))]
pub fn carries_left(arrow: u8) -> bool
    ensures { result ≡ carries_left arrow }
{
    matches!(arrow, 2 | 3 | 4)
}

// The sources of r2 links are counted.
#[tactic(auto, unfolding(rules::specs::Arrow::counted_right))]
pub fn counted_right(arrow: u8) -> bool
    ensures { result ≡ counted_right arrow }
{
    arrow == 1
}

// The sources of r1 links are counted.
#[tactic(auto, unfolding(rules::specs::Arrow::counted_left))]
pub fn counted_left(arrow: u8) -> bool
    ensures { result ≡ counted_left arrow }
{
    arrow == 2
}

// Each link of the one role has its mirror of the other.
#[tactic(auto, unfolding(laws::specs::Connective::either, rules::specs::Arrow::mirrors))]
pub fn is_mirrored(arrow: u8) -> bool
    ensures { result ≡ mirrors arrow }
{
    matches!(arrow, 3 | 4)
}
