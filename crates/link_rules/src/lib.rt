// Rules 6 to 9 on a record in memory, by its diagram's associations and the tables: for each type a mask of its instances, for
// each end the slot of its role. The left end of association i is end i * 2, the right one end i * 2 + 1.
#![tactic(auto)]

ghost use Rattle.std.specs.Prelude.{◌≡◌, ◌<◌, ◌≤◌, ◌*◌, get_or};
ghost use Rattle.laws.specs.Bits.{Marks};
ghost use Rattle.masks.specs.Masks.{limits_of};
ghost use Rattle.rules.specs.Evaluate.{side_of};
ghost use Rattle.rules.specs.LinkRules.{rule6, rule7, rule8};
ghost use Rattle.rules.specs.WholeRule.{rule9};
ghost use Rattle.diagrams.specs.View.{diagram_of};
ghost use Rattle.link_rules.specs.LinksIn.{Fits, end_limits, instances_in, mirrored_in, own_sources_in, own_targets_in, rule6_at_in, rule6_in, rule7_at_in, rule7_in, rule8_at_in, rule8_in, source_end, sources_in, target_end, targets_in};
ghost use Rattle.link_rules.specs.WholesIn.{whole_by_in, is_whole_in, rule9_at_in, rule9_in, one_whole_at_in, one_whole_in};

use diagrams::Associations;
use laws::Mask;
use masks::{Limits, Role};
use tables::{Roles, Tables};

// What the rules read of a record in memory and of its diagram.
#[derive(Clone, Copy)]
pub struct Links<'a> {
    pub associations: &'a Associations,
    pub links: &'a [u8; 256],
    pub tables: &'a Tables,
    // How many objects there are.
    pub count: u8,
    ghost fits: { Fits associations.now tables.now.slots count },
}

impl<'a> Links<'a> {
    ghost use Rattle.link_rules.specs.Judged.{JudgedBy, Says, by_tables, lowest_of_links};

    // Those of a record in memory that is judged by its diagram. It has at most 8 objects, as `as u8` keeps them.
    pub fn of(roles: &'a Roles<'a>) -> Self
        ensures associations { result.associations.now ≡ roles.now.diagram.now.stored.associations }
        ensures judged { JudgedBy (diagram_of roles.now.diagram.now.stored) roles.now.memory.now result }
    {
        Links {
            associations: &roles.diagram.stored.associations,
            links: &roles.memory.links,
            tables: &roles.tables,
            count: roles.memory.count as u8,
        }
    }

    // ---- ends

    // The instances of an end's type.
    fn instances(&self, e: usize) -> u8
        requires { e < 32 }
        ensures { result ≡ instances_in self.now.associations.now self.now.tables.now.masks e }
    {
        laws::byte(&self.tables.masks, usize::from(self.associations.types[e]))
    }

    // The slot of an end's role.
    fn slot(&self, e: usize) -> u8
        requires { e < self.now.associations.now.count * 2 }
        ensures { (result ≡ get_or self.now.tables.now.slots e 0) × (result < 32) }
    {
        self.tables.slots[e]
    }

    // An end's limits: the diagram's table has 65,535 where there is no upper one.
    #[tactic(auto, unfolding(diagrams::specs::View::upper_in))]
    fn limits(&self, e: usize) -> Limits
        requires { e < 32 }
        ensures { limits_of result ≡ end_limits self.now.associations.now e }
    {
        let up = self.associations.ups[e];
        Limits {
            low: self.associations.lows[e],
            up: if up == 65535 { None } else { Some(up) },
        }
    }

    // The links of end `to`'s role, from the instances of end `from` to those of end `to`.
    fn role(&self, from: usize, to: usize) -> Role<'a>
        requires { (from < self.now.associations.now.count * 2) × (to < self.now.associations.now.count * 2) }
        ensures links { result.links.now ≡ self.now.links.now }
        ensures slot { result.slot ≡ get_or self.now.tables.now.slots to 0 }
        ensures from { result.from ≡ instances_in self.now.associations.now self.now.tables.now.masks from }
        ensures to { result.to ≡ instances_in self.now.associations.now self.now.tables.now.masks to }
        ensures count { result.count ≡ self.now.count }
    {
        Role {
            links: self.links,
            slot: self.slot(to),
            from: self.instances(from),
            to: self.instances(to),
            count: self.count,
        }
    }

    // ---- the rules, for each association

    // Association i.
    pub fn association(&self, i: usize) -> Association<'a>
        requires { i < self.now.associations.now.count }
        ensures links { result.links ≡ self.now }
        ensures index { result.index ≡ i }
    {
        Association {
            links: *self,
            index: i,
        }
    }

    // Rule 6.
    pub fn rule6(&self) -> bool
        ensures { (result ≡ by_tables rule6_in self.now) × Says rule6 self.now result }
    {
        (0..self.associations.count).all(|i| self.association(i).rule6())
    }

    // Rule 7.
    pub fn rule7(&self) -> bool
        ensures { (result ≡ by_tables rule7_in self.now) × Says rule7 self.now result }
    {
        (0..self.associations.count).all(|i| self.association(i).rule7())
    }

    // Rule 8.
    pub fn rule8(&self) -> bool
        ensures { (result ≡ by_tables rule8_in self.now) × Says rule8 self.now result }
    {
        (0..self.associations.count).all(|i| self.association(i).rule8())
    }

    // ---- rule 9, for each object

    // The wholes that p has over all compositions.
    fn whole_mask(&self, p: u8) -> u8
        requires { p < 8 }
        ensures { let v = self.now in Marks (is_whole_in v.associations.now v.links.now v.tables.now.masks v.tables.now.slots p) v.count result }
    {
        (0..self.associations.count).fold(0, |wholes, i| wholes | self.association(i).wholes(p))
    }

    // Object p has at most one whole.
    fn rule9_at(&self, p: u8) -> bool
        requires { p < 8 }
        ensures { result ≡ by_tables rule9_at_in self.now p }
    {
        laws::count8(self.whole_mask(p)) <= 1
    }

    // Rule 9.
    pub fn rule9(&self) -> bool
        ensures { (result ≡ by_tables rule9_in self.now) × Says rule9 self.now result }
    {
        (0..self.count).all(|p| self.rule9_at(p))
    }

    // ---- rules 6 to 9

    // The lowest that is broken, or 0, as the definition `lowest_of_links` has it: a number, and the reply's. An Option of a rule would be
    // made into that number again by each caller.
    pub fn lowest_broken(&self) -> u8
        ensures { Says lowest_of_links self.now result }
    {
        if !self.rule6() {
            return 6;
        }
        if !self.rule7() {
            return 7;
        }
        if !self.rule8() {
            return 8;
        }
        if !self.rule9() {
            return 9;
        }
        0
    }
}

// One association. Its sides are by their numbers in the compiled record: 0 for r2, whose links go from the left end to the right one; any
// other for r1, whose links go back.
#[derive(Clone, Copy)]
pub struct Association<'a> {
    pub links: Links<'a>,
    pub index: usize,
    ghost known: { index < links.associations.now.count },
}

impl Association<'_> {
    ghost use Rattle.link_rules.specs.Judged.{by_tables};

    // The end that a side's links come from.
    fn source(&self, side: u8) -> usize
        ensures { (result ≡ source_end (side_of side) self.now.index) × (result < self.now.links.associations.now.count * 2) }
    {
        self.index * 2 + usize::from(side != 0)
    }

    // The end that they go to.
    fn target(&self, side: u8) -> usize
        ensures { (result ≡ target_end (side_of side) self.now.index) × (result < self.now.links.associations.now.count * 2) }
    {
        self.index * 2 + usize::from(side == 0)
    }

    // ---- rules 6 and 7. They differ in the test of the masks, in the end whose limits are asked and in what is asked of the arrow: a
    // function for both would be handed all three.

    // Each instance of the end that a side's links come from has only instances of the other end as targets, and as many as the limits say.
    #[tactic(auto, unfolding(crate::specs::LinksIn::targets_in))]
    pub fn targets_hold(&self, side: u8, limits: Limits) -> bool
        ensures { result ≡ by_tables targets_in self.now.links (side_of side) self.now.index (limits_of limits) }
    {
        self.links
            .role(self.source(side), self.target(side))
            .rows_fit(limits)
    }

    // The same, with its own limits: those of the end that the links go to.
    #[tactic(auto, unfolding(crate::specs::LinksIn::own_targets_in))]
    fn own_targets_hold(&self, side: u8) -> bool
        ensures { result ≡ by_tables own_targets_in self.now.links (side_of side) self.now.index }
    {
        self.targets_hold(side, self.links.limits(self.target(side)))
    }

    // Rule 6: so for each side whose links are carried.
    #[tactic(auto, unfolding(laws::specs::Connective::both, laws::specs::Connective::imp, crate::specs::LinksIn::rule6_at_in))]
    fn rule6(&self) -> bool
        ensures { result ≡ by_tables rule6_at_in self.now.links self.now.index }
    {
        let arrow = self.links.associations.arrows[self.index];
        (!arrows::carries_right(arrow) || self.own_targets_hold(0))
            && (!arrows::carries_left(arrow) || self.own_targets_hold(1))
    }

    // Each instance of the end that a side's links go to is the target of as many instances of the other end as the limits say.
    #[tactic(auto, unfolding(crate::specs::LinksIn::sources_in))]
    pub fn sources_hold(&self, side: u8, limits: Limits) -> bool
        ensures { result ≡ by_tables sources_in self.now.links (side_of side) self.now.index (limits_of limits) }
    {
        self.links
            .role(self.source(side), self.target(side))
            .columns_fit(limits)
    }

    // The same, with its own limits: those of the end that the links come from.
    #[tactic(auto, unfolding(crate::specs::LinksIn::own_sources_in))]
    fn own_sources_hold(&self, side: u8) -> bool
        ensures { result ≡ by_tables own_sources_in self.now.links (side_of side) self.now.index }
    {
        self.sources_hold(side, self.links.limits(self.source(side)))
    }

    // Rule 7: so for each side whose sources are counted.
    #[tactic(auto, unfolding(laws::specs::Connective::both, laws::specs::Connective::imp, crate::specs::LinksIn::rule7_at_in))]
    fn rule7(&self) -> bool
        ensures { result ≡ by_tables rule7_at_in self.now.links self.now.index }
    {
        let arrow = self.links.associations.arrows[self.index];
        (!arrows::counted_right(arrow) || self.own_sources_hold(0))
            && (!arrows::counted_left(arrow) || self.own_sources_hold(1))
    }

    // ---- rule 8

    // For instances of the two ends, the r2 link is there exactly when the r1 link is.
    #[tactic(auto, unfolding(crate::specs::LinksIn::mirrored_in))]
    pub fn mirror_holds(&self) -> bool
        ensures { result ≡ by_tables mirrored_in self.now.links self.now.index }
    {
        let left = self.source(0);
        self.links
            .role(left, self.target(0))
            .mirrors_fit(self.links.slot(left))
    }

    // Rule 8: so if the arrow is one of those with mirrors.
    #[tactic(auto, unfolding(laws::specs::Connective::imp, crate::specs::LinksIn::rule8_at_in))]
    fn rule8(&self) -> bool
        ensures { result ≡ by_tables rule8_at_in self.now.links self.now.index }
    {
        !arrows::is_mirrored(self.links.associations.arrows[self.index]) || self.mirror_holds()
    }

    // ---- rule 9

    // The wholes that p has by this association, if it is a composition.
    fn wholes(&self, p: u8) -> u8
        requires { p < 8 }
        ensures { let v = self.now.links in Marks (whole_by_in v.associations.now v.links.now v.tables.now.masks v.tables.now.slots p self.now.index) v.count result }
    {
        if self.links.associations.forms[self.index] != 1 {
            return 0;
        }
        self.links.role(self.source(0), self.target(0)).wholes_by(p)
    }

    // Object p has at most one whole, if it is an instance of the right end.
    #[tactic(auto, unfolding(laws::specs::Connective::imp, crate::specs::WholesIn::one_whole_at_in))]
    fn one_whole_at(&self, p: u8) -> bool
        requires { p < 8 }
        ensures { result ≡ by_tables one_whole_at_in self.now.links self.now.index p }
    {
        !self.links.instances(self.target(0)).has(p) || self.links.rule9_at(p)
    }

    // Each instance of the right end has at most one whole over all compositions.
    pub fn one_whole(&self) -> bool
        ensures { result ≡ by_tables one_whole_in self.now.links self.now.index }
    {
        (0..self.links.count).all(|p| self.one_whole_at(p))
    }
}
