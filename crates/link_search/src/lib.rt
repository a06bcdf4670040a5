// The search for the links of given objects: which of the links that may stand are added to those that must, so that the limits of
// rows and columns, mirrors and wholes are right. It knows no diagram: all that is asked stands in arrays.
#![tactic(auto)]

ghost use Rattle.std.specs.Prelude.{◌≡◌, true, false, ◌<◌, length, is_ok};
ghost use Rattle.laws.specs.Bits.{bit};
ghost use Rattle.laws.specs.Bounded.{tally};
ghost use Rattle.link_search.specs.Families.{Fits};
ghost use Rattle.link_search.specs.Answers.{BitsJudged, Looked, NetAnswer};

use laws::Mask;

mod asked;
mod columns;
mod mirrors;
mod rows;
mod wholes;

pub use asked::{Column, Limits, Mirror, NetConstraints, Whole};

// The links that must stand and those that may besides: for object o and role slot s at o * 32 + s, one bit for each target.
#[derive(Clone, Copy)]
pub struct Bounds {
    pub must: [u8; 256],
    pub may: [u8; 256],
}

// One bit: the link of row `row` to object `target`.
#[derive(Clone, Copy)]
struct Spot {
    row: usize,
    target: u8,
}

// No net between is right.
#[derive(Clone, Copy)]
pub struct NoNet;

// The lowest bit that is set, of a mask that has one. `as`, since the library's conversion gives a Result, which here never fails.
fn lowest(m: u8) -> u8
    requires { 0 < tally (λ k. bit k m) 8 }
    ensures { (result < 8) × (bit result m ≡ true) }
{
    m.trailing_zeros() as u8
}

// One set of bits between limits: none is missing, or a bit that may stand is wanted, or no set between is right.
fn judge(must: u8, may: u8, limits: Limits) -> Result<Option<u8>, NoNet>
    ensures { BitsJudged must may limits result }
{
    let y = laws::count8(must);
    let a = laws::count8(may);
    if u32::from(limits.high) < y {
        return Err(NoNet);
    }
    if y + a < u32::from(limits.low) {
        return Err(NoNet);
    }
    if y < u32::from(limits.low) {
        return Ok(Some(lowest(may)));
    }
    Ok(None)
}

// A look at everything that is asked. What a mirror wants comes first: it has no other value.
fn look_all(net: &NetConstraints, bounds: &Bounds) -> Result<Option<Spot>, NoNet>
    ensures { Looked (Fits net.now) bounds.now.must bounds.now.may result }
{
    let rows = rows::look_rows(&net.rows, bounds)?;
    let columns = columns::look_columns(&net.columns, bounds)?;
    let mirrors = mirrors::look_mirrors(&net.mirrors, bounds)?;
    wholes::look_wholes(&net.wholes, &bounds.must)?;
    Ok(mirrors.or(rows).or(columns))
}

// Links within the bounds that are right, left in `must`. Each bit that is wanted is tried as a link and then as none. The bounds are
// changed in place: a try sets two bytes, and sets them back where it fails.
pub fn links(net: &NetConstraints, bounds: &mut Bounds) -> Result<(), NoNet>
    requires { (length bounds.old.must ≡ 256) × (length bounds.old.may ≡ 256) }
    ensures { NetAnswer (Fits net.now) bounds.old.must bounds.old.may bounds.new.must bounds.new.may (is_ok result) }
{
    let Some(spot) = look_all(net, bounds)? else {
        return Ok(());
    };
    let i = spot.row;
    let must = bounds.must[i];
    let may = bounds.may[i];
    bounds.may[i] = may.without(spot.target);
    bounds.must[i] = must.with(spot.target);
    if links(net, bounds).is_ok() {
        return Ok(());
    }
    bounds.must[i] = must;
    if links(net, bounds).is_ok() {
        return Ok(());
    }
    bounds.may[i] = may;
    Err(NoNet)
}
