// Parts whose whole is given by more than one composition: each asks for a whole, and there is only one.
#![tactic(auto)]

ghost use Rattle.std.specs.Prelude.{◌≡◌, true, ◌<◌, get_or, IfSome};
ghost use Rattle.worlds.specs.Lined.{column_at};
ghost use Rattle.common_wholes.specs.Common.{Common};

use laws::Mask;
use worlds::Lines;

// Whether composition j gives each object of type t its whole: it asks for a source, and its sources are wholes.
fn is_giving(lines: &Lines, t: u32, j: usize) -> bool
    requires { (t < 24) × (j < 16) }
    ensures { result ≡ true → Common lines.now t (column_at lines.now j).from }
{
    if lines.columns[j].low == 0 {
        return false;
    }
    if lines.wholes[j].slot != lines.columns[j].slot {
        return false;
    }
    lines.columns[j].to.has(t)
        & lines.wholes[j].to.has(t)
        & type_tables::is_inside(lines.columns[j].from, lines.wholes[j].from)
}

// The types that the whole of an object of type t may have, where each has a whole. A loop: of `filter`, `map` and `reduce` together no law
// stands in `laws`.
pub fn common_whole(lines: &Lines, t: u32) -> Option<u32>
    requires { t < 24 }
    ensures { IfSome result (Common lines.now t) }
{
    let mut known = None;
    for j in 0..16 {
        if is_giving(lines, t, j) {
            let mask = lines.columns[j].from;
            known = Some(known.unwrap_or(mask) & mask);
        }
    }
    known
}
