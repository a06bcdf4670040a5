// Needs by compositions that give a part its whole: this has a type that each of them asks for.
ghost use Rattle.std.specs.Prelude.{◌<◌, Some};
ghost use Rattle.worlds.specs.Kept.{ColumnsKept, WholesKept};
ghost use Rattle.demands.specs.Wishes.{Sharpens};

use crate::Start;
use worlds::Tables;

// The whole of object p.
fn with_whole(best: u32, s: Start, tables: &Tables, p: u8) -> Option<u32>
    requires { p < s.k }
    ensures { Sharpens (λ w. ColumnsKept tables.now.lines w × WholesKept tables.now.lines w) s (Some best) result }
{
    common_wholes::common_whole(&tables.lines, s.types.of(p)).map_or(
        Some(best),
        |mask| crate::needs::with_limits(best, s, mask, 0, 1, 1),
    )
}

// The wholes of all given objects.
pub(crate) fn with_wholes(mut best: u32, s: Start, tables: &Tables) -> Option<u32>
    ensures { Sharpens (λ w. ColumnsKept tables.now.lines w × WholesKept tables.now.lines w) s (Some best) result }
{
    for p in 0..s.k {
        best = with_whole(best, s, tables, p)?;
    }
    Some(best)
}
