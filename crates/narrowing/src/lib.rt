// The table of targets without links that no allowed site has: from and to types that no object can have, and in rows that have none.
#![tactic(auto)]

ghost use Rattle.std.specs.Prelude.{◌≡◌, List, ℕ};
ghost use Rattle.worlds.specs.declared.Lines.{Lines};
ghost use Rattle.worlds.specs.Kept.{sheet};
ghost use Rattle.narrowing.specs.Narrow.{Narrows, usable_row};

// What is left of a row of type t, with at most `high` links.
fn usable_row(mask: u32, high: u8, usable: u32, t: u8) -> u32
    ensures { result ≡ usable_row mask high usable t }
{
    if high == 0 {
        return 0;
    }
    if !type_tables::is_in(usable, t) {
        return 0;
    }
    mask & usable
}

// What is left of the table where objects have types of the mask `usable`. The library's conversions to a narrower number give a Result,
// and with it a path that is never taken: i / 32 is below 24.
pub fn narrowed(targets: &[u32; 768], highs: &[u8; 768], usable: u32) -> [u32; 768]
    ensures { (singles : ℕ) (lows : List ℕ) (x : Lines) → Narrows (sheet usable singles targets.now lows highs.now x) result }
{
    std::array::from_fn(|i| usable_row(targets[i], highs[i], usable, (i / 32) as u8))
}
