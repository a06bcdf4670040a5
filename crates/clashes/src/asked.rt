// What is asked of the sources of the first object.
ghost use Rattle.std.specs.Prelude.{◌<◌};

use worlds::ColumnLimits;

// Limits that are asked of the sources of the first object, which has the type `first`. Only types of the mask `here` have links to it
// there.
#[derive(Clone, Copy)]
pub(crate) struct Asked {
    pub first: u8,
    pub here: u32,
    pub limits: ColumnLimits,
    ghost known: { first < 24 },
}
