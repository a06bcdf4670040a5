// The parts of the bench: two places for diagrams, and at most one witness.
ghost use Rattle.std.specs.Prelude.{IfSome};
ghost use Rattle.bench.specs.Parts.{ValidWitness};
ghost use Rattle.bench.specs.PartsProp.{fits-prop};

use diagrams::ReadDiagram;
use records::MemoryRecord;

#[derive(Clone, Copy)]
pub struct Witness {
    // The place of the diagram whose indices the record has. Compare takes them from place 0; what holds of a witness and what hand out
    // writes are said of the place in it, whichever it is.
    pub place: u8,
    pub found: MemoryRecord,
}

// A witness has an index of the diagram in its place for everything.
#[derive(Clone, Copy)]
pub struct Bench {
    pub old: Option<ReadDiagram>,
    pub new: Option<ReadDiagram>,
    pub witness: Option<Witness>,
    ghost fits: { IfSome witness (ValidWitness old new) } by { fits-prop old new witness },
}
