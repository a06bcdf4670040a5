// A list of entries in memory, from a compiler or not.
#![tactic(auto)]

ghost use Rattle.std.specs.Prelude.{◌≡◌, [], ◌∷◌, ◌+◌, ◌<◌};

// Kind and side are kept as the numbers that the compiled record has: a list from elsewhere may hold any.
#[derive(Clone, Copy)]
pub struct Entry {
    pub kind: u8,
    pub association: u8,
    pub side: u8,
    pub low: u16,
    pub up: u16,
}

// The first `number` of the list are its entries: there is no heap, so a list has room for the 64 that the reply has.
#[derive(Clone, Copy)]
pub struct Entries {
    pub number: usize,
    pub list: [Entry; 64],
}

impl Entry {
    ghost use Rattle.rules.specs.Compile.{bare};
    ghost use Rattle.entries.specs.View.{entry_seen};

    // An entry of a kind that has no side and no limits.
    pub fn bare(kind: u8, association: u8) -> Self
        ensures { entry_seen result ≡ bare kind association }
    {
        Entry {
            kind,
            association,
            side: 0,
            low: 0,
            up: 0,
        }
    }
}

impl Entries {
    ghost use Rattle.entries.specs.View.{entry_seen, no_entries, Appends};

    // No entry: all zero. Written out once, as its definition is: `default-zeros` of `laws` is of numbers, and this list is of entries.
    pub fn none() -> Self
        ensures { result ≡ no_entries }
    {
        Entries {
            number: 0,
            list: [Entry::bare(0, 0); 64],
        }
    }

    // One entry more.
    pub fn push(&mut self, entry: Entry)
        requires { self.old.number < 64 }
        ensures { Appends self.old self.new (entry_seen entry ∷ []) × (self.new.number ≡ self.old.number + 1) }
    {
        self.list[self.number] = entry;
        self.number += 1;
    }
}
