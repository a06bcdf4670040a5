// A list of at most 24 names in memory, in slots of 17 bytes: `as u8` keeps their number.
#![tactic(auto)]

ghost use Rattle.std.specs.Prelude.{◌≡◌, ◌++◌, ◌∷◌, [], ◌+◌, ◌<◌, ◌≤◌, length, get_or};
ghost use Rattle.laws.specs.Bounded.{any, first};
ghost use Rattle.files.specs.Name.{same_name};
ghost use Rattle.name_lists.specs.Names.{names_in};

mod list; // list.rt: the list

pub use list::Names;

impl Names {
    // No name. Written out: for a struct with a ghost field `Default` is not derived.
    pub fn none() -> Names
        ensures { (result.count ≡ 0) × (names_in result ≡ []) }
    {
        Names {
            count: 0,
            names: [0; 408],
        }
    }

    // One name more.
    pub fn push(&mut self, w: &[u8])
        requires { (self.old.count < 24) × (length w.now ≤ 16) }
        ensures { (self.new.count ≡ self.old.count + 1) × (names_in self.new ≡ names_in self.old ++ (w.now ∷ [])) }
    {
        loading::storing::store_name(&mut self.names, self.count, w);
        self.count += 1;
    }

    // The first place of the name w, or their number, as the definition `place_in` has it; the writers of fields put a place that is there,
    // so that none asks.
    pub fn find(&self, w: &[u8]) -> usize
        ensures { (result ≡ first (λ i. same_name (get_or (names_in self.now) i []) w.now) self.now.count) × (result ≤ self.now.count) }
    {
        usize::from(fields::slot_of(&self.names, self.count as u8, w))
    }

    // The name w is among them.
    pub fn has(&self, w: &[u8]) -> bool
        ensures { result ≡ any (λ i. same_name (get_or (names_in self.now) i []) w.now) self.now.count }
    {
        fields::is_among(&self.names, self.count as u8, w)
    }
}
