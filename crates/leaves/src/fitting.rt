// What is asked of the types of the objects.
ghost use Rattle.std.specs.Prelude.{◌≡◌, ◌<◌, ◌≤◌};
ghost use Rattle.laws.specs.Bits.{Marks};
ghost use Rattle.laws.specs.Bounded.{all};
ghost use Rattle.leaves.specs.Fitting.{count_of, single_fits, type_fits, typed, types_fit};

use crate::objects::Objects;

impl Objects<'_> {
    // Which of the objects have a type of the set.
    pub(crate) fn among(&self, set: u32) -> u8
        ensures { Marks (typed self.now.types.now.at set) self.now.n result }
    {
        laws::mask_of(
            self.n,
            |o| type_tables::is_in(set, self.types.at[usize::from(o)]),
        )
    }

    // The type of object o fits.
    fn type_fits(&self, usable: u32, o: u8) -> bool
        requires { o < 8 }
        ensures { result ≡ type_fits usable self.now.q.now.seeds self.now.q.now.types self.now.q.now.never self.now.types.now.at o }
    {
        let i = usize::from(o);
        let t = self.types.at[i];
        if o < self.q.seeds {
            return type_tables::is_in(usable, t) & type_tables::is_in(self.q.types[i], t);
        }
        type_tables::is_in(usable, t) & !type_tables::is_in(self.q.never, t)
    }

    // How many of the objects have type t.
    fn count_of(&self, t: u8) -> usize
        ensures { result ≡ count_of self.now.types.now.at self.now.n t }
    {
        (0..self.n)
            .filter(|o| self.types.at[usize::from(*o)] == t)
            .count()
    }

    // If type t is a singleton, one object has it.
    fn single_fits(&self, singles: u32, t: u8) -> bool
        ensures { result ≡ single_fits singles self.now.types.now.at self.now.n t }
    {
        if !type_tables::is_in(singles, t) {
            return true;
        }
        self.count_of(t) == 1
    }

    // The types of all objects fit.
    fn each_fits(&self, usable: u32) -> bool
        ensures { result ≡ all (type_fits usable self.now.q.now.seeds self.now.q.now.types self.now.q.now.never self.now.types.now.at) self.now.n }
    {
        (0..self.n).all(|o| self.type_fits(usable, o))
    }

    // All singletons fit.
    fn singles_fit(&self, singles: u32) -> bool
        ensures { result ≡ all (single_fits singles self.now.types.now.at self.now.n) 24 }
    {
        (0u8..24).all(|t| self.single_fits(singles, t))
    }

    // The types are as the sheet and the query ask.
    pub(crate) fn types_fit(&self, usable: u32, singles: u32) -> bool
        ensures { result ≡ types_fit usable singles self.now.q.now self.now.types.now.at self.now.n }
    {
        if self.n < self.q.seeds {
            return false;
        }
        if !self.each_fits(usable) {
            return false;
        }
        self.singles_fit(singles)
    }
}
