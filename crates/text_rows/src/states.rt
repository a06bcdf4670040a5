// The states of the grammar's table. Those that are asked for have names.
ghost use Rattle.std.specs.Prelude.{◌≤◌};

// A state, by its number in the table.
#[derive(Clone, Copy, PartialEq, Eq)]
pub struct State {
    pub number: u8,
    ghost in_table: { number ≤ 46 },
}

impl State {
    // The start of a text, and its end.
    pub const START: State = State { number: 0 };

    pub(crate) const END: State = State { number: 45 };
    // Between declarations: a row ends with the token that leads there.
    pub(crate) const BETWEEN: State = State { number: 3 };

    // ---- what the words that lead to a state are for

    pub const CLASS_NAME: State = State { number: 8 };

    pub const SUPERCLASS: State = State { number: 10 };

    pub const CLASS_INTERFACE: State = State { number: 12 };

    pub const ATTRIBUTE_TYPE: State = State { number: 14 };

    pub const ATTRIBUTE_NAME: State = State { number: 15 };

    pub const INTERFACE_NAME: State = State { number: 17 };

    pub const SUPERINTERFACE: State = State { number: 19 };

    pub const ENUMERATION_NAME: State = State { number: 21 };

    pub const CONSTANT: State = State { number: 23 };

    pub const LEFT_LOW: State = State { number: 27 };

    pub const LEFT_UP: State = State { number: 29 };

    pub const LEFT_TYPE: State = State { number: 31 };

    pub const LEFT_ROLE: State = State { number: 33 };

    pub const RIGHT_ROLE: State = State { number: 37 };

    pub const RIGHT_TYPE: State = State { number: 39 };

    pub const RIGHT_LOW: State = State { number: 41 };

    pub const RIGHT_UP: State = State { number: 43 };

    // ---- the other tokens that a declaration is known by

    pub const STEREOTYPE: State = State { number: 4 };
    // Behind "abstract", or behind a stereotype.
    pub const MODIFIED: State = State { number: 6 };

    pub const ASSOCIATION: State = State { number: 25 };

    pub const LEFT_DOTS: State = State { number: 28 };

    pub const ARROW: State = State { number: 35 };

    pub const RIGHT_DOTS: State = State { number: 42 };
}
