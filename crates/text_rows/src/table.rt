// The grammar as a table: the state that a token leads to, by its class. States are here by their numbers, as in the definition's table;
// the walks over a text have them as `State`.
ghost use Rattle.std.specs.Prelude.{◌≡◌, ◌≤◌};
ghost use Rattle.texts.specs.Table.{is_name_state, next};

// The state that a name leads to from q; 46, outside the grammar, where none may stand.
fn by_name(q: u8) -> u8
    requires { q ≤ 46 }
    ensures { (result ≡ next q 27) × (result ≤ 46) }
{
    match q {
        1 => 2,
        7 => 8,
        9 => 10,
        11 => 12,
        13 => 14,
        14 => 15,
        16 => 17,
        18 => 19,
        20 => 21,
        22 => 23,
        25 | 30 => 31,
        32 => 33,
        36 => 37,
        35 | 38 => 39,
        _ => 46,
    }
}

// The state that a token of class c leads to from q. By class, then by state: a class's arm has all edges of its token. The definition goes
// by state.
pub(crate) fn next_state(q: u8, c: u8) -> u8
    requires { (q ≤ 46) × (c ≤ 28) }
    ensures { (result ≡ next q c) × (result ≤ 46) }
{
    match c {
        // <-> -> <- --
        0..=3 => match q {
            31 | 34 => 35,
            _ => 46,
        },
        // <<
        4 => match q {
            3 => 4,
            _ => 46,
        },
        // >>
        5 => match q {
            5 => 6,
            _ => 46,
        },
        // ..
        6 => match q {
            27 => 28,
            41 => 42,
            _ => 46,
        },
        // {
        7 => match q {
            2 => 3,
            8 | 10 | 12 => 13,
            21 => 22,
            _ => 46,
        },
        // }
        8 => match q {
            13 | 24 => 3,
            3 => 45,
            _ => 46,
        },
        // ;
        9 => match q {
            8 | 10 | 12 | 17 | 19 | 21 | 39 | 44 => 3,
            15 => 13,
            23 => 24,
            _ => 46,
        },
        // ,
        10 => match q {
            10 => 9,
            12 => 11,
            19 => 18,
            23 => 22,
            _ => 46,
        },
        // (
        11 => match q {
            31 => 32,
            35 => 36,
            _ => 46,
        },
        // )
        12 => match q {
            33 => 34,
            37 => 38,
            _ => 46,
        },
        // [
        13 => match q {
            25 => 26,
            39 => 40,
            _ => 46,
        },
        // ]
        14 => match q {
            27 | 29 => 30,
            41 | 43 => 44,
            _ => 46,
        },
        // *
        15 => match q {
            26 | 28 => 29,
            40 | 42 => 43,
            _ => 46,
        },
        // classdiagram
        16 => match q {
            0 => 1,
            _ => 46,
        },
        // class
        17 => match q {
            3 | 6 => 7,
            _ => 46,
        },
        // extends
        18 => match q {
            8 => 9,
            17 => 18,
            _ => 46,
        },
        // implements
        19 => match q {
            8 | 10 => 11,
            _ => 46,
        },
        // interface
        20 => match q {
            3 => 16,
            _ => 46,
        },
        // enum
        21 => match q {
            3 => 20,
            _ => 46,
        },
        // association, composition
        22..=23 => match q {
            3 => 25,
            _ => 46,
        },
        // abstract
        24 => match q {
            3 => 6,
            _ => 46,
        },
        // singleton
        25 => match q {
            4 => 5,
            _ => by_name(q),
        },
        // an integer
        26 => match q {
            26 => 27,
            28 => 29,
            40 => 41,
            42 => 43,
            _ => by_name(q),
        },
        // another name
        27 => by_name(q),
        _ => 46,
    }
}

// A name leads to q. Two arms, and no `matches!`: that makes a range of 14 and 15, and its proof a case for each state.
pub(crate) fn is_name_state(q: u8) -> bool
    ensures { result ≡ is_name_state q }
{
    match q {
        2 | 8 | 10 | 12 | 14 | 17 | 19 | 21 | 23 | 31 | 33 | 37 | 39 => true,
        15 => true,
        _ => false,
    }
}
