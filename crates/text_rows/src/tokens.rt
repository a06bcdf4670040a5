// The word or mark at the front of the unread rest of a text.
ghost use Rattle.std.specs.Prelude.{◌≡◌, ℕ, cond, [], ◌≤◌, ◌<◌, eqb, ltb, length, get_or, unwrap_or};
ghost use Rattle.laws.specs.Connective.{both};
ghost use Rattle.files.specs.Name.{name_byte};
ghost use Rattle.texts.specs.Token.{is_blank, is_integer, mark_at, marks, run, same_word, word_class};
ghost use Rattle.text_rows.specs.Front.{Fronts, NoOther, known_words, unblank};

// Its class, and of how many bytes it is. A class is a number, as in the definition, and tests go by ranges of it (`0..=3`, 16 to 27): an
// enum of 29 would be turned into that number in each contract.
#[derive(Clone, Copy)]
pub(crate) struct Front {
    pub class: u8,
    pub size: usize,
}

// One answer where byte i is b, another where it is not. What it says is one equation, also past the end, and the laws of the marks
// take it; a pattern of a slice would tell the lengths apart in each arm.
fn by_byte(s: &[u8], i: usize, b: u8, yes: Option<u8>, no: Option<u8>) -> Option<u8>
    ensures { result ≡ cond (eqb b (get_or s.now i 0)) yes no }
{
    if b == laws::byte(s, i) { yes } else { no }
}

#[tactic(auto, unfolding(laws::specs::Connective::either, texts::specs::Token::is_blank))]
fn is_blank(b: u8) -> bool
    ensures { result ≡ is_blank b }
{
    matches!(b, b' ' | b'\t' | b'\n' | b'\r')
}

// What follows the blanks at the front.
pub(crate) fn unblanked(s: &[u8]) -> &[u8]
    ensures { result.now ≡ unblank s.now }
{
    let blanks = s.iter().position(|b| !is_blank(*b)).unwrap_or(s.len());
    laws::past(s, blanks)
}

// The length of the longest run of name bytes at the front.
fn run_size(s: &[u8]) -> usize
    ensures { result ≡ length (run s.now) }
{
    s.iter()
        .position(|b| !fields::name_byte(*b))
        .unwrap_or(s.len())
}

// ---- words

// The only known word that w can be, by its length and, where two have that length, its first byte: its place among them.
fn candidate(w: &[u8]) -> Option<u8>
    ensures { NoOther w.now (unwrap_or result 10) }
{
    match w.len() {
        4 => Some(5),
        5 => Some(1),
        7 => Some(2),
        8 => Some(8),
        9 => by_byte(w, 0, b'i', Some(4), Some(9)),
        10 => Some(3),
        11 => by_byte(w, 0, b'a', Some(6), Some(7)),
        12 => Some(0),
        _ => None,
    }
}

// w is known word k. Ten arms, and no table: what an element of a constant array of slices holds is not known in a proof.
fn is_word(k: u8, w: &[u8]) -> bool
    requires { k ≤ 10 }
    ensures { result ≡ both (ltb k 10) (same_word (get_or known_words k []) w.now) }
{
    match k {
        0 => fields::same_name(b"classdiagram", w),
        1 => fields::same_name(b"class", w),
        2 => fields::same_name(b"extends", w),
        3 => fields::same_name(b"implements", w),
        4 => fields::same_name(b"interface", w),
        5 => fields::same_name(b"enum", w),
        6 => fields::same_name(b"association", w),
        7 => fields::same_name(b"composition", w),
        8 => fields::same_name(b"abstract", w),
        9 => fields::same_name(b"singleton", w),
        _ => false,
    }
}

fn is_integer(w: &[u8]) -> bool
    ensures { result ≡ is_integer w.now }
{
    w.iter().all(|b| b.is_ascii_digit())
}

// The class of w, if it is a known word.
fn known_class(w: &[u8]) -> Option<u8>
    ensures { (unwrap_or result (cond (is_integer w.now) 26 27) ≡ word_class w.now) × ((c : ℕ) → result ≡ Some c → c ≤ 27) }
{
    let k = candidate(w)?;
    is_word(k, w).then_some(16 + k)
}

fn word_class(w: &[u8]) -> u8
    ensures { (result ≡ word_class w.now) × (result ≤ 27) }
{
    match known_class(w) {
        Some(class) => class,
        None if is_integer(w) => 26,
        None => 27,
    }
}

// ---- marks

// The first of the marks that stands at the front: by the first byte, and where that begins more than one mark, by the next.
fn mark_at(s: &[u8]) -> Option<u8>
    requires { 0 < length s.now }
    ensures { (unwrap_or result 16 ≡ mark_at s.now) × ((i : ℕ) → result ≡ Some i → i < 16) }
{
    match s[0] {
        b'<' => by_byte(
            s,
            1,
            b'-',
            by_byte(s, 2, b'>', Some(0), Some(2)),
            by_byte(s, 1, b'<', Some(4), None),
        ),
        b'-' => by_byte(s, 1, b'>', Some(1), by_byte(s, 1, b'-', Some(3), None)),
        b'>' => by_byte(s, 1, b'>', Some(5), None),
        b'.' => by_byte(s, 1, b'.', Some(6), None),
        b'{' => Some(7),
        b'}' => Some(8),
        b';' => Some(9),
        b',' => Some(10),
        b'(' => Some(11),
        b')' => Some(12),
        b'[' => Some(13),
        b']' => Some(14),
        b'*' => Some(15),
        _ => None,
    }
}

// The length of mark i.
fn mark_size(i: u8) -> usize
    requires { i < 16 }
    ensures { result ≡ length (get_or marks i []) }
{
    match i {
        0 => 3,
        1..=6 => 2,
        _ => 1,
    }
}

// The token at the front, where no blank stands there.
pub(crate) fn token_at(s: &[u8]) -> Front
    requires { 0 < length s.now }
    ensures { Fronts s.now result }
{
    let n = run_size(s);
    if 0 < n {
        let class = word_class(laws::front(s, n));
        return Front { class, size: n };
    }
    match mark_at(s) {
        Some(m) => Front {
            class: m,
            size: mark_size(m),
        },
        None => Front { class: 28, size: 1 },
    }
}
