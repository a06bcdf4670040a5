// The rows of a text by the table of the grammar, read by a cursor: the unread rest of the text and a state.
#![tactic(auto)]

ghost use Rattle.std.specs.Prelude.{◌≡◌, ℕ, not, [], ◌+◌, ◌≤◌, eqb, get_or, length, unwrap_or};
ghost use Rattle.laws.specs.Bounded.{one};
ghost use Rattle.laws.specs.Connective.{both, either};
ghost use Rattle.texts.specs.Token.{tokens};
ghost use Rattle.texts.specs.Table.{accepts, class_for, has_long_from, passes, words_for};
ghost use Rattle.text_rows.specs.RowAt.{RowEnds, row_at};
ghost use Rattle.text_rows.specs.Scan.{IsFirst, Scans};
ghost use Rattle.text_rows.specs.Noted.{is_word_class, noted, word_or};
ghost use Rattle.text_rows.specs.Passes.{Passes};

mod states; // states.rt: the states of the table
mod table; // table.rt: the state that a token leads to
mod tokens; // tokens.rt: the word or mark at the front

pub use states::State;
use tokens::Front;

// ---- words

// Where a word starts, and of how many bytes it is.
#[derive(Clone, Copy)]
pub struct Word {
    pub start: usize,
    pub size: usize,
}

// The bytes of a word in s; no bytes where there is none.
pub fn word_of(s: &[u8], word: Option<Word>) -> &[u8]
    ensures { result.now ≡ word_or s.now word [] }
{
    word.map_or(&[], |w| laws::front(laws::past(s, w.start), w.size))
}

// ---- a walk over the tokens

// A token: what stands from its first byte on, its class and size, the state that it leads to, and what stands behind it.
#[derive(Clone, Copy)]
pub(crate) struct Passed<'a> {
    start: &'a [u8],
    front: Front,
    state: State,
    after: &'a [u8],
}

// The token that comes next in the state q, behind the blanks at the front, if there is one. Four functions walk by it with a rest and a
// state of their own: an iterator would have to say in its contract what stands behind each token that it gives.
fn next_token(s: &[u8], q: State) -> Option<Passed<'_>>
    ensures { Passes s.now q.number result }
{
    let start = tokens::unblanked(s);
    if start.is_empty() {
        return None;
    }
    let front = tokens::token_at(start);
    Some(Passed {
        start,
        front,
        state: State {
            number: table::next_state(q.number, front.class),
        },
        after: laws::past(start, front.size),
    })
}

// The table accepts the text, and no name has more than 16 bytes.
pub fn is_accepted(text: &[u8]) -> bool
    ensures { result ≡ both (accepts 0 (tokens text.now)) (not (has_long_from 0 (tokens text.now))) }
{
    let mut rest = text;
    let mut q = State::START;
    while let Some(token) = next_token(rest, q) {
        if table::is_name_state(token.state.number) & (16 < token.front.size) {
            return false;
        }
        rest = token.after;
        q = token.state;
    }
    q == State::END
}

// What stands behind the row from state q: behind the token that leads between declarations, if one does.
pub fn row_end(s: &[u8], q: State) -> Option<&[u8]>
    ensures { RowEnds q.number s.now result }
{
    let mut rest = s;
    let mut state = q;
    while let Some(token) = next_token(rest, state) {
        if token.state == State::BETWEEN {
            return Some(token.after);
        }
        rest = token.after;
        state = token.state;
    }
    None
}

// ---- what one walk over a row tells of each state

// Of the tokens that lead to a state the class of the first, how many are words, and the first of these.
#[derive(Clone, Copy, Default)]
pub(crate) struct Noted {
    class: Option<u8>,
    count: usize,
    first: Option<Word>,
}

// A token of that class is a word.
fn is_word_class(class: u8) -> bool
    ensures { result ≡ is_word_class class }
{
    (16 <= class) & (class <= 27)
}

impl Noted {
    // With one more token of that class, at that byte and of so many bytes.
    fn with_token(self, class: u8, at: usize, size: usize) -> Noted
        requires { self.count + one (is_word_class class) ≤ 0xFFFFFFFFFFFFFFFF }
        ensures { result ≡ noted self class at size }
    {
        let word = is_word_class(class);
        Noted {
            class: self.class.or(Some(class)),
            count: self.count + usize::from(word),
            first: self.first.or(word.then_some(Word { start: at, size })),
        }
    }
}

// What is left of a text, what is known of each state of the row at its front, and what stands behind that row, if it ends.
#[derive(Drop)]
pub struct Scanned<'a> {
    pub rest: &'a [u8],
    states: [Noted; 47],
    after: Option<&'a [u8]>,
    ghost scans: { Scans rest.now states },
    ghost ends: { RowEnds 3 rest.now after },
}

// One walk over the row at the front.
pub fn scan_row<'a>(s: &'a [u8]) -> Scanned<'a>
    ensures { result.rest.now ≡ s.now }
{
    let mut states = [Noted::default(); 47];
    let mut rest = s;
    let mut state = State::BETWEEN;
    while let Some(token) = next_token(rest, state) {
        let at = s.len() - token.start.len();
        let k = usize::from(token.state.number);
        states[k] = states[k].with_token(token.front.class, at, token.front.size);
        if token.state == State::BETWEEN {
            return Scanned {
                rest: s,
                states,
                after: Some(token.after),
            };
        }
        rest = token.after;
        state = token.state;
    }
    Scanned {
        rest: s,
        states,
        after: None,
    }
}

impl<'a> Scanned<'a> {
    // What stands behind the row, if it ends.
    pub fn after(&self) -> Option<&'a [u8]>
        ensures { RowEnds 3 self.now.rest.now result }
    {
        self.after
    }

    // The class of the first token of the row that leads to the state q.
    pub fn class_for(&self, q: State) -> Option<u8>
        ensures { (unwrap_or result 29 ≡ class_for q.number (row_at self.now.rest.now)) × ((c : ℕ) → result ≡ Some c → c ≤ 28) }
    {
        self.states[usize::from(q.number)].class
    }

    // Some token of the row leads to q.
    pub fn is_passed(&self, q: State) -> bool
        ensures { result ≡ passes q.number (row_at self.now.rest.now) }
    {
        self.class_for(q).is_some()
    }

    // How many words of the row lead to q.
    pub fn count_for(&self, q: State) -> usize
        ensures { (result ≡ length (words_for q.number q.number q.number (row_at self.now.rest.now))) × (result ≤ length self.now.rest.now) }
    {
        self.states[usize::from(q.number)].count
    }

    // The first of these, if there is one.
    pub fn first_for(&self, q: State) -> Option<&'a [u8]>
        ensures { IsFirst (words_for q.number q.number q.number (row_at self.now.rest.now)) result }
    {
        let first = self.states[usize::from(q.number)].first?;
        Some(laws::front(laws::past(self.rest, first.start), first.size))
    }
}

// ---- words for one of three states: that many, since the definition, `words_for`, has three

// A token of that class, which leads to q, is a word for one of three states.
fn is_wanted(q: u8, class: u8, a: u8, b: u8, c: u8) -> bool
    ensures { result ≡ both (either (eqb q a) (either (eqb q b) (eqb q c))) (is_word_class class) }
{
    ((q == a) | ((q == b) | (q == c))) & is_word_class(class)
}

// Where word i of those that lead to one of three states stands, if there is one. States by their numbers, which may be any: there is no
// word for a number that no state has.
pub fn word_at(s: &[u8], a: u8, b: u8, c: u8, i: usize) -> Option<Word>
    ensures { word_or s.now result [] ≡ get_or (words_for a b c (row_at s.now)) i [] }
{
    let mut rest = s;
    let mut state = State::BETWEEN;
    let mut left = i;
    while let Some(token) = next_token(rest, state) {
        let wanted = is_wanted(token.state.number, token.front.class, a, b, c);
        if wanted & (left == 0) {
            return Some(Word {
                start: s.len() - token.start.len(),
                size: token.front.size,
            });
        }
        left = left.saturating_sub(usize::from(wanted));
        if token.state == State::BETWEEN {
            return None;
        }
        rest = token.after;
        state = token.state;
    }
    None
}

// That word; no bytes where there is none.
pub fn word_for(s: &[u8], a: u8, b: u8, c: u8, i: usize) -> &[u8]
    ensures { result.now ≡ get_or (words_for a b c (row_at s.now)) i [] }
{
    word_of(s, word_at(s, a, b, c, i))
}
