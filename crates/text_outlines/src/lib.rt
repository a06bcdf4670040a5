// The outline of a text's body, made in one walk, so that what comes after goes from declaration to declaration without another.
#![tactic(auto)]

ghost use Rattle.std.specs.Prelude.{◌≡◌, [], ◌<◌, ◌≤◌, length};
ghost use Rattle.texts.specs.Declaration.{declaration_at};
ghost use Rattle.texts.specs.Declared.{parent_names};
ghost use Rattle.texts.specs.TextChecks.{has_forbidden};
ghost use Rattle.text_rows.specs.Noted.{word_or};
ghost use Rattle.text_rows.specs.RowAt.{declaration_by, declarations_by};
ghost use Rattle.text_parts.specs.Sort.{number_of, of_kind};
ghost use Rattle.text_outlines.specs.Outline.{Outlines, Suffix, Tells};

use text_parts::{Kind, Sort};
use text_rows::{Scanned, Word};

// Where a declaration starts in the body, what it is, where its name stands in the body, how many parents, attributes and constants
// it has. An association has no name.
#[derive(Clone, Copy, Default)]
pub(crate) struct Outlined {
    start: usize,
    what: Option<Sort>,
    name: Option<Word>,
    parents: usize,
    attributes: usize,
    constants: usize,
}

// A body, how many declarations it has, in all, and, since there is no heap, room for the first 52 of them: that many are 12 enumerations,
// 24 types and 16 associations. And whether some cardinality is forbidden.
#[derive(Drop)]
pub struct Outline<'a> {
    pub body: &'a [u8],
    pub count: usize,
    pub forbidden: bool,
    declarations: [Outlined; 52],
    ghost outlines: { Outlines body.now declarations count },
    ghost forbids: { forbidden ≡ has_forbidden (declarations_by body.now) },
}

// An outline that has all declarations of its body.
#[derive(Clone, Copy)]
pub struct CompleteOutline<'a> {
    pub outline: &'a Outline<'a>,
    ghost complete: { outline.now.count ≤ 52 },
}

// ---- the walk

// Where the name of the declaration at the front of the row stands in the body.
fn name_in(body: &[u8], row: &Scanned) -> Option<Word>
    requires { Suffix body.now row.now.rest.now }
    ensures { word_or body.now result [] ≡ (declaration_by row.now.rest.now).name }
{
    if text_parts::is_nameless(row) {
        return None;
    }
    let w = text_parts::name_at(row.rest)?;
    let name = laws::past(row.rest, w.start);
    Some(Word {
        start: body.len() - name.len(),
        size: w.size,
    })
}

// What is known of that declaration.
fn read_row(body: &[u8], row: &Scanned) -> Outlined
    requires { Suffix body.now row.now.rest.now }
    ensures { Tells body.now result (declaration_by row.now.rest.now) }
{
    Outlined {
        start: body.len() - row.rest.len(),
        what: text_parts::what(row),
        name: name_in(body, row),
        parents: text_parts::parent_count(row),
        attributes: text_parts::attribute_count(row),
        constants: text_parts::constant_count(row),
    }
}

impl<'a> Outline<'a> {
    // One walk over all declarations of the body. A loop: rows have no iterator (`text_rows`), and the count is of all rows, also of those
    // that are not kept.
    pub fn new(body: &'a [u8]) -> Outline<'a>
        ensures { result.body.now ≡ body.now }
    {
        let mut declarations = [Outlined::default(); 52];
        let mut count = 0;
        let mut forbidden = false;
        let mut row = text_rows::scan_row(body);
        while let Some(after) = row.after() {
            forbidden |= text_parts::has_forbidden_end(&row);
            if count < 52 {
                declarations[count] = read_row(body, &row);
            }
            count += 1;
            row = text_rows::scan_row(after);
        }
        Outline {
            body,
            count,
            forbidden,
            declarations,
        }
    }

    // ---- declaration k. That it is there and kept is asked of each, and no part of a type: a caller has both from a loop over the count
    // of a complete outline, or from a test against 52 where the outline has not all.

    // The rest of the text at whose front it stands.
    pub fn declaration(&self, k: usize) -> &'a [u8]
        requires { (k < self.now.count) × (k < 52) }
        ensures { declaration_by result.now ≡ declaration_at (declarations_by self.now.body.now) k }
    {
        laws::past(self.body, self.declarations[k].start)
    }

    // What it is.
    pub fn what(&self, k: usize) -> Option<Sort>
        requires { (k < self.now.count) × (k < 52) }
        ensures { number_of result ≡ (declaration_at (declarations_by self.now.body.now) k).what }
    {
        self.declarations[k].what
    }

    // It is of that kind.
    pub fn is_kind(&self, k: usize, kind: Kind) -> bool
        requires { (k < self.now.count) × (k < 52) }
        ensures { result ≡ of_kind kind (declaration_at (declarations_by self.now.body.now) k) }
    {
        text_parts::is_kind(self.what(k), kind)
    }

    // Its name; an association has none.
    pub fn name(&self, k: usize) -> &'a [u8]
        requires { (k < self.now.count) × (k < 52) }
        ensures { result.now ≡ (declaration_at (declarations_by self.now.body.now) k).name }
    {
        text_rows::word_of(self.body, self.declarations[k].name)
    }

    pub fn parent_count(&self, k: usize) -> usize
        requires { (k < self.now.count) × (k < 52) }
        ensures { result ≡ length (parent_names (declaration_at (declarations_by self.now.body.now) k)) }
    {
        self.declarations[k].parents
    }

    pub fn attribute_count(&self, k: usize) -> usize
        requires { (k < self.now.count) × (k < 52) }
        ensures { result ≡ length (declaration_at (declarations_by self.now.body.now) k).attribute_types }
    {
        self.declarations[k].attributes
    }

    pub fn constant_count(&self, k: usize) -> usize
        requires { (k < self.now.count) × (k < 52) }
        ensures { result ≡ length (declaration_at (declarations_by self.now.body.now) k).constants }
    {
        self.declarations[k].constants
    }
}
