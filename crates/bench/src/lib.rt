// The bench: two places for diagrams, old and new, and at most one witness; and its calls.
#![tactic(auto)]

mod parts; // parts.rt: the struct, and what holds of its parts

ghost use Rattle.std.specs.Prelude.{[], ◌≡◌};
ghost use Rattle.steps.specs.Bench.{Load, Clear, Judge, Compile, Evaluate, Compare, HandOut, LoadText, Convert};
ghost use Rattle.steps.specs.Step.{clear, diagram_at, evaluated, judged, load, load_text};
ghost use Rattle.fields.specs.Refusal.{answer_of};
ghost use Rattle.bench.specs.Parts.{diagram_by, diagram_in};
ghost use Rattle.bench.specs.View.{asked_in, bench_of, fresh_in, left_by, listed_by, place_in, placed_in, reply_by, said_by};
ghost use Rattle.bench.specs.Calls.{Chose, Does, DoesWith, Placed};

use diagrams::ReadDiagram;
use fields::Refusal;
pub use parts::{Bench, Witness};
use records::MemoryRecord;

// Numbers of rules, entries and objects are below 256, as `as u8` keeps them.
#[derive(Clone, Copy)]
pub enum Reply {
    Done,
    // 0 is no rule, as the reply to judge has it.
    Rule(u8),
    Records(u8),
    // The number of entries stands for none, as the reply to evaluate has it.
    FirstFalse(u8),
    NoDifference,
    Difference(u8),
    Written(usize),
    Refused(u8),
}

#[derive(Clone, Copy)]
pub struct Replied {
    pub bench: Bench,
    pub reply: Reply,
}

// What compile replies, and its list.
#[derive(Clone, Copy)]
pub struct CompileReply {
    pub reply: Reply,
    pub list: [u8; 448],
}

// What compile gives: the bench, the reply, and beside it 64 entries of seven bytes, all zero where it was refused, as the definition has
// it (`DoesWith`).
#[derive(Clone, Copy)]
pub struct Listed {
    pub bench: Bench,
    pub reply: Reply,
    pub list: [u8; 448],
}

// ---- parts

pub fn fresh() -> Bench
    ensures { result ≡ fresh_in }
{
    Bench {
        old: None,
        new: None,
        witness: None,
    }
}

// A bench has the places 0 and 1. A place stays the number that the call gives: what a call means is said of the number, and three
// functions take it apart, each in one test.
fn check_place(p: u8) -> Result<(), Refusal>
    ensures { Placed p result }
{
    if 1 < p {
        return Err(Refusal::Place);
    }
    Ok(())
}

// What place p holds.
#[tactic(auto, unfolding(crate::specs::Parts::pick))]
fn place_of(b: &Bench, p: u8) -> Option<ReadDiagram>
    ensures { result ≡ place_in b.now p }
{
    if p == 0 { b.old } else { b.new }
}

// The diagram in place p, which a call needs.
fn diagram_at(b: &Bench, p: u8) -> Result<ReadDiagram, Refusal>
    ensures { answer_of diagram_by result ≡ diagram_at (bench_of b.now) p }
{
    check_place(p)?;
    place_of(b, p).ok_or(Refusal::Empty)
}

// ---- what a call sets a place to, or its refusal. The two that read differ in the reader: one function for both would take what was read,
// also where there is no such place, or the reader with its promise.

fn loaded(place: u8, file: &[u8]) -> Result<Option<ReadDiagram>, Refusal>
    ensures { answer_of diagram_in result ≡ load place file.now }
{
    check_place(place)?;
    let d = loading::read_diagram(file)?;
    Ok(Some(d))
}

fn loaded_text(place: u8, text: &[u8]) -> Result<Option<ReadDiagram>, Refusal>
    ensures { answer_of diagram_in result ≡ load_text place text.now }
{
    check_place(place)?;
    let d = text_loading::read_text(text)?;
    Ok(Some(d))
}

fn cleared(place: u8) -> Result<Option<ReadDiagram>, Refusal>
    ensures { answer_of diagram_in result ≡ clear place }
{
    check_place(place)?;
    Ok(None)
}

// What a call that asks replies.
fn told(r: Result<Reply, Refusal>) -> Reply
    ensures { result ≡ reply_by r }
{
    r.unwrap_or_else(|refusal| Reply::Refused(refusal.number()))
}

// ---- calls on a bench that stays where it stands; before each, what it gives where it is not refused

impl Bench {
    // The place is what was read, or empty, and the witness is dropped; or the refusal, and the bench as it came.
    #[tactic(auto, unfolding(crate::specs::View::settled_in))]
    fn set(&mut self, place: u8, r: Result<Option<ReadDiagram>, Refusal>) -> Reply
        ensures { left_by self.exit.now result ≡ placed_in self.entry.now place r }
    {
        match r {
            Ok(x) => {
                self.witness = None;
                if place == 0 {
                    self.old = x;
                } else {
                    self.new = x;
                }
                Reply::Done
            }
            Err(refusal) => Reply::Refused(refusal.number()),
        }
    }

    // The place holds the diagram of the file, and the witness is dropped.
    pub fn run_load(&mut self, place: u8, file: &[u8]) -> Reply
        ensures { Does self.entry.now (Load place file.now) (left_by self.exit.now result) [] }
    {
        self.set(place, loaded(place, file))
    }

    // The place is empty, and the witness is dropped.
    pub fn run_clear(&mut self, place: u8) -> Reply
        ensures { Does self.entry.now (Clear place) (left_by self.exit.now result) [] }
    {
        self.set(place, cleared(place))
    }

    fn judged(&self, place: u8, file: &[u8]) -> Result<Reply, Refusal>
        ensures { said_by result ≡ judged (bench_of self.now) place file.now }
    {
        let d = diagram_at(self, place)?;
        let rule = judging::judge(d, file)?;
        Ok(Reply::Rule(rule))
    }

    // 0, or the lowest rule that the record breaks.
    pub fn run_judge(&self, place: u8, file: &[u8]) -> Reply
        ensures { Does self.now (Judge place file.now) (left_by self.now result) [] }
    {
        told(self.judged(place, file))
    }

    // The compiled records and their number.
    pub fn run_compile(&self, place: u8) -> CompileReply
        ensures { DoesWith self.now (Compile place) (listed_by self.now result) }
    {
        match diagram_at(self, place) {
            Ok(d) => {
                let c = compiling::compile(d);
                let list = c.list;
                CompileReply {
                    reply: Reply::Records(c.number as u8),
                    list,
                }
            }
            Err(refusal) => CompileReply {
                reply: Reply::Refused(refusal.number()),
                list: [0; 448],
            },
        }
    }

    fn evaluated(&self, place: u8, file: &[u8]) -> Result<Reply, Refusal>
        ensures { said_by result ≡ evaluated (bench_of self.now) place file.now }
    {
        let d = diagram_at(self, place)?;
        let first = evaluating::evaluate(d, file)?;
        Ok(Reply::FirstFalse(first as u8))
    }

    // The number of compiled records if all hold, else the index of the first that does not.
    pub fn run_evaluate(&self, place: u8, file: &[u8]) -> Reply
        ensures { Does self.now (Evaluate place file.now) (left_by self.now result) [] }
    {
        told(self.evaluated(place, file))
    }

    fn compared(&self, bound: u8) -> Result<Option<MemoryRecord>, Refusal>
        ensures { Chose self.now bound result }
    {
        if 8 < bound {
            return Err(Refusal::Bound);
        }
        let old = diagram_at(self, 0)?;
        let new = diagram_at(self, 1)?;
        Ok(comparing::compare(old, new, bound))
    }

    // Whether some record of at most `bound` objects is legal for old and illegal for new; the witness is stored or dropped.
    pub fn run_compare(&mut self, bound: u8) -> Reply
        ensures { Does self.entry.now (Compare bound) (left_by self.exit.now result) [] }
    {
        match self.compared(bound) {
            Ok(Some(found)) => {
                self.witness = Some(Witness { place: 0, found });
                Reply::Difference(found.count as u8)
            }
            Ok(None) => {
                self.witness = None;
                Reply::NoDifference
            }
            Err(refusal) => Reply::Refused(refusal.number()),
        }
    }

    fn handed_out(&self, out: &mut [u8]) -> Result<Reply, Refusal>
        ensures { Does self.now (HandOut out.old) (asked_in self.now result) out.new }
    {
        let w = self.witness.ok_or(Refusal::NoWitness)?;
        if out.len() < 60000 {
            return Err(Refusal::Buffer);
        }
        let d = place_of(self, w.place).unwrap();
        let n = writing::write_record(d, w.found, out).unwrap();
        Ok(Reply::Written(n))
    }

    // The witness as a record file at the front of the buffer.
    pub fn run_hand_out(&self, out: &mut [u8]) -> Reply
        ensures { Does self.now (HandOut out.old) (left_by self.now result) out.new }
    {
        told(self.handed_out(out))
    }

    // The place holds the diagram of the text, and the witness is dropped.
    pub fn run_load_text(&mut self, place: u8, text: &[u8]) -> Reply
        ensures { Does self.entry.now (LoadText place text.now) (left_by self.exit.now result) [] }
    {
        self.set(place, loaded_text(place, text))
    }

    fn converted(&self, file: &[u8], out: &mut [u8]) -> Result<Reply, Refusal>
        ensures { Does self.now (Convert file.now out.old) (asked_in self.now result) out.new }
    {
        let n = converting::convert(file, out)?;
        Ok(Reply::Written(n))
    }

    // The diagram file in its other edition at the front of the buffer. Nothing of the bench is asked for.
    pub fn run_convert(&self, file: &[u8], out: &mut [u8]) -> Reply
        ensures { Does self.now (Convert file.now out.old) (left_by self.now result) out.new }
    {
        told(self.converted(file, out))
    }
}

// ---- the same on a bench that is handed on, for programs that keep one by value (`cases`): each call is the one above, and the bench that
// it leaves goes with the reply

impl Bench {
    // By `run_load`.
    pub fn load(mut self, place: u8, file: &[u8]) -> Replied
        ensures { Does self (Load place file.now) result [] }
    {
        let reply = self.run_load(place, file);
        Replied { bench: self, reply }
    }

    // By `run_clear`.
    pub fn clear(mut self, place: u8) -> Replied
        ensures { Does self (Clear place) result [] }
    {
        let reply = self.run_clear(place);
        Replied { bench: self, reply }
    }

    // By `run_judge`.
    pub fn judge(self, place: u8, file: &[u8]) -> Replied
        ensures { Does self (Judge place file.now) result [] }
    {
        let reply = self.run_judge(place, file);
        Replied { bench: self, reply }
    }

    // By `run_compile`.
    pub fn compile(self, place: u8) -> Listed
        ensures { DoesWith self (Compile place) result }
    {
        let c = self.run_compile(place);
        let list = c.list;
        Listed {
            bench: self,
            reply: c.reply,
            list,
        }
    }

    // By `run_evaluate`.
    pub fn evaluate(self, place: u8, file: &[u8]) -> Replied
        ensures { Does self (Evaluate place file.now) result [] }
    {
        let reply = self.run_evaluate(place, file);
        Replied { bench: self, reply }
    }

    // By `run_compare`.
    pub fn compare(mut self, bound: u8) -> Replied
        ensures { Does self (Compare bound) result [] }
    {
        let reply = self.run_compare(bound);
        Replied { bench: self, reply }
    }

    // By `run_hand_out`.
    pub fn hand_out(self, out: &mut [u8]) -> Replied
        ensures { Does self (HandOut out.old) result out.new }
    {
        let reply = self.run_hand_out(out);
        Replied { bench: self, reply }
    }

    // By `run_load_text`.
    pub fn load_text(mut self, place: u8, text: &[u8]) -> Replied
        ensures { Does self (LoadText place text.now) result [] }
    {
        let reply = self.run_load_text(place, text);
        Replied { bench: self, reply }
    }

    // By `run_convert`.
    pub fn convert(self, file: &[u8], out: &mut [u8]) -> Replied
        ensures { Does self (Convert file.now out.old) result out.new }
    {
        let reply = self.run_convert(file, out);
        Replied { bench: self, reply }
    }
}
