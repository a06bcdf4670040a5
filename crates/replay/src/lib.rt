// Runs a list of calls in bytes from a fresh bench, and writes the replies in bytes: the boundary to other programs.
#![tactic(auto)]

ghost use Rattle.std.specs.Prelude.{List, [], ◌≢◌, ◌≡◌, ℕ, ◌<◌, ◌≤◌, ◌⊎◌, length};
ghost use Rattle.bench.specs.Calls.{Does};
ghost use Rattle.bench.specs.View.{left_by, reply_of};
ghost use Rattle.coding.specs.CallBytes.{call_of, codes};
ghost use Rattle.coding.specs.ReplyBytes.{reply_bytes};
ghost use Rattle.replay.specs.Replays.{Replayed};
ghost use Rattle.replay.specs.Turned.{Turned, Wrote};

use bench::{Bench, Reply};

// What one call gave: how many bytes of the calls it took, and how many its reply has.
#[derive(Clone, Copy)]
pub struct Turn {
    pub used: usize,
    pub wrote: usize,
}

// Writes the reply to a call that took `used` bytes, with compile's list where it has one; none where it does not fit.
fn finish(r: Reply, list: &[u8], used: usize, out: &mut [u8]) -> Option<Turn>
    ensures { Wrote used (reply_bytes (reply_of r list.now)) out.old result out.new }
{
    let wrote = coding::say(out, r, list)?;
    Some(Turn { used, wrote })
}

// Runs the call of a code, one that is lent no buffer and gives no list. The codes are those of the list of calls, whose definition goes by
// them: an enum between them would be made of the code in `coding`, and the promise here would have to give the code back.
fn run_call(b: &mut Bench, code: u8, byte: u8, file: &[u8]) -> Reply
    requires { (1 ≤ code) × ((code < length codes) × ((code ≢ 4) × ((code ≢ 7) × (code ≢ 9)))) }
    ensures { (buffer : List ℕ) → Does b.entry.now (call_of code (record { byte = byte; file = file.now; buffer = buffer })) (left_by b.exit.now result) [] }
{
    match code {
        1 => b.run_load(byte, file),
        2 => b.run_clear(byte),
        3 => b.run_judge(byte, file),
        5 => b.run_evaluate(byte, file),
        6 => b.run_compare(byte),
        _ => b.run_load_text(byte, file),
    }
}

// Runs the call of a code, one that is lent a buffer.
fn run_lent(b: &Bench, code: u8, file: &[u8], out: &mut [u8]) -> Reply
    requires { (code ≡ 7) ⊎ (code ≡ 9) }
    ensures { (byte : ℕ) → Does b.now (call_of code (record { byte = byte; file = file.now; buffer = out.old })) (left_by b.now result) out.new }
{
    match code {
        7 => b.run_hand_out(out),
        _ => b.run_convert(file, out),
    }
}

// Runs the call at the front of s; none where the list of calls stops.
fn take_turn(b: &mut Bench, s: &[u8], out: &mut [u8]) -> Option<Turn>
    ensures { Turned b.entry.now s.now out.old result b.exit.now out.new }
{
    let n = coding::read_next(s, out.len())?;
    let file = laws::front(laws::past(s, n.from), n.len);
    if (n.code == 7) | (n.code == 9) {
        let lend = n.lend;
        let reply = run_lent(b, n.code, file, &mut out[5..5 + lend]);
        // It fits, since there is room for the buffer behind it.
        let _head = coding::head(out, reply);
        return Some(Turn {
            used: n.used,
            wrote: 5 + lend,
        });
    }
    if n.code == 4 {
        let d = b.run_compile(n.byte);
        let list = d.list;
        return finish(d.reply, &list, n.used, out);
    }
    let reply = run_call(b, n.code, n.byte, file);
    finish(reply, &[], n.used, out)
}

// Runs the calls, writes their replies to the front of `replies`, and returns how many bytes these are. `at` is where the next reply goes,
// and in the end the answer.
pub fn replay(calls: &[u8], replies: &mut [u8]) -> usize
    ensures { Replayed calls.now replies.old result replies.new }
{
    let mut b = bench::fresh();
    let mut rest = calls;
    let mut at = 0;
    while let Some(t) = take_turn(&mut b, rest, &mut replies[at..]) {
        at += t.wrote;
        rest = laws::past(rest, t.used);
    }
    at
}
