// The boundary to other programs as a static library with a C interface: packaging/replay.h says how it is called.
#![tactic(auto)]

ghost use Rattle.replay.specs.Replays.{Replayed};

// Runs the calls, writes their replies to the front of `replies`, and returns how many bytes these are.
#[unsafe(no_mangle)]
pub extern "C" fn replay(calls: &[u8], replies: &mut [u8]) -> usize
    ensures { Replayed calls.now replies.old result replies.new }
{
    replay::replay(calls, replies)
}
