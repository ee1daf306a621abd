// The judge of a recorded run: one whole frame at a time or any number of them end to end, and a verdict at the close.
#![tactic(auto)]

ghost use Rattle.std.specs.Prelude.{◌≡◌};
ghost use Rattle.judge.specs.Calls.{judge_says, frame_call, close_says, close_call};
ghost use Rattle.judge.specs.Tapes.{tape_call};

use frames::Settings;
use octets::Refusal;

mod playing;
mod record;
mod trial;

// What a judge keeps between frames.
#[derive(Clone, Copy, Debug, PartialEq, Eq)]
pub enum Judge {
    // No frame yet: in step, nothing held, no last count.
    Open,
    // No fault so far: how many frames, the last one's count, and how many octets of a packet are in the store.
    Sound { tally: u32, last: u32, held: usize },
    // How many frames, and the index of the first that is a fault.
    Faulty { tally: u32, at: u32 },
}

// The verdict on a run. A fault is an answer and no error: what `?` hands on are the refusals.
#[derive(Clone, Copy, Debug, PartialEq, Eq)]
pub enum Verdict {
    Pass,
    // The index of the first fault; the number of frames where octets are still held.
    Fault { at: u32 },
}

// One whole frame of the run: the record after it. Up to the first fault the store changes as the extractor's steps change it.
pub fn frame(s: Settings, j: Judge, store: &mut [u8], frame: &[u8]) -> Result<Judge, Refusal>
    ensures { judge_says j result store.new ≡ frame_call s store.old j frame.now }
{
    record::check(s, j, store)?;
    if record::is_past_last(j, 1) {
        return Err(Refusal::Frames);
    }
    Ok(trial::judged(s, j, store, frame))
}

// Frames that lie end to end, none included: as one after the other in single calls. A refusal takes none of them.
pub fn tape(s: Settings, j: Judge, store: &mut [u8], tape: &[u8]) -> Result<Judge, Refusal>
    ensures { judge_says j result store.new ≡ tape_call s store.old j tape.now }
{
    record::check(s, j, store)?;
    let size = s.zone + frames::around(s.link);
    if record::is_past_last(j, tape.len() / size) {
        return Err(Refusal::Frames);
    }
    if tape.len() % size != 0 {
        return Err(Refusal::Length);
    }
    Ok(playing::played(s, j, size, store, tape))
}

// The verdict on the frames so far. Record and store stay as they are.
pub fn close(s: Settings, j: Judge, store: &[u8]) -> Result<Verdict, Refusal>
    ensures { close_says result ≡ close_call s store.now j }
{
    record::check(s, j, store)?;
    Ok(record::verdict(j))
}
