// A tape that is not refused: each of its frames is judged where it lies.
ghost use Rattle.std.specs.Prelude.{◌≡◌};
ghost use Rattle.octets.specs.Basics.{first};
ghost use Rattle.frames.specs.Frame.{frame_length};
ghost use Rattle.judge.specs.Calls.{judging, left_by, judge_calls};
ghost use Rattle.judge.specs.Tapes.{frames_in, tape_refusals};

use crate::{Judge, trial};
use frames::Settings;

// The record after all its frames, which have `size` octets each.
pub(crate) fn played(s: Settings, j: Judge, size: usize, store: &mut [u8], tape: &[u8]) -> Judge
    requires tape_value { first (tape_refusals s store.old j tape.now) ≡ 0 }
    requires size_value { size ≡ frame_length s }
    ensures { judging result store.new ≡ left_by (judge_calls s store.old j (frames_in s tape.now)) }
{
    let mut next = j;
    for frame in tape.chunks_exact(size) {
        next = trial::judged(s, next, store, frame);
    }
    next
}
