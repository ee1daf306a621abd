// The judge's record: whether the rules can reach it, and the verdict that it comes to.
ghost use Rattle.std.specs.Prelude.{◌≡◌, true, ◌≤◌};
ghost use Rattle.octets.specs.Basics.{first};
ghost use Rattle.octets.specs.Refusals.{refusal_of};
ghost use Rattle.frames.specs.Frame.{in_range, most_frames};
ghost use Rattle.judge.specs.Calls.{tally_of, past_last, counts_well, extractor_of, close_rows, judge_close, closes_with};

use crate::{Judge, Verdict};
use extractor::Extractor;
use frames::{MOST_FRAMES, Settings};
use octets::Refusal;

// The frames that it has seen.
pub(crate) fn tally_of(j: Judge) -> u32
    ensures { result ≡ tally_of j }
{
    match j {
        Judge::Open => 0,
        Judge::Sound { tally, .. } | Judge::Faulty { tally, .. } => tally,
    }
}

// Whether so many frames more pass the last that a run may have.
pub(crate) fn is_past_last(j: Judge, more: usize) -> bool
    requires { tally_of j ≤ most_frames }
    ensures { result ≡ (past_last j more).holds }
{
    ((MOST_FRAMES - tally_of(j)) as usize) < more
}

// Whether its numbers can be those of a run.
#[tactic(auto, unfolding(crate::specs::Calls::counts_well))]
fn counts_well(s: Settings, j: Judge) -> bool
    requires { in_range s ≡ true }
    ensures { result ≡ counts_well s j }
{
    match j {
        Judge::Open => true,
        Judge::Sound { tally, held, .. } => (1 <= tally)
            & ((tally <= MOST_FRAMES) & (held <= tally as usize * s.zone)),
        Judge::Faulty { tally, at } => (at < tally) & (tally <= MOST_FRAMES),
    }
}

// The extractor's record that goes on from it; a fresh one where nothing is held.
fn extractor_of(j: Judge) -> Extractor
    ensures { result ≡ extractor_of j }
{
    match j {
        Judge::Sound { last, held, .. } => Extractor::InStep { last, held },
        Judge::Open | Judge::Faulty { .. } => Extractor::Fresh,
    }
}

// Refuses settings, store and record.
pub(crate) fn check(s: Settings, j: Judge, store: &[u8]) -> Result<(), Refusal>
    ensures { refusal_of result ≡ first (close_rows s store.now j) }
{
    extractor::record_refusal(s, extractor_of(j), store)?;
    if !counts_well(s, j) {
        return Err(Refusal::Record);
    }
    Ok(())
}

// The verdict that it comes to.
#[tactic(auto, unfolding(crate::specs::Calls::judge_close, crate::specs::Calls::closes_with))]
pub(crate) fn verdict(j: Judge) -> Verdict
    ensures { Ok result ≡ closes_with (judge_close j) }
{
    match j {
        Judge::Sound { tally, held, .. } if held != 0 => Verdict::Fault { at: tally },
        Judge::Open | Judge::Sound { .. } => Verdict::Pass,
        Judge::Faulty { at, .. } => Verdict::Fault { at },
    }
}
