// One frame: entered, stepped until it is spent, and judged.
ghost use Rattle.std.specs.Prelude.{◌≡◌, ◌<◌};
ghost use Rattle.octets.specs.Basics.{first};
ghost use Rattle.frames.specs.Frame.{heading, most_frames};
ghost use Rattle.frames.specs.Link.{count_width, missing};
ghost use Rattle.extractor.specs.Records.{stands_for};
ghost use Rattle.judge.specs.Calls.{frame_refusals, judging, faults_at, try_frame, judge_frame};
ghost use Rattle.judge.specs.Trials.{Tries, goes_on_from};

use crate::Judge;
use extractor::Extractor;
use frames::Settings;

// The first fault stands at frame n.
fn fault(n: u32) -> Judge
    requires { n < most_frames }
    ensures { result ≡ faults_at n }
{
    Judge::Faulty {
        tally: n + 1,
        at: n,
    }
}

// The judge after frame n, from the extractor's record: only damage leaves that out of step.
#[tactic(auto, unfolding(crate::specs::Trials::goes_on_from))]
fn goes_on_from(n: u32, x: Extractor) -> Judge
    requires { n < most_frames }
    ensures { result ≡ goes_on_from n x }
{
    let Extractor::InStep { last, held } = x else {
        return fault(n);
    };
    Judge::Sound {
        tally: n + 1,
        last,
        held,
    }
}

// Frame n of a run that had no fault before it.
fn tried(s: Settings, n: u32, x: Extractor, store: &mut [u8], frame: &[u8]) -> Judge
    requires { Tries s n x store.old }
    ensures { judging result store.new ≡ try_frame s n (stands_for store.old x) store.old frame.now }
{
    let Ok(entering) = extractor::enter(s, x, store, frame) else {
        return fault(n);
    };
    let entry = entering.entry;
    if (entry.lost != 0) | entry.reason.is_some() {
        return fault(n);
    }
    let spent = extractor::spend(s, entering.next, store, frame);
    goes_on_from(n, spent.unwrap_or(entering.next))
}

// The extractor's record before a first frame: in step, nothing held, and nothing missing, since the last count is the one before.
fn ready_for(s: Settings, frame: &[u8]) -> Extractor
    ensures { result ≡ Extractor.InStep (missing (count_width s.link) 0 (heading s frame.now).count) 0 }
{
    let count = match frames::read_head(s, frame) {
        Ok(heading) => heading.count,
        Err(_) => 0,
    };
    Extractor::InStep {
        last: frames::missing(s.link, 0, count),
        held: 0,
    }
}

// A call that is not refused.
pub(crate) fn judged(s: Settings, j: Judge, store: &mut [u8], frame: &[u8]) -> Judge
    requires { first (frame_refusals s store.old j) ≡ 0 }
    ensures { judging result store.new ≡ judge_frame s store.old j frame.now }
{
    match j {
        Judge::Open => {
            let x = ready_for(s, frame);
            tried(s, 0, x, store, frame)
        }
        Judge::Sound { tally, last, held } => {
            let x = Extractor::InStep { last, held };
            tried(s, tally, x, store, frame)
        }
        Judge::Faulty { tally, at } => Judge::Faulty {
            tally: tally + 1,
            at,
        },
    }
}
