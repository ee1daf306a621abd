// A run after its setup: each frame is heard and judged.
ghost use Rattle.std.specs.Prelude.{◌≡◌, not};
ghost use Rattle.extractor.specs.Answers.{answered};
ghost use Rattle.extractor.specs.Calls.{goes_on};

use crate::lines;
use crate::lines::Line;
use crate::output::Output;
use extractor::{Extractor, Found, Move};
use frames::Settings;
use judge::Judge;
use octets::Refusal;
use runfile::Progress;

// The octets of a store: no setup has a longer packet.
pub(crate) const STORE: usize = 4096;

// Whether no step follows an answer.
fn is_last(answer: Result<Move, Refusal>) -> bool
    ensures { result ≡ not (goes_on (answered answer)) }
{
    match answer {
        Ok(step) => matches!(step.found, Found::Spent),
        Err(_) => true,
    }
}

// Both records after a frame, each with its store. The stores are lent: beside arrays the records do not stay in registers.
#[derive(Drop)]
pub(crate) struct Run<'a> {
    settings: Settings,
    extractor: Extractor,
    held: &'a mut [u8; STORE],
    judge: Judge,
    tried: &'a mut [u8; STORE],
}

impl<'a> Run<'a> {
    // Before its first frame.
    pub(crate) fn new(
        settings: Settings,
        held: &'a mut [u8; STORE],
        tried: &'a mut [u8; STORE],
    ) -> Self {
        Run {
            settings,
            extractor: Extractor::Fresh,
            held,
            judge: Judge::Open,
            tried,
        }
    }

    // The next frame, heard and judged.
    pub(crate) fn take<R: Print + Eprint>(&mut self, frame: &[u8], out: &mut Output<'_, R>) {
        self.hear(frame, out);
        if let Ok(next) = judge::frame(self.settings, self.judge, self.tried, frame) {
            self.judge = next;
        }
    }

    // Enters a frame and steps it; one that is refused takes no steps.
    fn hear<R: Print + Eprint>(&mut self, frame: &[u8], out: &mut Output<'_, R>) {
        let answer = extractor::enter(self.settings, self.extractor, self.held, frame);
        out.print(&lines::entered(answer));
        if let Ok(entering) = answer {
            self.extractor = entering.next;
            self.spend(frame, out);
        }
    }

    // Steps an entered frame until it is spent, a line for each step.
    #[tactic(auto, using(crate::proofs::Steps::step_less))]
    fn spend<R: Print + Eprint>(&mut self, frame: &[u8], out: &mut Output<'_, R>) {
        while let Ok(step) = extractor::step(self.settings, self.extractor, self.held, frame) {
            self.extractor = step.next;
            if is_last(Ok(step)) {
                return;
            }
            out.print(&self.line(step, frame));
        }
    }

    // The line of what a step found: a packet, or damage.
    fn line(&self, step: Move, frame: &[u8]) -> Line {
        let packet = extractor::show(frame, self.held, Ok(step.found));
        let header = packets::read_header(self.settings.limit, packet);
        lines::step(step.found, header)
    }

    // The last line: the verdict on a run that has ended, or the number of its bad record.
    pub(crate) fn conclude<R: Print + Eprint>(self, progress: Progress, out: &mut Output<'_, R>) {
        match progress {
            Progress::Ended { .. } => {
                let answer = judge::close(self.settings, self.judge, self.tried);
                out.print(&lines::verdict(answer));
            }
            Progress::Bad { record } => out.print(&lines::bad_record(record)),
            Progress::Running { .. } | Progress::Start => {}
        }
    }
}
