// Reads a run from standard input, and prints what the extractor says of it and the judge's verdict.
#![tactic(auto)]

use input::Reader;
use output::Output;
use run::{Run, STORE};
use runfile::Progress;

mod input;
mod lines;
mod output;
mod run;
mod text;

// The records behind the setup, up to the last line.
fn follow<R: Input + Print + Eprint>(
    mut run: Run<'_>,
    setup: Progress,
    input: &mut Reader<'_, R>,
    out: &mut Output<'_, R>,
) {
    let mut progress = setup;
    while let Progress::Running { .. } | Progress::Ended { .. } = progress {
        progress = match input.next(progress) {
            Ok(next) => next,
            Err(closed) => return run.conclude(closed, out),
        };
        if let Progress::Running { .. } = progress {
            run.take(input.body(), out);
        }
    }
    run.conclude(progress, out);
}

// The whole run; what waits at the end has the last line.
fn read_run<R: Input + Print + Eprint>(input: &mut Reader<'_, R>, out: &mut Output<'_, R>) {
    let first = input.next(Progress::Start).unwrap_or_else(|closed| closed);
    match first {
        Progress::Running { settings, .. } => {
            out.print(&lines::setup(settings));
            let (mut held, mut tried) = ([0; STORE], [0; STORE]);
            follow(Run::new(settings, &mut held, &mut tried), first, input, out);
        }
        Progress::Bad { record } => out.print(&lines::bad_record(record)),
        Progress::Ended { .. } | Progress::Start => {}
    }
}

fn main(rt: HostRuntime) {
    let mut input = Reader::new(&rt);
    let mut out = Output::new(&rt);
    read_run(&mut input, &mut out);
    out.flush();
}
