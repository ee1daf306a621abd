// Standard output: a buffer in which lines wait until another would have no room behind them.
ghost use Rattle.std.specs.Prelude.{◌≡◌, []};
ghost use Rattle.aosread.specs.Lines.{printed};

use crate::lines::{Line, MOST_LINE};
use crate::text::Text;
use std::marker::Model;

// The octets that may wait.
const WAITING: usize = 65536;

// A clause sees the text that waits.
#[derive(Drop)]
pub(crate) struct Output<'a, R> {
    rt: &'a R,
    waiting: Text<WAITING>,
}

impl<'a, R> Model for Output<'a, R> {
    ghost use Rattle.std.specs.Prelude.{ℕ, List};
    ghost use Rattle.aosread.specs.Lines.{Room};

    ghost Value = { List ℕ };

    ghost view = { λ o. o.waiting };

    ghost invariant = { λ o. Room o.waiting };
}

// Writes the text, and keeps none of it; standard error says so where it could not be written whole.
fn write(rt: &(impl Print + Eprint), text: &mut Text<WAITING>)
    ensures { text.new ≡ [] }
{
    if rt.write_all(text.octets()).is_err() {
        let _ = rt.eprintln("aosread: standard output cannot be written");
    }
    text.clear();
}

impl<'a, R: Print + Eprint> Output<'a, R> {
    // Nothing waits yet.
    pub(crate) fn new(rt: &'a R) -> Self
        ensures { result ≡ [] }
    {
        Output {
            rt,
            waiting: Text::new(),
        }
    }

    // Prints a line: it waits behind the others, or all of them are written.
    #[inline]
    pub(crate) fn print(&mut self, line: &Line)
        ensures { self.new ≡ printed self.old line.now }
    {
        self.waiting.append(line);
        if WAITING - self.waiting.len() < MOST_LINE {
            write(self.rt, &mut self.waiting);
        }
    }

    // Writes what waits.
    pub(crate) fn flush(&mut self)
        ensures { self.new ≡ [] }
    {
        write(self.rt, &mut self.waiting);
    }
}
