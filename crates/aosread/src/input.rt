// Standard input: the records of a run, out of a buffer that large reads fill.
ghost use Rattle.std.specs.Prelude.{◌≡◌, ◌≤◌, [], length};
ghost use Rattle.aosread.specs.Input.{StandFirst, Follows};

use runfile::Progress;
use std::io::Read;
use std::marker::Model;

// The octets that the buffer holds.
const BUFFER: usize = 65536;

// A clause sees the body of the last record, and the octets that are read and not yet taken. (There is no heap: they stand in an array,
// with places in it.)
#[derive(Drop)]
pub(crate) struct Reader<'a, R> {
    rt: &'a R,
    octets: [u8; BUFFER],
    // Where the last record's body begins.
    body: usize,
    // Where it ends, and those that are not yet taken begin.
    from: usize,
    // Where these end.
    to: usize,
}

impl<'a, R> Model for Reader<'a, R> {
    ghost use Rattle.std.specs.Prelude.{◌≤◌, slice_range};
    ghost use Rattle.aosread.specs.Held.{Held};

    ghost Value = { Held };

    ghost view = { λ r. record { body = slice_range r.octets r.body r.from; unread = slice_range r.octets r.from r.to } };

    ghost invariant = { λ r. (r.body ≤ r.from) × (r.from ≤ r.to) × (r.to ≤ 65536) };
}

// One read: how many octets of the part came, 0 where the input has ended or, as standard error says, cannot be read.
fn read(rt: &(impl Input + Eprint), part: &mut [u8]) -> usize
    ensures { result ≤ length part.new }
{
    match rt.reader().read(part) {
        Ok(n) => n,
        Err(_) => {
            let _ = rt.eprintln("aosread: standard input cannot be read");
            0
        }
    }
}

impl<'a, R: Input + Eprint> Reader<'a, R> {
    // Nothing is read yet.
    pub(crate) fn new(rt: &'a R) -> Self
        ensures { result ≡ record { body = []; unread = [] } }
    {
        Reader {
            rt,
            octets: [0; BUFFER],
            body: 0,
            from: 0,
            to: 0,
        }
    }

    // The body of the last record, as much of it as there is.
    pub(crate) fn body(&self) -> &[u8]
        ensures { result.now ≡ self.now.body }
    {
        &self.octets[self.body..self.from]
    }

    // Reads on until n octets are there that are not yet taken, or the input has ended. A read gives as many as it has, and not n.
    fn wait_for(&mut self, n: usize)
        ensures { StandFirst self.old.unread self.new.unread }
    {
        if n <= self.to - self.from {
            return;
        }
        self.octets.copy_within(self.from..self.to, 0);
        self.to -= self.from;
        self.from = 0;
        self.body = 0;
        while self.to < n {
            let got = read(self.rt, &mut self.octets[self.to..]);
            if got == 0 {
                return;
            }
            self.to += got;
        }
    }

    // How far the run is read after the next record, whose body is held then; or, as the error, after the input's end, where none follows.
    pub(crate) fn next(&mut self, progress: Progress) -> Result<Progress, Progress>
        ensures { Follows progress result self.old.unread self.new }
    {
        self.wait_for(1);
        if self.from == self.to {
            return Err(runfile::close(progress));
        }
        let kind = self.octets[self.from];
        let size = runfile::body_length(progress, kind);
        self.wait_for(1 + size);
        self.body = self.from + 1;
        self.from = self.to.min(self.body + size);
        Ok(runfile::take(progress, kind, &self.octets[self.body..self.from]))
    }
}
