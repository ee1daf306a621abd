// The signalling octet and the count of a frame's header, by the edition that the link follows.
ghost use Rattle.std.specs.Prelude.{◌≡◌};
ghost use Rattle.frames.specs.Link.{count_width};
ghost use Rattle.frames.specs.Edition.{usage, cycle_width, cycle_at, count_in, signals, signalling};

use super::{Edition, Link};
use words::Place;

// The count's own octets have so many bits.
const OWN_WIDTH: u32 = 24;

pub(crate) const COUNT: Place = Place {
    below: 8,
    width: OWN_WIDTH,
};

pub(crate) const REPLAY: Place = Place { below: 7, width: 1 };

// All bits below the replay flag.
const SEVEN: Place = Place { below: 0, width: 7 };

const USAGE: Place = Place { below: 6, width: 1 };

// The usage flag and the two spare bits between it and the cycle, and what they are with usage 1.
const FLAGS: Place = Place { below: 4, width: 3 };

const USED: u64 = 4;

const CYCLE_WIDTH: u32 = 4;

impl Link {
    // The width of the count.
    pub(crate) fn count_width(self) -> u32
        ensures { result ≡ count_width self }
    {
        OWN_WIDTH + self.edition.cycle_width()
    }
}

impl Edition {
    // The usage flag of its frames.
    fn usage(self) -> u32
        ensures { result ≡ usage self }
    {
        match self {
            Edition::Former => 0,
            Edition::CycleUnused => 0,
            Edition::CycleUsed => 1,
        }
    }

    // How many bits the cycle adds to the count.
    fn cycle_width(self) -> u32
        ensures { result ≡ cycle_width self }
    {
        self.usage() * CYCLE_WIDTH
    }

    // Where the count's bits stand that its own octets have no room for.
    fn cycle_at(self) -> Place
        ensures { result ≡ cycle_at self }
    {
        Place {
            below: 0,
            width: self.cycle_width(),
        }
    }

    // Whether a header's bits below the replay flag are its own: with usage 0 none is 1, whatever the edition calls them.
    pub(crate) fn agrees(self, head: u64) -> bool
        ensures { result ≡ signals self head }
    {
        if self.usage() == 0 {
            return words::field(head, SEVEN) == 0;
        }
        words::field(head, FLAGS) == USED
    }

    // The count that a header's number has.
    pub(crate) fn count_in(self, head: u64) -> u32
        ensures { result ≡ count_in self head }
    {
        let cycle = words::field(head, self.cycle_at()) as u32;
        let own = words::field(head, COUNT) as u32;
        (cycle << OWN_WIDTH) + own
    }

    // The signalling octet of the frame with this count and replay flag.
    pub(crate) fn signalling(self, count: u32, replay: u8) -> u64
        ensures { result ≡ signalling self count replay }
    {
        let replayed = words::placed(0, REPLAY, replay as u64);
        let used = words::placed(replayed, USAGE, self.usage() as u64);
        words::placed(used, self.cycle_at(), count as u64 >> OWN_WIDTH)
    }
}
