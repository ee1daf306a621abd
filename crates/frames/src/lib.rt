// Frames: the settings of a channel, a frame's header read and written, and the wheel of its count.
#![tactic(auto)]

ghost use Rattle.std.specs.Prelude.{◌≡◌, ◌^◌, refl};
ghost use Rattle.frames.specs.Link.{link_in_range, count_width, next_count, missing};
ghost use Rattle.frames.specs.Frame.{in_range, packet_shape};

use octets::limits;

pub mod bits;
mod channel;
mod signal;

pub use channel::{Channel, around, has_length, is_short, read_head, write_head};

// The edition of the frame header that a link follows, which says what stands below the replay flag.
#[derive(Clone, Copy)]
pub enum Edition {
    // CCSDS 701.0-B-2: seven spare bits.
    Former,
    // CCSDS 732.0-B-3 with usage 0: a cycle that is not used, and 0.
    CycleUnused,
    // CCSDS 732.0-B-3 with usage 1: a cycle that stands above the count.
    CycleUsed,
}

// The spacecraft and the channel that every frame of a link names, whether each ends with a trailer, and the edition of its header.
#[derive(Clone, Copy)]
pub struct Link {
    pub spacecraft: u32,
    pub channel: u32,
    pub trailed: bool,
    pub edition: Edition,
}

// The settings of one packet channel: Z, M and the octet that fills what no packet takes.
#[derive(Clone, Copy)]
pub struct Settings {
    pub link: Link,
    pub zone: usize,
    pub limit: usize,
    pub fill: u8,
}

// What the header of a frame says.
#[derive(Clone, Copy, Debug, PartialEq, Eq)]
pub struct Heading {
    pub count: u32,
    pub replay: u8,
    pub pointer: u16,
}

// The pointer of an idle zone, and that of a zone in which no packet starts: numbers of the field whose others are places in the zone.
pub const IDLE_ZONE: usize = 2046;

pub const NO_START: usize = 2047;

// The zone begins after the frame's own header and the zone's.
pub const ZONE_AT: usize = 8;

// A judged run has so many frames at most.
pub const MOST_FRAMES: u32 = 16777216;

// A zone has so many octets at most.
const MOST_ZONE: usize = 2046;

// The last pointer that is not used.
const LAST_UNUSED: u16 = 2045;

impl Link {
    // Whether the spacecraft and the channel are in range.
    pub(crate) fn in_range(self) -> bool
        ensures { result ≡ link_in_range self }
    {
        (self.spacecraft <= 255) & (self.channel <= 62)
    }
}

impl Channel for Settings {
    const POINTER_WIDTH: u32 = 11;

    ghost POINTER_WIDTH = { 11 };

    ghost in_range = { in_range };

    ghost shape = { packet_shape };

    fn in_range(self) -> bool {
        let limit = (self.zone <= self.limit)
            & ((limits::LEAST <= self.limit) & (self.limit <= limits::MOST));
        self.link.in_range() & ((1 <= self.zone) & ((self.zone <= MOST_ZONE) & limit))
    }

    fn link(self) -> Link {
        self.link
    }

    fn zone_length(self) -> usize {
        self.zone
    }

    // The first pointer beyond the zone is Z.
    fn is_unused(self, pointer: u16) -> bool {
        (self.zone <= pointer as usize) & (pointer <= LAST_UNUSED)
    }

    ghost has_width = { λ s. refl };
}

// So many counts are on the wheel of a link.
pub fn wheel_of(l: Link) -> u32
    ensures { result ≡ 2 ^ count_width l }
{
    1 << l.count_width()
}

// The count after this one, round the wheel.
pub fn next_count(l: Link, count: u32) -> u32
    ensures { result ≡ next_count (count_width l) count }
{
    count.wrapping_add(1) % wheel_of(l)
}

// How many frames are missing between the counts `last` and c, round the wheel.
pub fn missing(l: Link, last: u32, c: u32) -> u32
    ensures { result ≡ missing (count_width l) last c }
{
    let since = c.wrapping_sub(last);
    since.wrapping_sub(1) % wheel_of(l)
}
