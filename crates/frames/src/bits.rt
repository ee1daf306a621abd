// The settings of a bitstream channel, and the pointers of its frames.
ghost use Rattle.std.specs.Prelude.{refl};
ghost use Rattle.frames.specs.BitFrame.{bits_in_range, bits_shape};

use super::{Channel, Link};

// The settings of one bitstream channel: W, and the octet that fills what no bit takes.
#[derive(Clone, Copy)]
pub struct BitSettings {
    pub link: Link,
    pub width: usize,
    pub fill: u8,
}

// The pointer of a zone of fill alone, and that of a zone whose bits are all valid.
pub const FILL_ONLY: u16 = 16382;

pub const ALL_VALID: u16 = 16383;

// A zone has so many octets at most.
pub const MOST_WIDTH: usize = 2047;

// The last pointer that is not used.
const LAST_UNUSED: u16 = 16381;

impl Channel for BitSettings {
    const POINTER_WIDTH: u32 = 14;

    ghost POINTER_WIDTH = { 14 };

    ghost in_range = { bits_in_range };

    ghost shape = { bits_shape };

    fn in_range(self) -> bool {
        self.link.in_range() & ((1 <= self.width) & (self.width <= MOST_WIDTH))
    }

    fn link(self) -> Link {
        self.link
    }

    fn zone_length(self) -> usize {
        self.width
    }

    // The first pointer beyond the zone is 8W-1, so that the next number has the zone's octets.
    fn is_unused(self, pointer: u16) -> bool {
        (self.width <= (pointer as usize + 1) / 8) & (pointer <= LAST_UNUSED)
    }

    ghost has_width = { λ s. refl };
}
