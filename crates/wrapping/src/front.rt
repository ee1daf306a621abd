// The header of an encapsulation packet, written; and the idle packet.
ghost use Rattle.std.specs.Prelude.{◌≡◌, ◌+◌, ◌-◌, ◌≤◌, length, eqb};
ghost use Rattle.octets.specs.Basics.{pick, over, first};
ghost use Rattle.octets.specs.Refusals.{refusal_of};
ghost use Rattle.packets.specs.Packet.{header_length};
ghost use Rattle.wrapping.specs.Front.{first_octet, second_octet, front};
ghost use Rattle.wrapping.specs.Idle.{idle_packet, idle_length_of_length, idle_packet_rows};

use octets::Refusal;
use packets::{
    ENCAPSULATION_VERSION, EXTENSION, LENGTH_OF_LENGTH, PROTOCOL, VERSION, header_length,
};

// The longest idle packet whose length one octet states.
const MOST_SHORT_IDLE: usize = 255;

// The longest idle packet: two octets state its length.
const MOST_IDLE: usize = 65535;

// The header of an encapsulation packet: its protocol and extension, its length-of-length, and the packet's length.
#[derive(Clone, Copy)]
pub(crate) struct Front {
    pub(crate) protocol: u8,
    pub(crate) extension: u8,
    pub(crate) code: u8,
    pub(crate) total: usize,
}

impl Front {
    // The first octet.
    #[tactic(auto, unfolding(crate::specs::Front::first_octet))]
    fn first_octet(self) -> u8
        ensures { result ≡ first_octet self.protocol self.code }
    {
        let versioned = words::placed(0, VERSION, ENCAPSULATION_VERSION as u64);
        let addressed = words::placed(versioned, PROTOCOL, self.protocol as u64);
        words::placed(addressed, LENGTH_OF_LENGTH, self.code as u64) as u8
    }

    // The second, where the header has one that is not its length.
    #[tactic(auto, unfolding(crate::specs::Front::second_octet))]
    fn second_octet(self) -> u8
        ensures { result ≡ second_octet self.extension }
    {
        words::placed(0, EXTENSION, self.extension as u64) as u8
    }

    // Writes the header over `out` from `at`.
    pub(crate) fn write(self, out: &mut [u8], at: usize)
        requires { at + header_length self.code ≤ length out.old }
        ensures { out.new ≡ over out.old at (front self.protocol self.extension self.code self.total) }
    {
        let size = header_length(self.code);
        let half = size / 2;
        let opening = [self.first_octet(), self.second_octet(), 0, 0];
        octets::lay(out, at, &opening, 0, size - half).unwrap();
        octets::put(out, at + (size - half), half, self.total as u64).unwrap();
    }
}

// The length-of-length of an idle packet of r octets.
#[tactic(auto, unfolding(crate::specs::Idle::idle_length_of_length))]
fn idle_length_of_length(r: usize) -> u8
    ensures { result ≡ idle_length_of_length r }
{
    if r == 1 {
        return 0;
    }
    if r <= MOST_SHORT_IDLE { 1 } else { 2 }
}

// Whether an idle packet of r octets fits the room there is; or the first refusal that holds.
#[tactic(auto, unfolding(octets::specs::Basics::first, crate::specs::Idle::idle_packet_rows))]
fn may_write_idle(r: usize, room: usize) -> Result<(), Refusal>
    ensures { refusal_of result ≡ first (idle_packet_rows r room) }
{
    if r == 0 || MOST_IDLE < r {
        return Err(Refusal::Setting);
    }
    if room < r {
        return Err(Refusal::Room);
    }
    Ok(())
}

// Writes an idle packet of r octets over `out` from `at`. Refused, and nothing written, is a length that no idle packet has, and one that
// does not fit.
pub fn write_idle(out: &mut [u8], at: usize, r: usize, fill: u8) -> Result<(), Refusal>
    ensures value { refusal_of result ≡ first (idle_packet_rows r (length out.old - at)) }
    ensures out_after { out.new ≡ pick (eqb (refusal_of result) 0) (over out.old at (idle_packet fill r)) out.old }
{
    may_write_idle(r, octets::rest(out.len(), at))?;
    let front = Front {
        protocol: 0,
        extension: 0,
        code: idle_length_of_length(r),
        total: r,
    };
    front.write(out, at);
    let size = header_length(front.code);
    octets::fill(out, at + size, r - size, fill).unwrap();
    Ok(())
}
