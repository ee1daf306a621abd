// Headers of space packets.
ghost use Rattle.std.specs.Prelude.{◌≡◌, ◌<◌, ◌≤◌, ℕ, min, List, [], ◌∷◌, length, leb, MatchOption};
ghost use Rattle.octets.specs.Basics.{pick};
ghost use Rattle.space.specs.Space.{space_reads, space_writing};
ghost use Rattle.exports.specs.Left.{left};
ghost use Rattle.exports.specs.Spaces.{space_numbers, read_space_leaves, header_of, write_space_leaves};

use crate::lent::{ROOM, number, tell};
use arrays::octet_of;
use octets::Refusal;
use space::SpaceHeader;

// The entries of the answer.
const SPACE_ENTRIES: usize = 8;

// The greatest number of 16 bits.
const MOST_HALF: u64 = 65535;

// The greatest octet: no version.
const MOST_OCTET: u8 = 255;

// What the length field says less than the packet's length.
const LENGTH_LESS: u64 = 7;

// An answer's refusal, and the numbers behind it.
#[tactic(auto, unfolding(crate::specs::Spaces::space_numbers, space::specs::Space::space_reads))]
fn space_said(read: Result<SpaceHeader, Refusal>) -> [u64; 9]
    ensures { result ≡ (space_reads read).refusal ∷ space_numbers (space_reads read) }
{
    match read {
        Err(refusal) => [number(refusal), 0, 0, 0, 0, 0, 0, 0, 0],
        Ok(header) => [
            0,
            header.length as u64 + LENGTH_LESS,
            header.version as u64,
            header.packet_type as u64,
            header.secondary as u64,
            header.apid as u64,
            header.flags as u64,
            header.count as u64,
            header.length as u64,
        ],
    }
}

#[tactic(auto, unfolding(crate::specs::Spaces::read_space_leaves))]
pub fn itz_read_space(packet: &[u8], answer: &mut [u64]) -> u64
    ensures { left result [] [] answer.new ≡ read_space_leaves packet.now answer.old }
{
    if answer.len() < SPACE_ENTRIES {
        return ROOM;
    }
    tell(answer, &space_said(space::read_space(packet)))
}

// A number as one of 16 bits: one that does not fit is the greatest that does.
fn half_of(number: u64) -> u16
    ensures { result ≡ min number 65535 }
{
    number.min(MOST_HALF) as u16
}

// The version: none that can be written, where the length field has no room for its number.
fn version_for(version: u64, length: u64) -> u8
    ensures { result ≡ pick (leb length 65535) (min version 255) 255 }
{
    if length <= MOST_HALF {
        octet_of(version)
    } else {
        MOST_OCTET
    }
}

// The header that an array states, none where it is short; a field that does not fit is one out of range.
fn header_of(numbers: &[u64]) -> Option<SpaceHeader>
    ensures { MatchOption result (length numbers.now < 7) (λ h. (7 ≤ length numbers.now) × ((packet : List ℕ) → space_writing h packet ≡ space_writing (header_of numbers.now) packet)) }
{
    let fields = numbers.first_chunk::<7>()?;
    let [version, packet_type, secondary, apid, flags, count, length] = *fields;
    Some(SpaceHeader {
        version: version_for(version, length),
        packet_type: octet_of(packet_type),
        secondary: octet_of(secondary),
        apid: half_of(apid),
        flags: octet_of(flags),
        count: half_of(count),
        length: half_of(length),
    })
}

#[tactic(auto, unfolding(crate::specs::Spaces::write_space_leaves, space::specs::Space::space_writes))]
pub fn itz_write_space(header: &[u64], packet: &mut [u8]) -> u64
    ensures { left result [] packet.new [] ≡ write_space_leaves header.now packet.old }
{
    let Some(header) = header_of(header) else {
        return ROOM;
    };
    match space::write_space(header, packet) {
        Err(refusal) => number(refusal),
        Ok(()) => 0,
    }
}
