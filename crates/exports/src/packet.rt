// Packets: their headers, wrapping and unwrapping.
ghost use Rattle.std.specs.Prelude.{◌≡◌, ℕ, List, [], ◌∷◌, length, eqb};
ghost use Rattle.octets.specs.Basics.{pick};
ghost use Rattle.packets.specs.Header.{answer, version_of};
ghost use Rattle.wrapping.specs.Wrap.{wraps};
ghost use Rattle.packets.specs.Unwrap.{unwraps};
ghost use Rattle.exports.specs.Left.{left};
ghost use Rattle.exports.specs.Packet.{kind_number, header_numbers, header_leaves, formed_leaves, wrap_numbers, wrap_leaves, unwrap_numbers, unwrap_leaves, unit_numbers, unit_leaves};

use crate::lent::{ROOM, damage_number, number, tell};
use arrays::{flag, octet_of, put};
use octets::{Refusal, within};
use packets::{Header, Kind, Refused, Unit};

// The entries of each answer.
const HEADER_ENTRIES: usize = 7;

const FORMED_ENTRIES: usize = 1;

const WRAPPED_ENTRIES: usize = 2;

const UNWRAPPED_ENTRIES: usize = 5;

const UNIT_ENTRIES: usize = 2;

// What the header reader found.
const MORE: u64 = 1;

const DAMAGED: u64 = 2;

const WHOLE: u64 = 3;

// The kinds of packet.
const SPACE: u64 = 1;

const ENCAPSULATION: u64 = 2;

// Whether a packet is well formed.
const FORMED: u64 = 1;

const NOT_FORMED: u64 = 2;

// The number of a kind of packet.
#[tactic(auto, unfolding(crate::specs::Packet::kind_number, packets::specs::Header::version_of))]
fn kind_number(kind: Kind) -> u64
    ensures { result ≡ kind_number (version_of kind) }
{
    match kind {
        Kind::Space => SPACE,
        Kind::Encapsulation => ENCAPSULATION,
    }
}

// An answer's refusal, and the numbers behind it.
#[tactic(auto, unfolding(crate::specs::Packet::header_numbers, packets::specs::Header::answer))]
fn header_said(read: Result<Header, Refusal>) -> [u64; 8]
    ensures { result ≡ (answer read).refusal ∷ header_numbers (answer read) }
{
    let header = match read {
        Ok(header) => header,
        Err(refusal) => return [number(refusal), 0, 0, 0, 0, 0, 0, 0],
    };
    match header {
        Header::More => [0, MORE, 0, 0, 0, 0, 0, 0],
        Header::Damaged(damage) => [0, DAMAGED, 0, 0, 0, 0, 0, damage.number() as u64],
        Header::Whole {
            kind,
            key,
            idle,
            size,
            total,
        } => [
            0,
            WHOLE,
            kind_number(kind),
            flag(idle),
            key as u64,
            size as u64,
            total as u64,
            0,
        ],
    }
}

#[tactic(auto, unfolding(crate::specs::Packet::header_leaves))]
pub fn itz_read_header(limit: u64, front: &[u8], answer: &mut [u64]) -> u64
    ensures { left result [] [] answer.new ≡ header_leaves limit front.now answer.old }
{
    if answer.len() < HEADER_ENTRIES {
        return ROOM;
    }
    tell(
        answer,
        &header_said(packets::read_header(limit as usize, front)),
    )
}

// What a packet is.
fn formed_number(formed: bool) -> u64
    ensures { result ≡ pick {A = ℕ} formed 1 2 }
{
    if formed { FORMED } else { NOT_FORMED }
}

#[tactic(auto, using(octets::proofs::ByNumber::refused_not_0), unfolding(crate::specs::Packet::formed_leaves, crate::specs::Packet::formed_numbers, packets::specs::Header::answer, packets::specs::Header::reading, packets::specs::Header::told))]
pub fn itz_well_formed(limit: u64, packet: &[u8], answer: &mut [u64]) -> u64
    ensures { left result [] [] answer.new ≡ formed_leaves limit packet.now answer.old }
{
    if answer.len() < FORMED_ENTRIES {
        return ROOM;
    }
    if let Err(refusal) = packets::read_header(limit as usize, packet) {
        put(answer, &[0]);
        return number(refusal);
    }
    let formed = packets::well_formed(limit as usize, packet);
    put(answer, &[formed_number(formed)]);
    0
}

// The refusal of a wrapping, and the numbers behind it.
#[tactic(auto, unfolding(crate::specs::Packet::wrap_numbers, wrapping::specs::Wrap::wraps))]
fn wrapped_said(wrapped: Result<usize, Refusal>) -> [u64; 3]
    ensures { (packet : List ℕ) → result ≡ (wraps wrapped packet).refusal ∷ wrap_numbers (wraps wrapped packet) }
{
    match wrapped {
        Err(refusal) => [number(refusal), 0, 0],
        Ok(total) => [0, total as u64, 0],
    }
}

#[tactic(auto, using(crate::proofs::Wraps::wrapping_cut), unfolding(crate::specs::Packet::wrap_leaves, wrapping::specs::Wrap::wraps))]
pub fn itz_wrap(
    limit: u64,
    protocol: u64,
    extension: u64,
    data: &[u8],
    packet: &mut [u8],
    answer: &mut [u64],
) -> u64
    ensures { left result [] packet.new answer.new ≡ wrap_leaves limit protocol extension «data».now packet.old answer.old }
{
    if answer.len() < WRAPPED_ENTRIES {
        return ROOM;
    }
    let protocol = octet_of(protocol);
    let extension = octet_of(extension);
    tell(
        answer,
        &wrapped_said(wrapping::wrap(limit as usize, protocol, extension, data, packet)),
    )
}

// The refusal of an unwrapping, and the numbers behind it.
#[tactic(auto, unfolding(crate::specs::Packet::unwrap_numbers, packets::specs::Unwrap::unwraps))]
fn unwrapped_said(unwrapped: Result<Unit, Refused>) -> [u64; 6]
    ensures { result ≡ (unwraps unwrapped).refusal ∷ unwrap_numbers (unwraps unwrapped) }
{
    match unwrapped {
        Err(Refused { refusal, damage }) => [number(refusal), 0, 0, 0, 0, damage_number(damage)],
        Ok(unit) => [
            0,
            unit.protocol as u64,
            unit.extension as u64,
            unit.start as u64,
            unit.size as u64,
            0,
        ],
    }
}

#[tactic(auto, unfolding(crate::specs::Packet::unwrap_leaves))]
pub fn itz_unwrap(limit: u64, packet: &[u8], answer: &mut [u64]) -> u64
    ensures { left result [] [] answer.new ≡ unwrap_leaves limit packet.now answer.old }
{
    if answer.len() < UNWRAPPED_ENTRIES {
        return ROOM;
    }
    tell(
        answer,
        &unwrapped_said(packets::unwrap(limit as usize, packet)),
    )
}

// Where the data unit of an unwrapping's answer lies in a packet of so many octets.
#[tactic(auto, unfolding(crate::specs::Packet::unit_numbers))]
fn unit_numbers(unwrapped: &[u64; UNWRAPPED_ENTRIES], room: usize) -> [u64; UNIT_ENTRIES]
    ensures { (packet : List ℕ) → room ≡ length packet → result ≡ unit_numbers unwrapped.now packet }
{
    let [_, _, start, size, _] = *unwrapped;
    if within(room, start as usize, size as usize) {
        [start, size]
    } else {
        [0; UNIT_ENTRIES]
    }
}

#[tactic(auto, unfolding(crate::specs::Packet::unit_leaves, crate::specs::Packet::unit_numbers))]
pub fn itz_unit_part(unwrapped: &[u64], packet: &[u8], answer: &mut [u64]) -> u64
    ensures { left result [] [] answer.new ≡ unit_leaves unwrapped.now packet.now answer.old }
{
    let Some(unwrapped) = unwrapped.first_chunk::<UNWRAPPED_ENTRIES>() else {
        return ROOM;
    };
    if answer.len() < UNIT_ENTRIES {
        return ROOM;
    }
    put(answer, &unit_numbers(unwrapped, packet.len()));
    0
}
