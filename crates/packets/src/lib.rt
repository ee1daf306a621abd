// Packets read: the one header reader, the test for well-formed packets, and unwrapping.
#![tactic(auto)]

ghost use Rattle.std.specs.Prelude.{◌≡◌, ◌/◌, ◌≤◌, length, get_or, Ok};
ghost use Rattle.octets.specs.Basics.{and, number_at};
ghost use Rattle.words.specs.Fields.{read};
ghost use Rattle.packets.specs.Packet.{whole, limit_in_range, apid, OfAKind, packet_version, protocol_of, length_of_length, header_length, sized, encapsulation, look, damage_in, carried, is_idle, well_formed};
ghost use Rattle.packets.specs.Damage.{damage_or_0};
ghost use Rattle.packets.specs.Header.{seen, told, reading, answer};

use octets::{Refusal, limits, refusals};
use words::Place;

mod damage;
mod unwrapping;

pub use damage::{Damage, Refused};
pub use unwrapping::{Unit, unit_part, unwrap};

// The fields of a packet's first octet, and of a space packet's first two.
pub const VERSION: Place = Place { below: 5, width: 3 };

pub const PROTOCOL: Place = Place { below: 2, width: 3 };

pub const LENGTH_OF_LENGTH: Place = Place { below: 0, width: 2 };

const APID: Place = Place {
    below: 0,
    width: 11,
};

// The versions of the two kinds of packet.
const SPACE_VERSION: u8 = 0;

pub const ENCAPSULATION_VERSION: u8 = 7;

// The octets of a space packet's header, and what its length field says less than the packet's length.
const SPACE_HEADER: usize = 6;

const LENGTH_LESS: usize = 7;

// The APID of an idle space packet, and the protocol of an idle encapsulation packet.
const IDLE_APID: u64 = 2047;

const IDLE_PROTOCOL: u8 = 0;

// The greatest length-of-length: both of its bits are 1.
const MOST_CODE: usize = 3;

// The protocol that the extension names further: its headers have one.
pub const EXTENDED_PROTOCOL: u8 = 6;

// The extension, in the second octet of an encapsulation packet's header.
pub const EXTENSION: Place = Place { below: 0, width: 4 };

// The kinds of packet.
#[derive(Clone, Copy, Debug, PartialEq, Eq)]
pub enum Kind {
    Space,
    Encapsulation,
}

// What the first octets of a packet tell.
#[derive(Clone, Copy, Debug, PartialEq, Eq)]
pub enum Header {
    // The header is not whole yet.
    More,
    // No packet begins so: what is wrong.
    Damaged(Damage),
    // The packet's kind, its APID or protocol, whether it is idle, its header's length and its own.
    Whole {
        kind: Kind,
        key: u16,
        idle: bool,
        size: usize,
        total: usize,
    },
}

// What the first octets of a packet say of its length.
#[derive(Clone, Copy, Debug, PartialEq, Eq)]
pub enum Seen {
    More,
    Damaged(Damage),
    Whole { total: usize },
}

// Whether a limit can be set.
#[tactic(auto, unfolding(crate::specs::Packet::limit_in_range))]
pub fn in_range(limit: usize) -> bool
    ensures { result ≡ limit_in_range limit }
{
    (limits::LEAST..=limits::MOST).contains(&limit)
}

// The length of an encapsulation packet's header for its length-of-length field, which is `code` in this crate: one octet, doubled `code`
// times; a number past the field's two bits counts as 3. The rule is from source document 002 (CCSDS 133.1-B-2): 4.2.2.1.1 has the lengths
// 1, 2, 4 and 8; figure 4-2 (page 4-3) has the parts of a header for each number of the field; tables 4-1 (page 4-4) and 4-2 (page 4-6)
// have the octets of its length field for each number, and those of the header for each length field.
pub fn header_length(code: u8) -> usize
    ensures { result ≡ header_length code }
{
    1 << octets::least(code as usize, MOST_CODE)
}

// A header of `size` octets is whole and states `total`.
#[tactic(auto, unfolding(crate::specs::Packet::sized, crate::specs::Header::seen))]
fn sized(limit: usize, size: usize, total: usize) -> Seen
    ensures { seen result ≡ sized limit size total }
{
    if total < size {
        return Seen::Damaged(Damage::BelowHeader);
    }
    if limit < total {
        return Seen::Damaged(Damage::OverLimit);
    }
    Seen::Whole { total }
}

// The length field of an encapsulation header, its second half; 0 where it is not all there.
fn stated(start: &[u8], code: u8) -> u64
    ensures { result ≡ number_at (header_length code / 2) (header_length code / 2) start.now }
{
    match code {
        0 => 0,
        1 => octets::number::<1>(start, 1),
        2 => octets::number::<2>(start, 2),
        _ => octets::number::<4>(start, 4),
    }
}

// What an encapsulation packet's first octets say.
fn encapsulation(limit: usize, protocol: u8, code: u8, start: &[u8]) -> Seen
    ensures { seen result ≡ encapsulation limit protocol code start.now }
{
    if code == 0 {
        if protocol == IDLE_PROTOCOL {
            return Seen::Whole { total: 1 };
        }
        return Seen::Damaged(Damage::NotIdle);
    }
    let size = header_length(code);
    if start.len() < size {
        return Seen::More;
    }
    // The length is the packet's: the header is counted in it.
    sized(limit, size, stated(start, code) as usize)
}

// A field of one of a packet's octets.
fn octet_field(start: &[u8], index: usize, at: Place) -> u8
    ensures { result ≡ read at (get_or start.now index 0) }
{
    words::field(octets::octet(start, index) as u64, at) as u8
}

// The fields of the first octet.
fn version(start: &[u8]) -> u8
    ensures { result ≡ packet_version (get_or start.now 0 0) }
{
    octet_field(start, 0, VERSION)
}

fn protocol(start: &[u8]) -> u8
    ensures { result ≡ protocol_of (get_or start.now 0 0) }
{
    octet_field(start, 0, PROTOCOL)
}

fn length_of_length(start: &[u8]) -> u8
    ensures { result ≡ length_of_length (get_or start.now 0 0) }
{
    octet_field(start, 0, LENGTH_OF_LENGTH)
}

// A space packet's APID.
fn apid(start: &[u8]) -> u16
    requires { 2 ≤ length start.now }
    ensures { result ≡ apid start.now }
{
    words::field(octets::number::<2>(start, 0), APID) as u16
}

// What the first octets of a packet say of its length, as many as there are. No limit is refused.
pub fn read_length(limit: usize, start: &[u8]) -> Seen
    ensures { seen result ≡ look limit start.now }
{
    let len = start.len();
    if len == 0 {
        return Seen::More;
    }
    let version = version(start);
    if version == SPACE_VERSION {
        if len < SPACE_HEADER {
            return Seen::More;
        }
        let total = octets::number::<2>(start, 4) as usize + LENGTH_LESS;
        return sized(limit, SPACE_HEADER, total);
    }
    if version == ENCAPSULATION_VERSION {
        return encapsulation(limit, protocol(start), length_of_length(start), start);
    }
    Seen::Damaged(Damage::Version)
}

// What is wrong with a header, by what was seen of it.
#[tactic(auto, unfolding(crate::specs::Packet::damage_in, crate::specs::Header::seen))]
pub fn damage_in(found: Seen) -> Option<Damage>
    ensures { damage_or_0 result ≡ damage_in (seen found) }
{
    match found {
        Seen::More => None,
        Seen::Damaged(damage) => Some(damage),
        Seen::Whole { .. } => None,
    }
}

// What a refusal's number says of the packet that was lent: that of `Packet` what is wrong with its header, and any other nothing. (The
// theorem OfPackets of demands has it for every number, also for those of no refusal.)
#[tactic(auto, unfolding(crate::specs::Packet::carried))]
pub fn carried(refusal: u8, limit: usize, p: &[u8]) -> Option<Damage>
    ensures { damage_or_0 result ≡ carried refusal limit p.now }
{
    if refusal != refusals::PACKET {
        return None;
    }
    damage_in(read_length(limit, p))
}

// Whether octets that begin a packet begin an idle one.
pub fn is_idle(start: &[u8]) -> bool
    ensures { result ≡ is_idle start.now }
{
    if version(start) == SPACE_VERSION {
        return words::field(octets::number::<2>(start, 0), APID) == IDLE_APID;
    }
    protocol(start) == IDLE_PROTOCOL
}

// What a whole header tells of its packet.
#[tactic(auto, unfolding(crate::specs::Header::answer, crate::specs::Header::told, crate::specs::Header::version_of, crate::specs::Packet::key_of, crate::specs::Packet::size_of))]
fn tell(start: &[u8], total: usize) -> Header
    requires { OfAKind start.now }
    ensures { answer (Ok result) ≡ told start.now (whole total) }
{
    if version(start) == SPACE_VERSION {
        return Header::Whole {
            kind: Kind::Space,
            key: apid(start),
            idle: is_idle(start),
            size: SPACE_HEADER,
            total,
        };
    }
    Header::Whole {
        kind: Kind::Encapsulation,
        key: protocol(start) as u16,
        idle: is_idle(start),
        size: header_length(length_of_length(start)),
        total,
    }
}

// What octets that begin a packet tell, as many as there are: `limit` is the greatest packet.
#[tactic(auto, unfolding(crate::specs::Header::answer, crate::specs::Header::told, crate::specs::Header::reading, crate::specs::Header::seen))]
pub fn read_header(limit: usize, start: &[u8]) -> Result<Header, Refusal>
    ensures { answer result ≡ reading limit start.now }
{
    if !in_range(limit) {
        return Err(Refusal::Setting);
    }
    Ok(match read_length(limit, start) {
        Seen::More => Header::More,
        Seen::Damaged(damage) => Header::Damaged(damage),
        Seen::Whole { total } => tell(start, total),
    })
}

// What is wrong with a header, by what its reader answers.
#[tactic(auto, unfolding(crate::specs::Header::answer))]
pub fn header_damage(header: Result<Header, Refusal>) -> Option<Damage>
    ensures { damage_or_0 result ≡ (answer header).damage }
{
    let Ok(Header::Damaged(damage)) = header else {
        return None;
    };
    Some(damage)
}

// Whether a packet's header says the packet's own length.
#[tactic(auto, unfolding(crate::specs::Packet::well_formed, crate::specs::Packet::states, crate::specs::Header::seen))]
fn formed(limit: usize, p: &[u8]) -> bool
    ensures { result ≡ well_formed limit p.now }
{
    matches!(read_length(limit, p), Seen::Whole { total } if total == p.len())
}

// The same for a limit that is in range; no packet is well formed at any other.
pub fn well_formed(limit: usize, p: &[u8]) -> bool
    ensures { result ≡ and (limit_in_range limit) (well_formed limit p.now) }
{
    in_range(limit) && formed(limit, p)
}
