// Unwrapping an encapsulation packet.
ghost use Rattle.std.specs.Prelude.{◌≡◌};
ghost use Rattle.octets.specs.Basics.{first};
ghost use Rattle.octets.specs.Refusals.{refusal_of};
ghost use Rattle.packets.specs.Unwrap.{extension_of, reserved_of, unwrap_rows, unwrapping, unwraps, unit_part};

use super::{
    EXTENDED_PROTOCOL, EXTENSION, Refused, SPACE_VERSION, carried, formed, header_length, in_range,
    length_of_length, octet_field, protocol, version,
};
use octets::Refusal;

// What an encapsulation packet holds: its protocol and extension, and the part of the packet that is the data unit.
#[derive(Clone, Copy, Debug, PartialEq, Eq)]
pub struct Unit {
    pub protocol: u8,
    pub extension: u8,
    pub start: usize,
    pub size: usize,
}

// The extension of a packet's header; 0 where it has none.
#[tactic(auto, unfolding(crate::specs::Unwrap::extension_of))]
fn extension(p: &[u8]) -> u8
    ensures { result ≡ extension_of p.now }
{
    if length_of_length(p) < 2 {
        return 0;
    }
    octet_field(p, 1, EXTENSION)
}

// The reserved field of a packet's header; 0 where it has none.
#[tactic(auto, unfolding(crate::specs::Unwrap::reserved_of))]
fn reserved(p: &[u8]) -> u64
    ensures { result ≡ reserved_of p.now }
{
    if length_of_length(p) < 3 {
        return 0;
    }
    octets::number::<2>(p, 2)
}

// Whether a packet can be unwrapped; or the first refusal that holds.
#[tactic(auto, unfolding(octets::specs::Basics::first, crate::specs::Unwrap::unwrap_rows))]
fn may_unwrap(limit: usize, p: &[u8]) -> Result<(), Refusal>
    ensures { refusal_of result ≡ first (unwrap_rows limit p.now) }
{
    if !in_range(limit) {
        return Err(Refusal::Setting);
    }
    if !formed(limit, p) || version(p) == SPACE_VERSION {
        return Err(Refusal::Packet);
    }
    if (extension(p) != 0 && protocol(p) != EXTENDED_PROTOCOL) || reserved(p) != 0 {
        return Err(Refusal::Spare);
    }
    Ok(())
}

// Unwraps an encapsulation packet: `unit_part` hands back the data unit.
#[tactic(auto, unfolding(crate::specs::Unwrap::unwrapping, crate::specs::Unwrap::unwraps))]
pub fn unwrap(limit: usize, p: &[u8]) -> Result<Unit, Refused>
    ensures { unwraps result ≡ unwrapping limit p.now }
{
    may_unwrap(limit, p).map_err(|refusal| Refused {
        refusal,
        damage: carried(refusal.number(), limit, p),
    })?;
    let start = header_length(length_of_length(p));
    Ok(Unit {
        protocol: protocol(p),
        extension: extension(p),
        start,
        size: octets::rest(p.len(), start),
    })
}

// The data unit that an answer of `unwrap` speaks of, as a part of the lent packet.
#[tactic(auto, unfolding(crate::specs::Unwrap::unit_part))]
pub fn unit_part<'a>(p: &'a [u8], u: Result<Unit, Refused>) -> &'a [u8]
    ensures { result.now ≡ unit_part p.now u }
{
    match u {
        Err(_) => &p[0..0],
        Ok(unit) => octets::part(p, unit.start, unit.size),
    }
}
