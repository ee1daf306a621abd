// Encapsulation packets written: a data unit wrapped in one, and the idle packet.
#![tactic(auto)]

ghost use Rattle.std.specs.Prelude.{◌≡◌, length};
ghost use Rattle.octets.specs.Basics.{first};
ghost use Rattle.octets.specs.Refusals.{refusal_of};
ghost use Rattle.wrapping.specs.Wrap.{length_of_length_for, wrapped_total, wrap_in_range, wrap_rows, wrapping, wraps};

use front::Front;
use octets::Refusal;
use packets::{EXTENDED_PROTOCOL, header_length};

mod front;

pub use front::write_idle;

// The longest data unit behind a header of two octets, with which it has 255; and behind one of four, with which it has 65,535.
const MOST_BEHIND_TWO: usize = 253;

const MOST_BEHIND_FOUR: usize = 65531;

// The greatest protocol and the greatest extension.
const MOST_PROTOCOL: u8 = 7;

const MOST_EXTENSION: u8 = 15;

// The length-of-length of the smallest header that fits a data unit of n octets.
#[tactic(auto, unfolding(crate::specs::Wrap::length_of_length_for))]
fn length_of_length_for(protocol: u8, n: usize) -> u8
    ensures { result ≡ length_of_length_for protocol n }
{
    if n <= MOST_BEHIND_TWO && protocol != EXTENDED_PROTOCOL {
        return 1;
    }
    if n <= MOST_BEHIND_FOUR { 2 } else { 3 }
}

// The packet's length.
#[tactic(auto, using(packets::proofs::Sizes::header_most), unfolding(crate::specs::Wrap::wrapped_total))]
fn wrapped_total(protocol: u8, unit: &[u8]) -> usize
    ensures { result ≡ wrapped_total protocol (length unit.now) }
{
    unit.len() + header_length(length_of_length_for(protocol, unit.len()))
}

// A protocol from 1 to 7 and an extension up to 15, which is 0 without protocol 6.
#[tactic(auto, unfolding(packets::specs::Packet::limit_in_range, crate::specs::Wrap::wrap_in_range))]
fn wrap_in_range(limit: usize, protocol: u8, extension: u8) -> bool
    ensures { result ≡ wrap_in_range limit protocol extension }
{
    packets::in_range(limit)
        && (1..=MOST_PROTOCOL).contains(&protocol)
        && extension <= MOST_EXTENSION
        && (extension == 0 || protocol == EXTENDED_PROTOCOL)
}

// Whether a data unit of n octets can be wrapped behind a header; or the first refusal that holds.
#[tactic(auto, unfolding(octets::specs::Basics::first, crate::specs::Wrap::wrap_rows))]
fn may_wrap(limit: usize, front: Front, n: usize, room: usize) -> Result<(), Refusal>
    ensures { refusal_of result ≡ first (wrap_rows limit front.protocol front.extension n front.total room) }
{
    if !wrap_in_range(limit, front.protocol, front.extension) {
        return Err(Refusal::Setting);
    }
    if n == 0 || limit < front.total {
        return Err(Refusal::Packet);
    }
    if room < front.total {
        return Err(Refusal::Room);
    }
    Ok(())
}

// Wraps a data unit into `out`, from the front, and answers the packet's length. A call that is refused writes nothing.
#[tactic(auto, unfolding(crate::specs::Wrap::wrapping, crate::specs::Wrap::wraps))]
pub fn wrap(
    limit: usize,
    protocol: u8,
    extension: u8,
    unit: &[u8],
    out: &mut [u8],
) -> Result<usize, Refusal>
    ensures { wraps result out.new ≡ wrapping limit protocol extension unit.now out.old }
{
    let n = unit.len();
    let front = Front {
        protocol,
        extension,
        code: length_of_length_for(protocol, n),
        total: wrapped_total(protocol, unit),
    };
    may_wrap(limit, front, n, out.len())?;
    front.write(out, 0);
    octets::lay(out, header_length(front.code), unit, 0, n).unwrap();
    Ok(front.total)
}
