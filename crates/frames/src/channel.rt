// The frames of any channel: their lengths, and their headers read and written, by what the channel's settings say of them.
ghost use Rattle.std.specs.Prelude.{◌≡◌, ℕ, ◌^◌, Bool, ◌==◌, nat_lt};
ghost use Rattle.octets.specs.Basics.{pick, first, over};
ghost use Rattle.octets.specs.Refusals.{refusal_of};
ghost use Rattle.words.specs.Fields.{read};
ghost use Rattle.frames.specs.Link.{around, head_word};
ghost use Rattle.frames.specs.Shape.{Shape, shape_length, pointer_at, shape_unused, both_rows, outer_rows, shape_heading_rows, tells, heading_by, shape_heading, shape_head, shape_head_rows};
ghost use Rattle.frames.specs.declared.Link.{Link};

use super::signal::{COUNT, REPLAY};
use super::{Heading, Link, ZONE_AT};
use octets::Refusal;
use words::Place;

// The settings of one channel, which say whether they are in range, and the shape of the channel's frames.
pub trait Channel: Copy {
    // The bits of the pointer, which has the spare bits of the zone's header above it.
    const POINTER_WIDTH: u32;

    ghost POINTER_WIDTH: { ℕ };

    ghost in_range: { Self → Bool };

    ghost shape: { Self → Shape };

    // Whether the settings are in range.
    fn in_range(self) -> bool
        ensures { result ≡ in_range self };

    // The link that the frames follow.
    fn link(self) -> Link
        ensures { result ≡ (shape self).link };

    // So many octets are in a zone.
    fn zone_length(self) -> usize
        ensures { result ≡ (shape self).size };

    // Whether a pointer is one that is not used.
    fn is_unused(self, pointer: u16) -> bool
        ensures { result ≡ shape_unused (shape self) pointer };

    ghost has_width: { (s : Self) → (shape s).width ≡ POINTER_WIDTH };
}

// The octets of a frame's own header, and those of its zone's.
const HEAD: usize = 6;

const ZONE_HEAD: usize = 2;

const VERSION: Place = Place {
    below: 46,
    width: 2,
};

const SPACECRAFT: Place = Place {
    below: 38,
    width: 8,
};

const CHANNEL: Place = Place {
    below: 32,
    width: 6,
};

// How many octets a frame has around its zone.
pub fn around(l: Link) -> usize
    ensures { result ≡ around l }
{
    ZONE_AT + trailer::extra(l.trailed)
}

// Whether a frame of these settings has so many octets.
pub fn has_length<C: Channel>(s: C, len: usize) -> bool
    ensures { result ≡ (len == shape_length (C.shape s)) }
{
    let around = around(s.link());
    around <= len && len - around == s.zone_length()
}

// Whether so many octets are less than a frame of these settings.
pub fn is_short<C: Channel>(s: C, len: usize) -> bool
    ensures { result ≡ nat_lt len (shape_length (C.shape s)) }
{
    let around = around(s.link());
    len < around || len - around < s.zone_length()
}

// Where the pointer stands in the zone's header.
fn pointer_at<C: Channel>() -> Place
    ensures { result ≡ pointer_at C.POINTER_WIDTH }
{
    Place {
        below: 0,
        width: C::POINTER_WIDTH,
    }
}

// Whether a number has no bit above the pointer's: of a zone's header, whether its spare bits are 0; of a pointer, whether it fits.
fn fits<C: Channel>(number: u16) -> bool
    ensures { result ≡ nat_lt number (2 ^ C.POINTER_WIDTH) }
{
    words::field(number as u64, pointer_at::<C>()) == number as u64
}

// The pointer in the zone's header.
fn pointer_in<C: Channel>(zone: u16) -> u16
    ensures { result ≡ read (pointer_at C.POINTER_WIDTH) zone }
{
    words::field(zone as u64, pointer_at::<C>()) as u16
}

// Refuses a frame before its headers are looked at.
fn check_frame<C: Channel>(s: C, frame: &[u8]) -> Result<(), Refusal>
    ensures { refusal_of result ≡ first (outer_rows (C.shape s) frame.now) }
{
    if !has_length(s, frame.len()) {
        return Err(Refusal::Length);
    }
    if trailer::is_wrong(s.link().trailed, frame) {
        return Err(Refusal::Trailer);
    }
    Ok(())
}

// Refuses a frame of the right length by the numbers of both its headers.
fn check_headers<C: Channel>(s: C, head: u64, zone: u16) -> Result<(), Refusal>
    ensures { refusal_of result ≡ first (both_rows (C.shape s) head zone) }
{
    let link = s.link();
    if words::field(head, VERSION) != 1 {
        return Err(Refusal::Version);
    }
    let channel = (words::field(head, SPACECRAFT) == link.spacecraft as u64)
        & (words::field(head, CHANNEL) == link.channel as u64);
    if !channel {
        return Err(Refusal::Channel);
    }
    let clear = link.edition.agrees(head) & fits::<C>(zone);
    let unused = s.is_unused(pointer_in::<C>(zone));
    if !clear {
        return Err(Refusal::Spare);
    }
    if unused {
        return Err(Refusal::Pointer);
    }
    Ok(())
}

// What both headers say, by their numbers.
fn heading<C: Channel>(s: C, head: u64, zone: u16) -> Result<Heading, Refusal>
    ensures { tells result ≡ heading_by (C.shape s) (first (both_rows (C.shape s) head zone)) head zone }
{
    check_headers(s, head, zone)?;
    Ok(Heading {
        count: s.link().edition.count_in(head),
        replay: words::field(head, REPLAY) as u8,
        pointer: pointer_in::<C>(zone),
    })
}

// What the header of a frame says.
pub fn read_head<C: Channel>(s: C, frame: &[u8]) -> Result<Heading, Refusal>
    ensures { tells result ≡ shape_heading (C.shape s) (shape_heading_rows (C.in_range s) (C.shape s) frame.now) frame.now }
{
    if !s.in_range() {
        return Err(Refusal::Setting);
    }
    check_frame(s, frame)?;
    let head = octets::number::<HEAD>(frame, 0);
    let zone = octets::number::<ZONE_HEAD>(frame, HEAD);
    heading(s, head, zone as u16)
}

// The frame's own header, as a number.
fn head_word(l: Link, count: u32, replay: u8) -> u64
    ensures { result ≡ head_word l count replay }
{
    let signalling = l.edition.signalling(count, replay);
    let counted = words::placed(signalling, COUNT, count as u64);
    let channel = words::placed(counted, CHANNEL, l.channel as u64);
    let craft = words::placed(channel, SPACECRAFT, l.spacecraft as u64);
    words::placed(craft, VERSION, 1)
}

// Writes both headers of the frame with this count and pointer at the front of buf; nothing, where they are refused.
pub fn write_head<C: Channel>(s: C, count: u32, pointer: u16, buf: &mut [u8]) -> Result<(), Refusal>
    ensures value { refusal_of result ≡ first (shape_head_rows (C.in_range s) (C.shape s) count pointer buf.old) }
    ensures buf_after { buf.new ≡ pick (refusal_of result == 0) (over buf.old 0 (shape_head (C.shape s) count pointer)) buf.old }
{
    let link = s.link();
    let pointed = fits::<C>(pointer) & !s.is_unused(pointer);
    if !(s.in_range() & ((count < super::wheel_of(link)) & pointed)) {
        return Err(Refusal::Setting);
    }
    if buf.len() < ZONE_AT {
        return Err(Refusal::Room);
    }
    let zone = words::placed(0, pointer_at::<C>(), pointer as u64);
    let _ = octets::put(buf, 0, HEAD, head_word(link, count, 0));
    let _ = octets::put(buf, HEAD, ZONE_HEAD, zone);
    Ok(())
}
