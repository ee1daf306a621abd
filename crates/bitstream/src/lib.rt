// The bitstream channel: bits into frames, and the bits of a frame, call by call.
#![tactic(auto)]

ghost use Rattle.std.specs.Prelude.{◌≡◌, ◌≤◌};
ghost use Rattle.octets.specs.Basics.{first, over};
ghost use Rattle.octets.specs.Refusals.{refusal_of};
ghost use Rattle.frames.specs.Link.{zone_at};
ghost use Rattle.frames.specs.BitFrame.{most_width};
ghost use Rattle.bitstream.specs.Bitstream.{octets_for, pointer_for, valid_bits, mixed, zone_with, begun, writer_reachable, write_rows, writes, wrote, written, reader_reachable, untold, reads, reading, leading_octets, Fits};

use frames::bits::{ALL_VALID, BitSettings, FILL_ONLY};
use frames::{Channel, ZONE_AT};
use octets::Refusal;
use words::Place;

// What a writer keeps between calls: the count of the next frame.
#[derive(Clone, Copy, Debug, PartialEq, Eq)]
pub struct Writer {
    pub count: u32,
}

// What a reader keeps between calls.
#[derive(Clone, Copy, Debug, PartialEq, Eq)]
pub enum Reader {
    // No frame yet.
    Fresh,
    // The count of the last frame, and whether a loss waits for bits to be told with.
    Last { count: u32, waiting: bool },
}

// What a frame says, and the reader after the call.
#[derive(Clone, Copy, Debug, PartialEq, Eq)]
pub struct Reading {
    pub count: u32,
    pub replay: u8,
    pub bits: usize,
    pub lost: bool,
    pub reader: Reader,
}

// A writer that has written nothing.
pub fn begin() -> Writer
    ensures { result ≡ begun }
{
    Writer { count: 0 }
}

// The octets that hold n bits.
#[tactic(auto, unfolding(crate::specs::Bitstream::octets_for))]
fn octets_for(n: usize) -> usize
    ensures { result ≡ octets_for n }
{
    n.div_ceil(8)
}

// The pointer of a zone with n bits.
#[tactic(auto, unfolding(crate::specs::Bitstream::pointer_for, crate::specs::Bitstream::octets_for))]
fn pointer_for(s: BitSettings, n: usize) -> u16
    requires n_bound { octets_for n ≤ s.width }
    requires width_le_most_width { s.width ≤ most_width }
    ensures { result ≡ pointer_for s n }
{
    if n == 0 {
        return FILL_ONLY;
    }
    if n == 8 * s.width {
        return ALL_VALID;
    }
    (n - 1) as u16
}

// An octet whose first k bits are those of `bits`, and whose others are those of `fill` at the same places.
#[tactic(auto, using(crate::proofs::Bits::mixed_lt), unfolding(crate::specs::Bitstream::mixed))]
fn mixed(k: u32, bits: u8, fill: u8) -> u8
    requires { k ≤ 8 }
    ensures { result ≡ mixed k bits fill }
{
    let rest = Place {
        below: 0,
        width: 8 - k,
    };
    words::placed(bits as u64, rest, fill as u64) as u8
}

// Lays n bits over the zone of a frame, and fill to its end; where they fit, neither is refused. A slice has whole octets, so that the number
// of bits stands beside it.
fn lay_bits(s: BitSettings, bits: &[u8], n: usize, frame: &mut [u8])
    requires { Fits s n bits.now frame.old }
    ensures { frame.new ≡ over frame.old (zone_at s.link) (zone_with s n bits.now) }
{
    let whole = n / 8;
    let at = ZONE_AT + whole;
    let _ = octets::lay(frame, ZONE_AT, bits, 0, whole);
    let _ = octets::fill(frame, at, s.width - whole, s.fill);
    if n % 8 != 0 {
        frame[at] = mixed((n % 8) as u32, bits[whole], s.fill);
    }
}

// Whether calls can lead to a writer.
#[tactic(auto, unfolding(crate::specs::Bitstream::writer_reachable))]
fn writer_reachable(s: BitSettings, w: Writer) -> bool
    ensures { result ≡ writer_reachable s w }
{
    w.count < frames::wheel_of(s.link)
}

// Whether n bits may be written, from a buffer of `lent` octets into one of `room`; or the first refusal that holds.
#[tactic(auto, using(crate::proofs::Sizes::octets_within), unfolding(crate::specs::Bitstream::write_rows, octets::specs::Basics::first, frames::specs::BitFrame::bit_frame_length))]
fn may_write(s: BitSettings, w: Writer, n: usize, lent: usize, room: usize) -> Result<(), Refusal>
    ensures { refusal_of result ≡ first (write_rows s w n lent room) }
{
    let needed = octets_for(n);
    if !(s.in_range() & (needed <= s.width)) {
        return Err(Refusal::Setting);
    }
    if frames::is_short(s, room) | (lent < needed) {
        return Err(Refusal::Room);
    }
    if !writer_reachable(s, w) {
        return Err(Refusal::Record);
    }
    Ok(())
}

// Writes the next frame, with n bits, the first in the top of the first octet, and answers the writer to go on with.
pub fn write(
    s: BitSettings,
    w: Writer,
    bits: &[u8],
    n: usize,
    frame: &mut [u8],
) -> Result<Writer, Refusal>
    ensures { wrote (writes w result) frame.new ≡ written s w bits.now n frame.old }
{
    may_write(s, w, n, bits.len(), frame.len())?;
    // Behind the check the headers are not refused.
    let _ = frames::write_head(s, w.count, pointer_for(s, n), frame);
    lay_bits(s, bits, n, frame);
    trailer::end_frame(s.link.trailed, frame, ZONE_AT + s.width);
    Ok(Writer {
        count: frames::next_count(s.link, w.count),
    })
}

// Whether calls can lead to a reader.
#[tactic(auto, unfolding(crate::specs::Bitstream::reader_reachable))]
fn reader_reachable(s: BitSettings, x: Reader) -> bool
    ensures { result ≡ reader_reachable s x }
{
    match x {
        Reader::Fresh => true,
        Reader::Last { count, .. } => count < frames::wheel_of(s.link),
    }
}

// Whether a loss is to be told: there is a last count and this one does not follow it, or one waits.
#[tactic(auto, unfolding(crate::specs::Bitstream::untold))]
fn untold(s: BitSettings, x: Reader, count: u32) -> bool
    ensures { result ≡ untold s x count }
{
    match x {
        Reader::Fresh => false,
        Reader::Last {
            count: last,
            waiting,
        } => (count != frames::next_count(s.link, last)) | waiting,
    }
}

// How many bits a pointer says are valid.
#[tactic(auto, unfolding(crate::specs::Bitstream::valid_bits))]
fn valid_bits(s: BitSettings, pointer: u16) -> usize
    requires { s.width ≤ most_width }
    ensures { result ≡ valid_bits s pointer }
{
    if pointer == FILL_ONLY {
        return 0;
    }
    if pointer == ALL_VALID {
        return 8 * s.width;
    }
    pointer as usize + 1
}

// Reads a frame: its count, its replay flag, how many bits it has, and the loss flag, which waits for bits.
#[tactic(auto, unfolding(crate::specs::Bitstream::reading, crate::specs::Bitstream::read_rows, octets::specs::Basics::first))]
pub fn read(s: BitSettings, x: Reader, frame: &[u8]) -> Result<Reading, Refusal>
    ensures { reads x result ≡ reading s x frame.now }
{
    if !s.in_range() {
        return Err(Refusal::Setting);
    }
    if !reader_reachable(s, x) {
        return Err(Refusal::Record);
    }
    let head = frames::read_head(s, frame)?;
    let bits = valid_bits(s, head.pointer);
    let loss = untold(s, x, head.count);
    Ok(Reading {
        count: head.count,
        replay: head.replay,
        bits,
        lost: loss & (bits != 0),
        reader: Reader::Last {
            count: head.count,
            waiting: loss & (bits == 0),
        },
    })
}

// The zone's leading octets that hold n bits, as few as do; none where the frame has another length or the zone fewer bits.
#[tactic(auto, using(crate::proofs::Sizes::octets_within, crate::proofs::Sizes::leading_some, crate::proofs::Sizes::leading_none), unfolding(frames::specs::BitFrame::bit_frame_length))]
pub fn leading_octets(s: BitSettings, n: usize, frame: &[u8]) -> &[u8]
    ensures { result.now ≡ leading_octets s n frame.now }
{
    let needed = octets_for(n);
    if frames::has_length(s, frame.len()) & (needed <= s.width) {
        let end = ZONE_AT + needed;
        return &frame[ZONE_AT..end];
    }
    &frame[0..0]
}
