// The frame error control field of source 004: a remainder of 16 bits over all octets before it.
#![tactic(auto)]

ghost use Rattle.std.specs.Prelude.{◌≡◌};
ghost use Rattle.trailer.specs.Division.{bits, divided, remainder, Remainders};
ghost use Rattle.trailer.specs.Trailer.{right, with_trailer, extra, wrong, ended};

mod entries;

// A trailer has so many octets.
pub const OCTETS: usize = 2;

// The register before the first octet.
const PRESET: u16 = 0xFFFF;

// The register after one octet more.
#[tactic(auto, using(crate::proofs::Table::octet_step))]
fn next(table: &[u16; 256], register: u16, octet: u8) -> u16
    requires { Remainders table.now }
    ensures { result ≡ divided register (bits 8 octet) }
{
    let at = (register >> 8) ^ octet as u16;
    (register << 8) ^ table[at as usize]
}

// The remainder of all octets. The table is a local of this function and not of `next`, or it would be made anew for each octet.
pub fn remainder(octets: &[u8]) -> u16
    ensures { result ≡ remainder octets.now }
{
    let table = entries::REMAINDERS;
    let mut register = PRESET;
    for &octet in octets {
        register = next(&table, register, octet);
    }
    register
}

// Whether the last two octets of a frame are the trailer of those before them: then nothing remains of the whole.
fn is_right(frame: &[u8]) -> bool
    ensures { result ≡ right frame.now }
{
    remainder(frame) == 0
}

// Writes the trailer of the first `at` octets of buf over the two octets after them; nothing where it does not fit.
fn put_trailer(buf: &mut [u8], at: usize)
    ensures { buf.new ≡ with_trailer buf.old at }
{
    if buf.len() < at {
        return;
    }
    let r = remainder(&buf[..at]);
    let _ = octets::put(buf, at, OCTETS, r as u64);
}

// ---- as a setting

// How many octets a frame has more.
#[tactic(auto, unfolding(crate::specs::Trailer::extra))]
pub fn extra(on: bool) -> usize
    ensures { result ≡ extra on }
{
    if on { OCTETS } else { 0 }
}

// Whether the trailer of a frame is wrong; never where there is none.
#[tactic(auto, unfolding(crate::specs::Trailer::wrong))]
pub fn is_wrong(on: bool, frame: &[u8]) -> bool
    ensures { result ≡ wrong on frame.now }
{
    on && !is_right(frame)
}

// Ends a frame whose first `at` octets are done.
#[tactic(auto, unfolding(crate::specs::Trailer::ended))]
pub fn end_frame(on: bool, buf: &mut [u8], at: usize)
    ensures { buf.new ≡ ended on buf.old at }
{
    if on {
        put_trailer(buf, at);
    }
}
