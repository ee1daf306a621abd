// Octets and numbers: numbers read from octets and written as octets.
#![tactic(auto)]

ghost use Rattle.std.specs.Prelude.{◌*◌, ◌%◌, ◌^◌, ◌<◌, ◌≡◌, ◌+◌, ◌-◌, ◌≤◌, min, length, take, drop, get_or, replicate, leb};
ghost use Rattle.octets.specs.Basics.{number, number_at, part_of, octets, over, fits, laid, part_fits, laid_part, Lays};
ghost use Rattle.octets.specs.Refusals.{refusal_of};

pub mod limits;
pub mod refusals;

pub use refusals::Refusal;

// Whether the n places from `at` lie within `len`.
pub fn within(len: usize, at: usize, n: usize) -> bool
    ensures { result ≡ leb (at + n) len }
{
    n <= len && at <= len - n
}

// The octet at `at`; 0 past the end.
pub fn octet(s: &[u8], at: usize) -> u8
    ensures { result ≡ get_or s.now at 0 }
{
    if at < s.len() { s[at] } else { 0 }
}

// The number in K octets from `at`, of which a `u64` has room for eight; 0 where they run past the end.
pub fn number<const K: usize>(s: &[u8], at: usize) -> u64
    ensures whole { K ≤ 8 → result ≡ number_at K at s.now }
    ensures low { result ≡ number_at K at s.now % 2 ^ 64 }
    ensures short { result < 2 ^ (8 * K) }
{
    if !within(s.len(), at, K) {
        return 0;
    }
    let end = at + K;
    let mut number = 0;
    for &octet in &s[at..end] {
        number = (number << 8) | octet as u64;
    }
    number
}

// So many octets from `start`; none where they run past the end.
#[tactic(auto, unfolding(crate::specs::Basics::part_of))]
pub fn part<'a>(s: &'a [u8], start: usize, size: usize) -> &'a [u8]
    ensures { result.now ≡ part_of s.now start size }
{
    if !within(s.len(), start, size) {
        return &s[..0];
    }
    let end = start + size;
    &s[start..end]
}

// Writes n as k octets over buf from `at`, the most significant first; or nothing, where they do not fit.
pub fn put(buf: &mut [u8], at: usize, k: usize, n: u64) -> Result<(), Refusal>
    ensures { Lays (fits buf.old at k) (laid buf.old at (octets k n)) (refusal_of result) buf.new }
{
    if !within(buf.len(), at, k) {
        return Err(Refusal::Room);
    }
    let mut rest = n;
    for i in (0..k).rev() {
        buf[at + i] = (rest & 255) as u8;
        rest >>= 8;
    }
    Ok(())
}

// Copies n octets of src from `from` over buf from `at`. By an index: `copy_from_slice` is the C library's memmove, and the library for C
// needs that for nothing else.
fn copy(buf: &mut [u8], at: usize, src: &[u8], from: usize, n: usize)
    requires room { at + n ≤ length buf.old }
    requires there { from + n ≤ length src.now }
    ensures { buf.new ≡ over buf.old at (take n (drop from src.now)) }
{
    for i in 0..n {
        buf[at + i] = src[from + i];
    }
}

// Copies src[from..to] over buf from `at`; or nothing, where src has no such part or it does not fit. The part is named by its ends, as one
// that src does not have is refused here.
pub fn lay(buf: &mut [u8], at: usize, src: &[u8], from: usize, to: usize) -> Result<(), Refusal>
    ensures { Lays (part_fits buf.old at from to src.now) (laid_part buf.old at from to src.now) (refusal_of result) buf.new }
{
    if to < from {
        return Err(Refusal::Room);
    }
    if src.len() < to {
        return Err(Refusal::Room);
    }
    if !within(buf.len(), at, to - from) {
        return Err(Refusal::Room);
    }
    copy(buf, at, src, from, to - from);
    Ok(())
}

// Writes n times the octet over buf from `at`; or nothing, where they do not fit.
pub fn fill(buf: &mut [u8], at: usize, n: usize, octet: u8) -> Result<(), Refusal>
    ensures { Lays (fits buf.old at n) (laid buf.old at (replicate n octet)) (refusal_of result) buf.new }
{
    if !within(buf.len(), at, n) {
        return Err(Refusal::Room);
    }
    let end = at + n;
    buf[at..end].fill(octet);
    Ok(())
}

// The smaller of two numbers: `usize::min`, under the name that the theorem OfOctets of demands has for it.
pub fn least(a: usize, b: usize) -> usize
    ensures { result ≡ min a b }
{
    a.min(b)
}

// What is left of a whole when so many are taken; 0 where more are. OfOctets names it too.
pub fn rest(whole: usize, taken: usize) -> usize
    ensures { result ≡ whole - taken }
{
    whole.saturating_sub(taken)
}
