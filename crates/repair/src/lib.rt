// Header error control: the check symbols of a header, and a header read with up to two of its ten symbols repaired.
#![tactic(auto)]

ghost use Rattle.std.specs.Prelude.{ℕ, ◌≡◌, ◌+◌, ◌*◌, ◌/◌, ◌%◌, ◌^◌, ◌<◌, eqb};
ghost use Rattle.octets.specs.Basics.{number_at};
ghost use Rattle.repair.specs.Field.{power, product};
ghost use Rattle.repair.specs.Code.{symbol, remainder, four, checks, written, answer_of, reading};
ghost use Rattle.repair.specs.Header.{six_of, header_checks, header_reading, own_octets, checked, own_reading};
ghost use Rattle.repair.specs.Values.{total, generator_times, multiple, brought_down, value, Exponent, Amount, Candidate};

use words::Place;

// The powers of the field's root; after these they come again.
const POWERS: [u64; 15] = [1, 2, 4, 8, 3, 6, 12, 11, 5, 10, 7, 14, 15, 13, 9];

const TURN: usize = 15;

// A word has ten symbols, and there are so many numbers of its check symbols.
const SYMBOLS: usize = 10;

const CHECKS: u64 = 1 << 16;

// ---- the field

// A power of the root.
fn power(n: usize) -> u64
    ensures power { result ≡ power n }
    ensures small { result < 16 }
{
    POWERS[n % TURN]
}

// Which power an element other than 0 is.
fn exponent(e: u64) -> usize
    ensures { Exponent e result }
{
    POWERS.iter().position(|power| *power == e).unwrap_or(0)
}

// Digit i of an element, 0 or 1, times what it stands for.
fn digit_times(e: u64, i: u32, term: u64) -> u64
    requires { i < 4 }
    ensures { result ≡ e / 2 ^ i % 2 * term }
{
    if (e >> i) % 2 == 0 { 0 } else { term }
}

// The sum of an element's four digits, each times its own term.
fn digits_sum<F: Fn(usize) -> u64>(e: u64, term: F) -> u64
    requires { (i : ℕ) → i < 4 → F.pre term i }
    ensures { (t : ℕ → ℕ) → ((i r : ℕ) → i < 4 → F.post term i r → r ≡ t i) → result ≡ total 4 (λ i. e / 2 ^ i % 2 * t i) }
{
    let mut sum = 0;
    for i in 0..4 {
        sum ^= digit_times(e, i as u32, term(i));
    }
    sum
}

// An element times a power of the root: a digit stands for a power too.
fn times_power(e: u64, n: usize) -> u64
    requires { n < 256 }
    ensures { result ≡ product e (power n) }
{
    digits_sum(e, |i| power(n + i))
}

// ---- writing

// The generator x^4 + a^3 x^3 + a x^2 + a^3 x + 1 times a power of the root, without its x^4.
fn generator_times(n: usize) -> u64
    requires { n < 256 }
    ensures { result ≡ generator_times n }
{
    let cubed = power(n + 3);
    ((cubed * 16 + power(n + 1)) * 16 + cubed) * 16 + power(n)
}

// An element times the generator, without its x^4.
fn multiple(e: u64) -> u64
    requires { e < 16 }
    ensures { result ≡ multiple e }
{
    digits_sum(e, generator_times)
}

// One step of the division by the generator.
fn brought_down(left: u64, s: u64) -> u64
    requires { (left < 16 ^ 4) × (s < 16) }
    ensures { result ≡ brought_down left s }
{
    (left % 4096 * 16 + s) ^ multiple(left / 4096)
}

// The four check symbols of six symbols, as a number of two octets.
fn checks(six: u64) -> u64
    requires { six < 16 ^ 6 }
    ensures { result ≡ checks six }
{
    let word = Word {
        number: six * CHECKS,
    };
    word.remainder()
}

// ---- a word

// A word of ten symbols.
#[derive(Clone, Copy)]
struct Word {
    number: u64,
    ghost short: { number < 16 ^ 10 },
}

impl Word {
    // Symbol k, counted from the last.
    fn symbol(self, k: usize) -> u64
        requires { k < 10 }
        ensures { result ≡ symbol k self.number }
    {
        let at = Place {
            below: 4 * k as u32,
            width: 4,
        };
        words::field(self.number, at)
    }

    // What the generator leaves of it: the first four symbols stand as they are, and the others are brought down.
    fn remainder(self) -> u64
        ensures { result ≡ four (remainder 10 self.number) }
    {
        let mut left = self.number >> 24;
        for k in (0..6).rev() {
            left = brought_down(left, self.symbol(k));
        }
        left
    }

    // Whether it is rightly written.
    fn is_written(self) -> bool
        ensures { result ≡ eqb self.number (written (self.number / 16 ^ 4)) }
    {
        checks(self.number / CHECKS) == self.number % CHECKS
    }

    // The value at a power of the root. The symbols are digits of a number, so that their places are counted.
    fn value(self, j: usize) -> u64
        requires { j < 10 }
        ensures { result ≡ value 10 j (λ k. symbol k self.number) }
    {
        let mut sum = 0;
        for k in 0..SYMBOLS {
            sum ^= times_power(self.symbol(k), j * k);
        }
        sum
    }

    // One that is not rightly written: each pair of its places is tried.
    fn mended(self) -> Option<u64>
        ensures { answer_of result ≡ reading self.number }
    {
        let damaged = Damaged {
            word: self,
            six: self.value(6),
            seven: self.value(7),
        };
        for p in 0..SYMBOLS {
            for q in p + 1..SYMBOLS {
                let found = damaged.candidate(p, q);
                if found.is_written() {
                    return Some(found.number);
                }
            }
        }
        None
    }

    // The rightly written word that differs from this one in two symbols or fewer; none where it is beyond repair.
    fn read(self) -> Option<u64>
        ensures { answer_of result ≡ reading self.number }
    {
        if self.is_written() {
            return Some(self.number);
        }
        self.mended()
    }
}

// A word with its values at a^6 and a^7.
#[derive(Clone, Copy)]
struct Damaged {
    word: Word,
    six: u64,
    seven: u64,
    ghost at_six: { six ≡ value 10 6 (λ k. symbol k word.number) },
    ghost at_seven: { seven ≡ value 10 7 (λ k. symbol k word.number) },
}

impl Damaged {
    // By how much symbol p was changed, where no other but symbol q was; it is asked both ways round, so the places are no pair.
    fn amount(self, p: usize, q: usize) -> u64
        requires { (p < 10) × (q < 10) }
        ensures { Amount self.six self.seven p q result }
    {
        let without = self.seven ^ times_power(self.six, q);
        let apart = exponent(power(p) ^ power(q));
        times_power(without, (TURN - apart) + 9 * p)
    }

    // The word with symbols p and q changed back.
    fn candidate(self, p: usize, q: usize) -> Word
        requires { (p < q) × (q < 10) }
        ensures { Candidate self.word.number p q result.number }
    {
        let at_p = self.amount(p, q) << (4 * p as u32);
        let at_q = self.amount(q, p) << (4 * q as u32);
        Word {
            number: self.word.number ^ (at_p ^ at_q),
        }
    }
}

// ---- a frame's own header

// Octets 0 and 1 of the six, and octet 5.
const FIRST: Place = Place {
    below: 32,
    width: 16,
};

const LAST: Place = Place { below: 0, width: 8 };

// What is covered of a header, as six symbols.
fn six_of(head: u64) -> u64
    ensures six { result ≡ six_of head }
    ensures short { result < 16 ^ 6 }
{
    words::field(head, FIRST) * 256 + words::field(head, LAST)
}

// The number of the two octets that are written after a header.
pub fn header_checks(head: u64) -> u64
    ensures { result ≡ header_checks head }
{
    checks(six_of(head))
}

// A header read with the number of the two octets after it: repaired, or none where it is beyond repair.
pub fn read_header(head: u64, after: u16) -> Option<u64>
    ensures { answer_of result ≡ header_reading head after }
{
    let word = Word {
        number: six_of(head) * CHECKS + after as u64,
    };
    let six = word.read()? / CHECKS;
    let last = words::placed(head, LAST, six);
    Some(words::placed(last, FIRST, six / 256))
}

// ---- as a setting

// A header has so many octets, and its check symbols stand in so many.
const HEADER_OCTETS: usize = 6;

const CHECK_OCTETS: usize = 2;

// How many octets a frame's own header has.
#[tactic(auto, unfolding(crate::specs::Header::own_octets))]
pub fn own_octets(on: bool) -> usize
    ensures { result ≡ own_octets on }
{
    if on {
        HEADER_OCTETS + CHECK_OCTETS
    } else {
        HEADER_OCTETS
    }
}

// A frame's own header, repaired where that is on, and else as it stands; none where it is beyond repair.
#[tactic(auto, unfolding(crate::specs::Header::own_reading))]
pub fn read_own(on: bool, frame: &[u8]) -> Option<u64>
    ensures { answer_of result ≡ own_reading on (number_at 6 0 frame.now) (number_at 2 6 frame.now) }
{
    let head = octets::number::<HEADER_OCTETS>(frame, 0);
    if !on {
        return Some(head);
    }
    let after = octets::number::<CHECK_OCTETS>(frame, HEADER_OCTETS);
    read_header(head, after as u16)
}

// Writes what stands behind a header that is at the front of buf; nothing where it does not fit.
#[tactic(auto, unfolding(crate::specs::Header::checked))]
pub fn put_checks(on: bool, buf: &mut [u8], head: u64)
    ensures { buf.new ≡ checked on buf.old head }
{
    if on {
        let _ = octets::put(buf, HEADER_OCTETS, CHECK_OCTETS, header_checks(head));
    }
}
