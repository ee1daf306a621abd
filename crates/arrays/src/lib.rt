// Numbers in lent arrays, as the calls for C have their settings, records and answers.
#![tactic(auto)]

ghost use Rattle.std.specs.Prelude.{◌≡◌, length, get_or};
ghost use Rattle.octets.specs.Basics.{fits, Lays};
ghost use Rattle.arrays.specs.Arrays.{told, kept, handed_on, bit, octet_of, count_of};

use octets::Refusal;

// The greatest octet, and the greatest number of 32 bits.
const MOST_OCTET: u8 = 255;

pub const MOST_COUNT: u32 = 4294967295;

// A yes or no as a number.
pub fn flag(yes: bool) -> u64
    ensures { result ≡ bit yes }
{
    yes as u64
}

// A number as an octet, and as one of 32 bits: one that does not fit is the greatest that does, which no rule lets through.
pub fn octet_of(number: u64) -> u8
    ensures { result ≡ octet_of number }
{
    u8::try_from(number).unwrap_or(MOST_OCTET)
}

pub fn count_of(number: u64) -> u32
    ensures { result ≡ count_of number }
{
    u32::try_from(number).unwrap_or(MOST_COUNT)
}

// The number at `at`; 0 past the end.
pub fn entry(numbers: &[u64], at: usize) -> u64
    ensures { result ≡ get_or numbers.now at 0 }
{
    numbers.get(at).copied().unwrap_or(0)
}

// Writes numbers over the front of an array, and answers 0; or nothing, and answers 2, where they do not fit: C is told refusals as numbers.
pub fn put(array: &mut [u64], numbers: &[u64]) -> u64
    ensures { Lays (fits array.old 0 (length numbers.now)) (told array.old numbers.now) result array.new }
{
    let room = numbers.len();
    if array.len() < room {
        return Refusal::Room.number() as u64;
    }
    array[..room].copy_from_slice(numbers);
    0
}

// The same of a record's numbers, which stay where the call is refused: its refusal is handed on.
pub fn keep(array: &mut [u64], refusal: u64, numbers: &[u64]) -> u64
    ensures { (result ≡ handed_on refusal array.old numbers.now) × (array.new ≡ kept refusal array.old numbers.now) }
{
    if refusal != 0 {
        return refusal;
    }
    put(array, numbers)
}
