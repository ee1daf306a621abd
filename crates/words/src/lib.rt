// Words: a field of a word at any place and width, read and written.
#![tactic(auto)]

ghost use Rattle.std.specs.Prelude.{◌≡◌, ◌/◌, ◌^◌};
ghost use Rattle.words.specs.Fields.{field, join, placed};

// Where a field stands in a word: how many bits lie below it, and how many it has.
#[derive(Clone, Copy)]
pub struct Place {
    pub below: u32,
    pub width: u32,
}

// What is left of a word above its lowest `width` bits.
fn above(word: u64, width: u32) -> u64
    ensures { result ≡ word / 2 ^ width }
{
    if width >= 64 { 0 } else { word >> width }
}

// The field at a place of a word.
pub fn field(word: u64, at: Place) -> u64
    ensures { result ≡ field word at.below at.width }
{
    let width = at.width;
    let rest = above(word, at.below);
    if width >= 64 {
        return rest;
    }
    rest & ((1 << width) - 1)
}

// A word moved up by `width` bits, with the low bits of another below it.
#[tactic(auto, using(crate::proofs::Fields::join_past, crate::proofs::Fields::join_masked))]
fn joined(high: u64, width: u32, low: u64) -> u64
    ensures { result ≡ join high width low }
{
    if width >= 64 {
        return low;
    }
    (high << width) | (low & ((1 << width) - 1))
}

// The word with the field at a place set to the low bits of `value`; every other bit stays.
pub fn placed(word: u64, at: Place, value: u64) -> u64
    ensures { result ≡ placed word at.below at.width value }
{
    let high = above(above(word, at.below), at.width);
    joined(joined(high, at.width, value), at.below, word)
}
