// The multiplexer.
ghost use Rattle.std.specs.Prelude.{◌≡◌, ℕ, List, [], ◌∷◌};
ghost use Rattle.octets.specs.Basics.{pick};
ghost use Rattle.multiplexer.specs.Calls.{to_put, to_flush, to_idle, answers, answers_alone};
ghost use Rattle.exports.specs.Left.{left};
ghost use Rattle.exports.specs.Stated.{Stated};
ghost use Rattle.exports.specs.Mux.{mux_of, mux_numbers, begin_leaves, put_numbers, flush_numbers, no_numbers, mux_leaves};

use crate::channel::{RECORD_ENTRIES, is_short, settings_of};
use crate::lent::{ROOM, damage_number, leave, number, refusal_number};
use arrays::{count_of, flag, keep, put};
use multiplexer::{Done, Mux};
use octets::Refusal;
use packets::Refused;

// The entries of each answer.
const PUT_ENTRIES: usize = 3;

const FLUSH_ENTRIES: usize = 1;

// What a flush did.
const NOTHING: u64 = 1;

const FRAME: u64 = 2;

// The record that an array states; none where it is short.
#[tactic(auto, unfolding(crate::specs::Mux::mux_of))]
fn mux_of(numbers: &[u64]) -> Option<Mux>
    ensures { Stated 4 mux_of numbers.now result }
{
    let [count, filled, first, taken] = *numbers.first_chunk::<RECORD_ENTRIES>()?;
    Some(Mux {
        count: count_of(count),
        filled: filled as usize,
        first: first as usize,
        taken: taken as usize,
    })
}

// A record's numbers, as its array has them.
#[tactic(auto, unfolding(crate::specs::Mux::mux_numbers))]
fn mux_numbers(m: Mux) -> [u64; RECORD_ENTRIES]
    ensures { result ≡ mux_numbers m }
{
    [
        m.count as u64,
        m.filled as u64,
        m.first as u64,
        m.taken as u64,
    ]
}

#[tactic(auto, unfolding(crate::specs::Mux::begin_leaves))]
pub fn itz_mux_begin(record: &mut [u64]) -> u64
    ensures { left result «record».new [] [] ≡ begin_leaves «record».old }
{
    if record.len() < RECORD_ENTRIES {
        return ROOM;
    }
    put(record, &mux_numbers(multiplexer::begin()));
    0
}

// The refusal, and the numbers of a put's answer behind it.
#[tactic(auto, unfolding(crate::specs::Mux::put_numbers, multiplexer::specs::Calls::answers))]
fn put_said(done: Result<Done, Refused>) -> [u64; 4]
    ensures { (m : Mux) (frame : List ℕ) → result ≡ (answers m done frame).refusal ∷ put_numbers (answers m done frame) }
{
    match done {
        Err(Refused { refusal, damage }) => [number(refusal), 0, 0, damage_number(damage)],
        Ok(Done { full, taken, .. }) => [0, flag(full), flag(taken), 0],
    }
}

// What a flush did: it wrote a frame, or nothing was begun.
fn flush_number(full: bool) -> u64
    ensures { result ≡ pick {A = ℕ} full 2 1 }
{
    if full { FRAME } else { NOTHING }
}

// The refusal, and the number of a flush's answer behind it.
#[tactic(auto, unfolding(crate::specs::Mux::flush_numbers, multiplexer::specs::Calls::answers_alone))]
fn flush_said(done: Result<Done, Refusal>) -> [u64; 2]
    ensures { (m : Mux) (frame : List ℕ) → result ≡ (answers_alone m done frame).refusal ∷ flush_numbers (answers_alone m done frame) }
{
    match done {
        Err(refusal) => [number(refusal), 0],
        Ok(Done { full, .. }) => [0, flush_number(full)],
    }
}

// C has a name for each of the calls, which differ in what they are lent and in what they answer.
#[tactic(auto, unfolding(crate::specs::Mux::mux_leaves, crate::specs::Channel::short, multiplexer::specs::Calls::answers))]
pub fn itz_mux_put(
    settings: &[u64],
    record: &mut [u64],
    packet: &[u8],
    frame: &mut [u8],
    answer: &mut [u64],
) -> u64
    ensures { left result «record».new frame.new answer.new ≡ mux_leaves (to_put packet.now) 3 put_numbers settings.now «record».old frame.old answer.old }
{
    if is_short(settings.len(), record.len(), answer.len(), PUT_ENTRIES) {
        return ROOM;
    }
    let (Some(settings), Some(mux)) = (settings_of(settings), mux_of(record)) else {
        return ROOM;
    };
    let done = multiplexer::put(settings, mux, packet, frame);
    let next = done.map_or(mux, |done| done.mux);
    leave(record, &mux_numbers(next), answer, &put_said(done))
}

#[tactic(auto, unfolding(crate::specs::Mux::mux_leaves, crate::specs::Channel::short, multiplexer::specs::Calls::answers_alone))]
pub fn itz_mux_flush(
    settings: &[u64],
    record: &mut [u64],
    frame: &mut [u8],
    answer: &mut [u64],
) -> u64
    ensures { left result «record».new frame.new answer.new ≡ mux_leaves to_flush 1 flush_numbers settings.now «record».old frame.old answer.old }
{
    if is_short(settings.len(), record.len(), answer.len(), FLUSH_ENTRIES) {
        return ROOM;
    }
    let (Some(settings), Some(mux)) = (settings_of(settings), mux_of(record)) else {
        return ROOM;
    };
    let done = multiplexer::flush(settings, mux, frame);
    let next = done.map_or(mux, |done| done.mux);
    leave(record, &mux_numbers(next), answer, &flush_said(done))
}

#[tactic(auto, unfolding(crate::specs::Mux::mux_leaves, crate::specs::Channel::short, multiplexer::specs::Calls::answers_alone, octets::specs::Basics::laid, octets::specs::Basics::over))]
pub fn itz_mux_idle(settings: &[u64], record: &mut [u64], frame: &mut [u8]) -> u64
    ensures { left result «record».new frame.new [] ≡ mux_leaves to_idle 0 no_numbers settings.now «record».old frame.old [] }
{
    if is_short(settings.len(), record.len(), 0, 0) {
        return ROOM;
    }
    let (Some(settings), Some(mux)) = (settings_of(settings), mux_of(record)) else {
        return ROOM;
    };
    let done = multiplexer::idle_zone(settings, mux, frame);
    let next = done.map_or(mux, |done| done.mux);
    keep(record, refusal_number(done), &mux_numbers(next))
}
