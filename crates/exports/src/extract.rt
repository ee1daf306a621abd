// The extractor.
ghost use Rattle.std.specs.Prelude.{◌≡◌, ℕ, List, [], ◌∷◌, length};
ghost use Rattle.extractor.specs.Answers.{reason_number, reason_damage, enter_says, packet_or_idle, found_numbers, answered};
ghost use Rattle.extractor.specs.declared.Extractor.{Extractor};
ghost use Rattle.exports.specs.Left.{left};
ghost use Rattle.exports.specs.Stated.{Stated};
ghost use Rattle.exports.specs.Extract.{extractor_with, extractor_of, extractor_numbers, enter_numbers, enter_leaves, step_numbers, step_leaves, part_numbers, show_numbers, show_leaves};

use crate::channel::{RECORD_ENTRIES, is_short, settings_of};
use crate::lent::{ROOM, leave, number};
use arrays::{MOST_COUNT, count_of, put};
use extractor::{Entering, Extractor, Found, Move, Reason};
use octets::{Refusal, within};

// The entries of each answer.
const ENTERED_ENTRIES: usize = 7;

const STEP_ENTRIES: usize = 5;

const SHOWN_ENTRIES: usize = 3;

// The kinds of record.
const FRESH: u64 = 0;

const ASTRAY: u64 = 1;

const IN_STEP: u64 = 2;

const WALKING: u64 = 3;

const LEAVING: u64 = 4;

// A frame is entered.
const ENTERED: u64 = 1;

// What a step found.
const PACKET: u64 = 1;

const IDLE: u64 = 2;

const DAMAGED: u64 = 3;

const SPENT: u64 = 4;

// Where a packet lies.
const IN_FRAME: u64 = 1;

const IN_STORE: u64 = 2;

// A record that no call reaches.
const UNREACHED: Extractor = Extractor::Astray { last: MOST_COUNT };

// The record of a kind with these numbers, of which those that the kind does not use are 0.
#[tactic(auto, unfolding(crate::specs::Extract::extractor_with))]
fn extractor_with(kind: u64, last: u32, held: usize, at: usize) -> Extractor
    ensures { result ≡ extractor_with kind last held at }
{
    match (kind, last, held, at) {
        (FRESH, 0, 0, 0) => Extractor::Fresh,
        (ASTRAY, _, 0, 0) => Extractor::Astray { last },
        (IN_STEP, _, _, 0) => Extractor::InStep { last, held },
        (WALKING, _, _, _) => Extractor::Walking { last, held, at },
        (LEAVING, _, 0, 0) => Extractor::Leaving { last },
        _ => UNREACHED,
    }
}

// The record that an array states; none where it is short.
fn extractor_of(numbers: &[u64]) -> Option<Extractor>
    ensures { Stated 4 extractor_of numbers.now result }
{
    let [kind, last, held, at] = *numbers.first_chunk::<RECORD_ENTRIES>()?;
    Some(extractor_with(kind, count_of(last), held as usize, at as usize))
}

// A record's numbers, as its array has them.
#[tactic(auto, unfolding(crate::specs::Extract::extractor_numbers))]
fn extractor_numbers(x: Extractor) -> [u64; RECORD_ENTRIES]
    ensures { result ≡ extractor_numbers x }
{
    match x {
        Extractor::Fresh => [FRESH, 0, 0, 0],
        Extractor::Astray { last } => [ASTRAY, last as u64, 0, 0],
        Extractor::InStep { last, held } => [IN_STEP, last as u64, held as u64, 0],
        Extractor::Walking { last, held, at } => [WALKING, last as u64, held as u64, at as u64],
        Extractor::Leaving { last } => [LEAVING, last as u64, 0, 0],
    }
}

// The number of why octets held are dropped; 0 where they are not.
fn reason_number(reason: Option<Reason>) -> u64
    ensures { result ≡ reason_number reason }
{
    reason.map_or(0, |reason| reason.number() as u64)
}

// The number of what is wrong with their header; 0 where they are dropped for something else.
fn reason_damage(reason: Option<Reason>) -> u64
    ensures { result ≡ reason_damage reason }
{
    match reason {
        Some(Reason::HeaderDamaged(damage)) => damage.number() as u64,
        _ => 0,
    }
}

// An answer's refusal, and the numbers behind it.
#[tactic(auto, unfolding(crate::specs::Extract::enter_numbers, extractor::specs::Answers::entered_numbers))]
fn entered_said(entered: Result<Entering, Refusal>) -> [u64; 8]
    ensures { (x : Extractor) → result ≡ (enter_says x entered).answer.refusal ∷ enter_numbers (enter_says x entered).answer }
{
    match entered {
        Err(refusal) => [number(refusal), 0, 0, 0, 0, 0, 0, 0],
        Ok(Entering { entry, .. }) => [
            0,
            ENTERED,
            entry.count as u64,
            entry.replay as u64,
            entry.lost as u64,
            entry.dropped as u64,
            reason_number(entry.reason),
            reason_damage(entry.reason),
        ],
    }
}

#[tactic(auto, unfolding(crate::specs::Extract::enter_leaves, crate::specs::Channel::short))]
pub fn itz_extractor_enter(
    settings: &[u64],
    record: &mut [u64],
    store: &[u8],
    frame: &[u8],
    answer: &mut [u64],
) -> u64
    ensures { left result «record».new [] answer.new ≡ enter_leaves settings.now «record».old store.now frame.now answer.old }
{
    if is_short(settings.len(), record.len(), answer.len(), ENTERED_ENTRIES) {
        return ROOM;
    }
    let (Some(settings), Some(x)) = (settings_of(settings), extractor_of(record)) else {
        return ROOM;
    };
    let entered = extractor::enter(settings, x, store, frame);
    let next = entered.map_or(x, |entering| entering.next);
    leave(
        record,
        &extractor_numbers(next),
        answer,
        &entered_said(entered),
    )
}

// What a packet is.
fn packet_number(idle: bool) -> u64
    ensures { result ≡ packet_or_idle idle }
{
    if idle { IDLE } else { PACKET }
}

// The refusal of a step, and the numbers behind it.
#[tactic(auto, unfolding(crate::specs::Extract::step_numbers, extractor::specs::Answers::found_numbers))]
fn step_said(step: Result<Move, Refusal>) -> [u64; 6]
    ensures { (frame store : List ℕ) → result ≡ (found_numbers frame store (answered step)).refusal ∷ step_numbers (found_numbers frame store (answered step)) }
{
    match step.map(|step| step.found) {
        Err(refusal) => [number(refusal), 0, 0, 0, 0, 0],
        Ok(Found::InFrame { start, size, idle }) => {
            [
                0,
                packet_number(idle),
                IN_FRAME,
                start as u64,
                size as u64,
                0,
            ]
        }
        Ok(Found::InStore { size, idle }) => {
            [0, packet_number(idle), IN_STORE, 0, size as u64, 0]
        }
        Ok(Found::Damaged(damage)) => [0, DAMAGED, 0, 0, 0, damage.number() as u64],
        Ok(Found::Spent) => [0, SPENT, 0, 0, 0, 0],
    }
}

#[tactic(auto, unfolding(crate::specs::Extract::step_leaves, crate::specs::Channel::short))]
pub fn itz_extractor_step(
    settings: &[u64],
    record: &mut [u64],
    store: &mut [u8],
    frame: &[u8],
    answer: &mut [u64],
) -> u64
    ensures { left result «record».new store.new answer.new ≡ step_leaves settings.now «record».old store.old frame.now answer.old }
{
    if is_short(settings.len(), record.len(), answer.len(), STEP_ENTRIES) {
        return ROOM;
    }
    let (Some(settings), Some(x)) = (settings_of(settings), extractor_of(record)) else {
        return ROOM;
    };
    let step = extractor::step(settings, x, store, frame);
    let next = step.map_or(x, |step| step.next);
    leave(record, &extractor_numbers(next), answer, &step_said(step))
}

// A part of a buffer of so many octets at this place; all 0 where it would run past the end.
#[tactic(auto, unfolding(crate::specs::Extract::part_numbers))]
fn part_numbers(place: u64, room: usize, start: u64, size: u64) -> [u64; SHOWN_ENTRIES]
    ensures { result ≡ part_numbers place room start size }
{
    if within(room, start as usize, size as usize) {
        [place, start, size]
    } else {
        [0; SHOWN_ENTRIES]
    }
}

// The part that a step's answer names.
#[tactic(auto, unfolding(crate::specs::Extract::show_numbers))]
fn show_numbers(step: &[u64; STEP_ENTRIES], frame: usize, store: usize) -> [u64; SHOWN_ENTRIES]
    ensures { (f os : List ℕ) → frame ≡ length f → store ≡ length os → result ≡ show_numbers step.now f os }
{
    let [_, place, start, size, _] = *step;
    match place {
        IN_FRAME => part_numbers(IN_FRAME, frame, start, size),
        IN_STORE => part_numbers(IN_STORE, store, start, size),
        _ => [0; SHOWN_ENTRIES],
    }
}

#[tactic(auto, unfolding(crate::specs::Extract::show_leaves, crate::specs::Extract::show_numbers))]
pub fn itz_show(step: &[u64], frame: &[u8], store: &[u8], answer: &mut [u64]) -> u64
    ensures { left result [] [] answer.new ≡ show_leaves step.now frame.now store.now answer.old }
{
    let Some(step) = step.first_chunk::<STEP_ENTRIES>() else {
        return ROOM;
    };
    if answer.len() < SHOWN_ENTRIES {
        return ROOM;
    }
    put(answer, &show_numbers(step, frame.len(), store.len()));
    0
}
