// The judge.
ghost use Rattle.std.specs.Prelude.{◌≡◌, ℕ, List, [], ◌∷◌};
ghost use Rattle.judge.specs.Calls.{judge_says, close_says};
ghost use Rattle.judge.specs.declared.Judge.{Judge};
ghost use Rattle.arrays.specs.Arrays.{kept};
ghost use Rattle.exports.specs.Left.{left};
ghost use Rattle.exports.specs.Stated.{Stated};
ghost use Rattle.exports.specs.Judging.{judge_with, judge_of, judge_numbers, judge_leaves, tape_leaves, close_numbers, close_leaves};

use crate::channel::{RECORD_ENTRIES, is_short, settings_of};
use crate::lent::{ROOM, number, refusal_number, tell};
use arrays::{count_of, keep};
use judge::{Judge, Verdict};
use octets::Refusal;

// The entries of the answer.
const VERDICT_ENTRIES: usize = 2;

// The kinds of record.
const OPEN: u64 = 0;

const SOUND: u64 = 1;

const FAULTY: u64 = 2;

// The verdicts.
const PASS: u64 = 1;

const FAULT: u64 = 2;

// A record that no call reaches.
const UNJUDGED: Judge = Judge::Faulty { tally: 0, at: 0 };

// The record of a kind with these numbers, of which those that the kind does not use are 0.
#[tactic(auto, unfolding(crate::specs::Judging::judge_with))]
fn judge_with(kind: u64, tally: u32, last: u32, held: usize) -> Judge
    ensures { result ≡ judge_with kind tally last held }
{
    match (kind, tally, last, held) {
        (OPEN, 0, 0, 0) => Judge::Open,
        (SOUND, _, _, _) => Judge::Sound { tally, last, held },
        (FAULTY, _, _, 0) => Judge::Faulty { tally, at: last },
        _ => UNJUDGED,
    }
}

// The record that an array states; none where it is short.
fn judge_of(numbers: &[u64]) -> Option<Judge>
    ensures { Stated 4 judge_of numbers.now result }
{
    let [kind, tally, last, held] = *numbers.first_chunk::<RECORD_ENTRIES>()?;
    Some(judge_with(kind, count_of(tally), count_of(last), held as usize))
}

// A record's numbers, as its array has them.
#[tactic(auto, unfolding(crate::specs::Judging::judge_numbers))]
fn judge_numbers(j: Judge) -> [u64; RECORD_ENTRIES]
    ensures { result ≡ judge_numbers j }
{
    match j {
        Judge::Open => [OPEN, 0, 0, 0],
        Judge::Sound { tally, last, held } => [SOUND, tally as u64, last as u64, held as u64],
        Judge::Faulty { tally, at } => [FAULTY, tally as u64, at as u64, 0],
    }
}

// Writes the record that a call given j leaves, or hands its refusal on.
fn keep_judged(record: &mut [u64], j: Judge, judged: Result<Judge, Refusal>) -> u64
    ensures { (store : List ℕ) → (result ≡ (judge_says j judged store).refusal) × («record».new ≡ kept result «record».old (judge_numbers (judge_says j judged store).next)) }
{
    let next = judged.unwrap_or(j);
    let refusal = refusal_number(judged);
    keep(record, refusal, &judge_numbers(next));
    refusal
}

#[tactic(auto, unfolding(crate::specs::Judging::judging_leaves, crate::specs::Channel::short))]
pub fn itz_judge_frame(settings: &[u64], record: &mut [u64], store: &mut [u8], frame: &[u8]) -> u64
    ensures { left result «record».new store.new [] ≡ judge_leaves settings.now «record».old store.old frame.now }
{
    if is_short(settings.len(), record.len(), 0, 0) {
        return ROOM;
    }
    let (Some(settings), Some(j)) = (settings_of(settings), judge_of(record)) else {
        return ROOM;
    };
    keep_judged(record, j, judge::frame(settings, j, store, frame))
}

// As with a frame: each body is shorter than a contract over its call would be.
#[tactic(auto, unfolding(crate::specs::Judging::judging_leaves, crate::specs::Channel::short))]
pub fn itz_judge_tape(settings: &[u64], record: &mut [u64], store: &mut [u8], tape: &[u8]) -> u64
    ensures { left result «record».new store.new [] ≡ tape_leaves settings.now «record».old store.old tape.now }
{
    if is_short(settings.len(), record.len(), 0, 0) {
        return ROOM;
    }
    let (Some(settings), Some(j)) = (settings_of(settings), judge_of(record)) else {
        return ROOM;
    };
    keep_judged(record, j, judge::tape(settings, j, store, tape))
}

// An answer's refusal, and the numbers behind it.
#[tactic(auto, unfolding(crate::specs::Judging::close_numbers, judge::specs::Calls::close_says))]
fn closed_said(closed: Result<Verdict, Refusal>) -> [u64; 3]
    ensures { result ≡ (close_says closed).refusal ∷ close_numbers (close_says closed) }
{
    match closed {
        Err(refusal) => [number(refusal), 0, 0],
        Ok(Verdict::Pass) => [0, PASS, 0],
        Ok(Verdict::Fault { at }) => [0, FAULT, at as u64],
    }
}

#[tactic(auto, unfolding(crate::specs::Judging::close_leaves, crate::specs::Channel::short))]
pub fn itz_judge_close(settings: &[u64], record: &[u64], store: &[u8], answer: &mut [u64]) -> u64
    ensures { left result [] [] answer.new ≡ close_leaves settings.now «record».now store.now answer.old }
{
    if is_short(settings.len(), record.len(), answer.len(), VERDICT_ENTRIES) {
        return ROOM;
    }
    let (Some(settings), Some(j)) = (settings_of(settings), judge_of(record)) else {
        return ROOM;
    };
    tell(answer, &closed_said(judge::close(settings, j, store)))
}
