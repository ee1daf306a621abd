// The extractor: frames in, packets out, call by call.
#![tactic(auto)]

ghost use Rattle.std.specs.Prelude.{◌≡◌, ℕ, List, []};
ghost use Rattle.octets.specs.Basics.{first};
ghost use Rattle.octets.specs.Refusals.{refusal_of};
ghost use Rattle.extractor.specs.Records.{checked, held_in, step_rows, shown};
ghost use Rattle.extractor.specs.Answers.{reason_number, enter_says, enter_answer, found_or_refused, step_says, step_answer};
ghost use Rattle.extractor.specs.Calls.{spend_says, spend_answer};
ghost use Rattle.extractor.specs.Walks.{Says};

use frames::{Channel, Settings};
use octets::Refusal;
use packets::{Damage, Seen};

mod arriving;
mod held;
mod walking;

// What an extractor keeps between calls.
#[derive(Clone, Copy, Debug, PartialEq, Eq)]
pub enum Extractor {
    // No frame yet: out of step, and no last count.
    Fresh,
    // Out of step, between frames.
    Astray { last: u32 },
    // In step, between frames, with so many octets of a packet in the store.
    InStep { last: u32, held: usize },
    // In step, a frame entered, its zone walked up to `at`.
    Walking { last: u32, held: usize, at: usize },
    // Out of step, a frame entered, nothing of it to walk.
    Leaving { last: u32 },
}

// Why the octets held are dropped.
#[derive(Clone, Copy, Debug, PartialEq, Eq)]
pub enum Reason {
    FramesMissing,
    // The frame's pointer is not the one that agrees with them.
    PointerDiffers,
    // And what is wrong with their header.
    HeaderDamaged(Damage),
}

impl Reason {
    // Its number; 0 is none of them.
    pub fn number(self) -> u8
        ensures { result ≡ reason_number (Some self) }
    {
        match self {
            Reason::FramesMissing => 1,
            Reason::PointerDiffers => 2,
            Reason::HeaderDamaged(_) => 3,
        }
    }
}

// What is said of a frame that is entered: its count and replay flag, how many frames are missing before it, how many of the
// octets held are dropped, and why, if they are.
#[derive(Clone, Copy, Debug, PartialEq, Eq)]
pub struct Entry {
    pub count: u32,
    pub replay: u8,
    pub lost: u32,
    pub dropped: usize,
    pub reason: Option<Reason>,
}

// What is said of a frame that is entered, and the record after it.
#[derive(Clone, Copy, Debug, PartialEq, Eq)]
pub struct Entering {
    pub entry: Entry,
    pub next: Extractor,
}

// What a step finds.
#[derive(Clone, Copy, Debug, PartialEq, Eq)]
pub enum Found {
    // A packet that lies in the frame.
    InFrame {
        start: usize,
        size: usize,
        idle: bool,
    },
    // A packet at the front of the store.
    InStore {
        size: usize,
        idle: bool,
    },
    // The rest of the zone is damaged: what is wrong with the header.
    Damaged(Damage),
    // Nothing more in this frame.
    Spent,
}

// What a step finds, and the record after it.
#[derive(Clone, Copy, Debug, PartialEq, Eq)]
pub struct Move {
    pub found: Found,
    pub next: Extractor,
}

// Refuses settings, and a store and a record whose octets held state this.
#[tactic(auto, unfolding(octets::specs::Basics::first))]
fn check(s: Settings, x: Extractor, stated: Seen, store: &[u8]) -> Result<(), Refusal>
    requires { Says s store.now (held_in x) stated }
    ensures { refusal_of result ≡ first (checked s x store.now []) }
{
    if !s.in_range() {
        return Err(Refusal::Setting);
    }
    held::check(s, x, stated, store)
}

// What any call with this record and store is refused for before it looks at the moment and the frame.
pub fn record_refusal(s: Settings, x: Extractor, store: &[u8]) -> Result<(), Refusal>
    ensures { refusal_of result ≡ first (checked s x store.now []) }
{
    check(s, x, held::stated(s, x, store), store)
}

// Enters a frame: tells what was lost before it, compares its pointer, and sets out on its zone. The store is only read.
pub fn enter(s: Settings, x: Extractor, store: &[u8], frame: &[u8]) -> Result<Entering, Refusal>
    ensures { enter_says x result ≡ enter_answer s x store.now frame.now }
{
    let stated = held::stated(s, x, store);
    check(s, x, stated, store)?;
    if held::is_entered(x) {
        return Err(Refusal::Moment);
    }
    let heading = frames::read_head(s, frame)?;
    Ok(arriving::taken(s, x, heading, stated, store, frame))
}

// Refuses a step.
#[tactic(auto, unfolding(octets::specs::Basics::first, crate::specs::Records::step_rows, frames::specs::Frame::frame_length))]
fn check_step(
    s: Settings,
    x: Extractor,
    stated: Seen,
    store: &[u8],
    frame: &[u8],
) -> Result<(), Refusal>
    requires { Says s store.now (held_in x) stated }
    ensures { refusal_of result ≡ first (step_rows s x store.now frame.now) }
{
    check(s, x, stated, store)?;
    if !held::is_entered(x) {
        return Err(Refusal::Moment);
    }
    if !frames::has_length(s, frame.len()) {
        return Err(Refusal::Length);
    }
    Ok(())
}

// One step of the walk of a frame that is entered: the next packet, damage, or that the frame is spent.
#[tactic(auto, unfolding(crate::specs::Answers::step_answer, crate::specs::Records::step_call))]
pub fn step(s: Settings, x: Extractor, store: &mut [u8], frame: &[u8]) -> Result<Move, Refusal>
    ensures { step_says x result frame.now store.new ≡ step_answer s x store.old frame.now }
{
    let stated = held::stated(s, x, store);
    check_step(s, x, stated, store, frame)?;
    Ok(walking::moved(s, x, stated, store, frame))
}

// Spends a frame that is entered: all its steps, and nothing told of what they find. The record after the last one.
#[tactic(auto, unfolding(crate::specs::Calls::spend_answer))]
pub fn spend(
    s: Settings,
    x: Extractor,
    store: &mut [u8],
    frame: &[u8],
) -> Result<Extractor, Refusal>
    ensures { spend_says x result store.new ≡ spend_answer s x store.old frame.now }
{
    let stated = held::stated(s, x, store);
    check_step(s, x, stated, store, frame)?;
    Ok(walking::spent(s, x, stated, store, frame))
}

// The part of the frame or of the store that is named by what a step found; an empty part where it names none, or the step was refused.
#[tactic(auto, unfolding(crate::specs::Records::shown))]
pub fn show<'a>(frame: &'a [u8], store: &'a [u8], found: Result<Found, Refusal>) -> &'a [u8]
    ensures { result.now ≡ shown frame.now store.now (found_or_refused found) }
{
    let Ok(found) = found else {
        return &frame[..0];
    };
    match found {
        Found::InFrame { start, size, .. } => octets::part(frame, start, size),
        Found::InStore { size, .. } => octets::part(store, 0, size),
        Found::Damaged(_) | Found::Spent => &frame[..0],
    }
}
