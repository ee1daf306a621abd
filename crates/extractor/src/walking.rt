// The walk of a frame's zone, a step at a time.
ghost use Rattle.std.specs.Prelude.{◌≡◌, ◌+◌, ◌≤◌, length};
ghost use Rattle.octets.specs.Basics.{first};
ghost use Rattle.extractor.specs.Records.{step_rows, step, kept_for_later, held_in};
ghost use Rattle.extractor.specs.Answers.{move_says};
ghost use Rattle.extractor.specs.Calls.{through};
ghost use Rattle.extractor.specs.Walks.{Says, Walks, at_rest};

use crate::held::{Held, at_hand};
use crate::{Extractor, Found, Move};
use frames::{Settings, ZONE_AT};
use packets::{Damage, Seen};

// The octets that are left of the zone join those held; they fit, so that laying them is not refused.
fn keep(last: u32, held: usize, store: &mut [u8], left: &[u8]) -> Move
    requires { held + length left.now ≤ length store.old }
    ensures { move_says result store.new ≡ kept_for_later store.old last held left.now }
{
    let to = held + left.len();
    let _ = octets::lay(store, held, left, 0, left.len());
    Move {
        found: Found::Spent,
        next: Extractor::InStep { last, held: to },
    }
}

// The rest of the zone is abandoned.
fn abandoned(last: u32, damage: Damage) -> Move
    ensures { (result.found ≡ Found.Damaged damage) × (result.next ≡ Extractor.Leaving last) }
{
    Move {
        found: Found::Damaged(damage),
        next: Extractor::Leaving { last },
    }
}

// The walk goes on at `at`, with nothing held.
fn onward(last: u32, at: usize) -> Extractor
    ensures { result ≡ Extractor.Walking last 0 at }
{
    Extractor::Walking { last, held: 0, at }
}

// A step with nothing held: the next packet is shown where it lies, or what is left of the zone is kept.
fn walk(s: Settings, last: u32, at: usize, store: &mut [u8], frame: &[u8]) -> Move
    requires { Walks s 0 at store.old frame.now }
    ensures { move_says result store.new ≡ step s frame.now store.old (Extractor.Walking last 0 at) }
{
    let from = ZONE_AT + at;
    let to = ZONE_AT + s.zone;
    let left = &frame[from..to];
    match at_hand(left.len(), packets::read_length(s.limit, left)) {
        Seen::Damaged(damage) => abandoned(last, damage),
        Seen::More => keep(last, 0, store, left),
        Seen::Whole { total } => {
            let found = Found::InFrame {
                start: from,
                size: total,
                idle: packets::is_idle(left),
            };
            let next = onward(last, at + total);
            Move { found, next }
        }
    }
}

// A step with octets held, before the zone: their packet is completed at their end (its rest fits the store, so that laying it is not
// refused), or all of the zone joins them.
fn complete(
    s: Settings,
    last: u32,
    held: usize,
    stated: Seen,
    store: &mut [u8],
    frame: &[u8],
) -> Move
    requires walks { Walks s held 0 store.old frame.now × (held ≡ 0 → ⊥) }
    requires says { Says s store.old held stated }
    ensures { move_says result store.new ≡ step s frame.now store.old (Extractor.Walking last held 0) }
{
    let zone = &frame[ZONE_AT..ZONE_AT + s.zone];
    let begun = Held {
        limit: s.limit,
        octets: &store[..held],
        stated,
    };
    match at_hand(held + s.zone, begun.across(zone)) {
        Seen::Damaged(damage) => abandoned(last, damage),
        Seen::More => keep(last, held, store, zone),
        Seen::Whole { total } => {
            let rest = octets::rest(total, held);
            let _ = octets::lay(store, held, zone, 0, rest);
            let found = Found::InStore {
                size: total,
                idle: packets::is_idle(store),
            };
            let next = onward(last, rest);
            Move { found, next }
        }
    }
}

// The record of a frame of which nothing is left to walk: damage leaves it out of step.
fn at_rest(x: Extractor) -> Extractor
    ensures { result ≡ at_rest x }
{
    match x {
        Extractor::Leaving { last } => Extractor::Astray { last },
        _ => x,
    }
}

// One step of a call that is not refused, without a call of its own, which would copy the settings at every step.
#[inline(always)]
pub(crate) fn moved(s: Settings, x: Extractor, stated: Seen, store: &mut [u8], frame: &[u8]) -> Move
    requires frame_value { first (step_rows s x store.old frame.now) ≡ 0 }
    requires says { Says s store.old (held_in x) stated }
    ensures { move_says result store.new ≡ step s frame.now store.old x }
{
    let Extractor::Walking { last, held, at } = x else {
        return Move {
            found: Found::Spent,
            next: at_rest(x),
        };
    };
    if held == 0 {
        return walk(s, last, at, store, frame);
    }
    complete(s, last, held, stated, store, frame)
}

// All the steps of a call that is not refused: octets are held before the first one alone.
pub(crate) fn spent(
    s: Settings,
    x: Extractor,
    stated: Seen,
    store: &mut [u8],
    frame: &[u8],
) -> Extractor
    requires frame_value { first (step_rows s x store.old frame.now) ≡ 0 }
    requires says { Says s store.old (held_in x) stated }
    ensures value { result ≡ (through s frame.now x store.old).next }
    ensures store_after { store.new ≡ (through s frame.now x store.old).store }
{
    let mut next = moved(s, x, stated, store, frame).next;
    while let Extractor::Walking { last, at, .. } = next {
        next = walk(s, last, at, store, frame).next;
    }
    at_rest(next)
}
