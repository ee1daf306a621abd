// The record and the octets held: whether the rules can reach them, and what they say with those that follow.
ghost use Rattle.std.specs.Prelude.{◌≡◌, ℕ, ◌≤◌, List, [], ◌∷◌, ◌++◌, not, length, ltb};
ghost use Rattle.octets.specs.Basics.{first, row};
ghost use Rattle.octets.specs.Refusals.{refusal_of};
ghost use Rattle.packets.specs.Packet.{look};
ghost use Rattle.packets.specs.Header.{seen};
ghost use Rattle.frames.specs.declared.Settings.{Settings};
ghost use Rattle.extractor.specs.Records.{unfinished, reachable, is_entered, held_in};
ghost use Rattle.extractor.specs.Walks.{last_in, at_in, reached, at_hand, Says};

use crate::Extractor;
use frames::Settings;
use octets::Refusal;
use packets::Seen;

// A header has so many octets at most.
const MOST_HEADER: usize = 8;

// The numbers of a record, 0 where it has none: the count of its last frame, how many octets are held, and how far the zone is walked.
pub(crate) fn last_in(x: Extractor) -> u32
    ensures { result ≡ last_in x }
{
    match x {
        Extractor::Fresh => 0,
        Extractor::Astray { last }
        | Extractor::InStep { last, .. }
        | Extractor::Walking { last, .. }
        | Extractor::Leaving { last } => last,
    }
}

pub(crate) fn held_in(x: Extractor) -> usize
    ensures { result ≡ held_in x }
{
    match x {
        Extractor::InStep { held, .. } | Extractor::Walking { held, .. } => held,
        _ => 0,
    }
}

fn at_in(x: Extractor) -> usize
    ensures { result ≡ at_in x }
{
    match x {
        Extractor::Walking { at, .. } => at,
        _ => 0,
    }
}

// Whether n octets that say this of their packet's length are fewer than it has.
#[tactic(auto, unfolding(crate::specs::Records::unfinished, packets::specs::Header::seen))]
fn unfinished(n: usize, length: Seen) -> bool
    ensures { result ≡ unfinished n (seen length) }
{
    match length {
        Seen::More => true,
        Seen::Damaged { .. } => false,
        Seen::Whole { total } => n < total,
    }
}

// What octets say of their packet's length where n of them are at hand: a packet that is longer is not whole yet.
#[tactic(auto, unfolding(crate::specs::Walks::at_hand))]
pub(crate) fn at_hand(n: usize, length: Seen) -> Seen
    ensures { result ≡ at_hand n length }
{
    match length {
        Seen::Whole { total } if n < total => Seen::More,
        _ => length,
    }
}

// What the octets held say of their packet's length, as many as the store has. No more than their header is read. It goes beside the store
// and in no struct with it, as a step writes to the store that it speaks of.
pub(crate) fn stated(s: Settings, x: Extractor, store: &[u8]) -> Seen
    ensures { Says s store.now (held_in x) result }
{
    let there = octets::least(held_in(x), store.len());
    packets::read_length(s.limit, &store[..there])
}

// Whether the rules can reach a record with these numbers over a store of so many octets, whose octets held say this.
#[tactic(auto, using(crate::proofs::Stated::holds_by), unfolding(crate::specs::Walks::reached))]
fn reachable(s: Settings, last: u32, held: usize, at: usize, stated: Seen, room: usize) -> bool
    ensures { (store : List ℕ) → Says s store held stated → room ≡ length store → result ≡ reached s store last held at }
{
    if frames::wheel_of(s.link) <= last {
        return false;
    }
    if held == 0 {
        return at <= s.zone;
    }
    (at == 0) & ((held <= room) & unfinished(held, stated))
}

// Refuses a store and a record whose octets held say this.
#[tactic(auto, unfolding(octets::specs::Basics::first))]
pub(crate) fn check(s: Settings, x: Extractor, stated: Seen, store: &[u8]) -> Result<(), Refusal>
    requires { Says s store.now (held_in x) stated }
    ensures { refusal_of result ≡ first (row 2 (ltb (length store.now) s.limit) ∷ row 10 (not (reachable s store.now x)) ∷ []) }
{
    let room = store.len();
    if room < s.limit {
        return Err(Refusal::Room);
    }
    if !reachable(s, last_in(x), held_in(x), at_in(x), stated, room) {
        return Err(Refusal::Record);
    }
    Ok(())
}

// Whether a frame is entered and not yet spent.
#[tactic(auto, unfolding(crate::specs::Records::is_entered))]
pub(crate) fn is_entered(x: Extractor) -> bool
    ensures { result ≡ is_entered x }
{
    matches!(x, Extractor::Walking { .. } | Extractor::Leaving { .. })
}

// What fewer octets than a header has say of their packet's length, with those that follow them.
fn length_in_both(limit: usize, held: &[u8], more: &[u8]) -> Seen
    requires limit_least { 1 ≤ limit }
    requires held_most { length held.now ≤ 8 }
    ensures { seen result ≡ look limit (held.now ++ more.now) }
{
    let n = held.len();
    let to = n + octets::least(more.len(), MOST_HEADER - n);
    let mut front = [0; MOST_HEADER];
    front[..n].copy_from_slice(held);
    front[n..to].copy_from_slice(&more[..to - n]);
    packets::read_length(limit, &front[..to])
}

// The octets held, with the greatest length of a packet and what they say of theirs.
#[derive(Drop)]
pub(crate) struct Held<'a> {
    pub(crate) limit: usize,
    pub(crate) octets: &'a [u8],
    pub(crate) stated: Seen,
    ghost limit_least: { 1 ≤ limit },
    ghost stated_value: { seen stated ≡ look limit octets.now },
}

impl Held<'_> {
    // What they say of it with those that follow them: their header may end there.
    pub(crate) fn across(&self, more: &[u8]) -> Seen
        ensures { seen result ≡ look self.now.limit (self.now.octets.now ++ more.now) }
    {
        match self.stated {
            Seen::More => length_in_both(self.limit, self.octets, more),
            stated => stated,
        }
    }
}
