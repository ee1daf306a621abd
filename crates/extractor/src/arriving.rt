// Entering a frame: what is lost before it, whether its pointer agrees with the octets held, and where its walk sets out.
ghost use Rattle.std.specs.Prelude.{◌≡◌, ◌≤◌, ◌++◌, eqb, ltb, is_some, unwrap_or};
ghost use Rattle.octets.specs.Basics.{pick, first};
ghost use Rattle.packets.specs.Packet.{look, damage_in};
ghost use Rattle.packets.specs.Header.{seen};
ghost use Rattle.frames.specs.Frame.{no_start, heading as heading_told};
ghost use Rattle.frames.specs.Shape.{tells};
ghost use Rattle.extractor.specs.Extract.{lost_since, agreed, reason_by};
ghost use Rattle.extractor.specs.Records.{enter_rows, last_count, held_in, is_in_step, set_off};
ghost use Rattle.extractor.specs.Answers.{entering_says, entered_as};
ghost use Rattle.extractor.specs.Walks.{Says, Named, damage_by, reason_for};

use crate::held::{Held, held_in, last_in};
use crate::{Entering, Entry, Extractor, Reason};
use frames::{Heading, IDLE_ZONE, NO_START, Settings, ZONE_AT};
use packets::Seen;

// How many frames are missing before the count.
#[tactic(auto, unfolding(crate::specs::Extract::lost_since))]
fn lost_since(s: Settings, x: Extractor, count: u32) -> u32
    ensures { result ≡ lost_since s (last_count x) count }
{
    match x {
        Extractor::Fresh => 0,
        _ => frames::missing(s.link, last_in(x), count),
    }
}

// Whether packets are followed, and not only looked for.
fn is_in_step(x: Extractor) -> bool
    ensures { result ≡ is_in_step x }
{
    matches!(x, Extractor::InStep { .. } | Extractor::Walking { .. })
}

// The pointer that agrees with a packet whose last octets end at `end`, seen from the zone's start.
fn next_start(zone: usize, end: usize) -> usize
    ensures { result ≡ pick (ltb end zone) end no_start }
{
    if end < zone { end } else { NO_START }
}

// Why the octets held are dropped, by whether the pointer agrees with them.
fn compared(agrees: bool) -> Option<Reason>
    ensures { Named result (pick agrees 0 2) 0 }
{
    (!agrees).then_some(Reason::PointerDiffers)
}

impl Held<'_> {
    // Why they are dropped, by their header, which may end in the frame's zone, and its pointer.
    #[tactic(auto, unfolding(crate::specs::Extract::reason_by, crate::specs::Extract::agreed, crate::specs::Extract::agreed_look, packets::specs::Header::seen, packets::specs::Packet::damage_in))]
    fn pointer_reason(&self, s: Settings, pointer: usize, zone: &[u8]) -> Option<Reason>
        requires { self.now.limit ≡ s.limit }
        ensures { Named result (reason_by pointer (agreed s self.now.octets.now zone.now)) (damage_by s (reason_by pointer (agreed s self.now.octets.now zone.now)) self.now.octets.now zone.now) }
    {
        if self.octets.is_empty() {
            return compared((pointer == 0) | (pointer == IDLE_ZONE));
        }
        match self.across(zone) {
            Seen::Damaged(damage) => Some(Reason::HeaderDamaged(damage)),
            Seen::More => compared(pointer == NO_START),
            Seen::Whole { total } => {
                let end = octets::rest(total, self.octets.len());
                compared(pointer == next_start(s.zone, end))
            }
        }
    }

    // The same where frames are missing, which comes first, or packets are only looked for.
    fn reason(
        &self,
        s: Settings,
        x: Extractor,
        lost: u32,
        pointer: usize,
        zone: &[u8],
    ) -> Option<Reason>
        requires { self.now.limit ≡ s.limit }
        ensures { Named result (reason_for s x lost self.now.octets.now pointer zone.now) (damage_by s (reason_for s x lost self.now.octets.now pointer zone.now) self.now.octets.now zone.now) }
    {
        if lost != 0 {
            return Some(Reason::FramesMissing);
        }
        if !is_in_step(x) {
            return None;
        }
        self.pointer_reason(s, pointer, zone)
    }
}

// Where the walk sets out: in step with so many octets held, or out of step.
#[tactic(auto, unfolding(crate::specs::Records::set_off))]
fn set_off(s: Settings, count: u32, pointer: usize, held: Option<usize>) -> Extractor
    ensures { result ≡ set_off s count pointer (is_some held) (unwrap_or held 0) }
{
    if pointer == IDLE_ZONE {
        return Extractor::Walking {
            last: count,
            held: held.unwrap_or(0),
            at: s.zone,
        };
    }
    match held {
        Some(held) => Extractor::Walking {
            last: count,
            held,
            at: 0,
        },
        None if pointer == NO_START => Extractor::Leaving { last: count },
        None => Extractor::Walking {
            last: count,
            held: 0,
            at: pointer,
        },
    }
}

// A call that is not refused.
pub(crate) fn taken(
    s: Settings,
    x: Extractor,
    heading: Heading,
    stated: Seen,
    store: &[u8],
    frame: &[u8],
) -> Entering
    requires frame_value { first (enter_rows s x store.now frame.now) ≡ 0 }
    requires heads { tells (Ok heading) ≡ heading_told s frame.now }
    requires says { Says s store.now (held_in x) stated }
    ensures { entering_says result ≡ entered_as s x store.now frame.now }
{
    let count = heading.count;
    let pointer = heading.pointer as usize;
    let lost = lost_since(s, x, count);
    let held = Held {
        limit: s.limit,
        octets: &store[..held_in(x)],
        stated,
    };
    let zone = &frame[ZONE_AT..ZONE_AT + s.zone];
    let reason = held.reason(s, x, lost, pointer, zone);
    let kept = Entry {
        count,
        replay: heading.replay,
        lost,
        dropped: 0,
        reason,
    };
    if reason.is_none() {
        let in_step = is_in_step(x).then_some(held.octets.len());
        return Entering {
            entry: kept,
            next: set_off(s, count, pointer, in_step),
        };
    }
    Entering {
        entry: Entry {
            dropped: held.octets.len(),
            ..kept
        },
        next: set_off(s, count, pointer, None),
    }
}
