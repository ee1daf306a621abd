// The settings of a packet channel as numbers.
ghost use Rattle.std.specs.Prelude.{◌≡◌, [], ◌∷◌};
ghost use Rattle.exports.specs.Stated.{Stated};
ghost use Rattle.exports.specs.Channel.{short, edition_of, zone_for, link_of, settings_of};

use arrays::{count_of, octet_of};
use frames::{Edition, Link, Settings};

// The entries of the settings, and of the records of multiplexer, extractor and judge.
const SETTINGS_ENTRIES: usize = 7;

pub(crate) const RECORD_ENTRIES: usize = 4;

// Whether an array is short: of settings, of a record, or of an answer that has so many numbers. No entry is looked at before.
#[tactic(auto, unfolding(crate::specs::Channel::short))]
pub(crate) fn is_short(settings: usize, record: usize, answer: usize, room: usize) -> bool
    ensures { result ≡ short settings «record» answer room }
{
    settings < SETTINGS_ENTRIES || record < RECORD_ENTRIES || answer < room
}

// The numbers of the editions; that of 732.0-B-3 with usage 1 is the last.
const FORMER: u64 = 0;

const CYCLE_UNUSED: u64 = 1;

const LAST_EDITION: u64 = 2;

// The edition of a number; of one that is no edition's the last.
#[tactic(auto, unfolding(crate::specs::Channel::edition_of))]
fn edition_of(number: u64) -> Edition
    ensures { result ≡ edition_of number }
{
    match number {
        FORMER => Edition::Former,
        CYCLE_UNUSED => Edition::CycleUnused,
        _ => Edition::CycleUsed,
    }
}

// The octets of a zone, none where the fill is no octet, the trailer's number neither 0 nor 1, or the edition's none of the three.
#[tactic(auto, unfolding(crate::specs::Channel::zone_for))]
pub(crate) fn zone_for(zone: u64, fill: u64, trailer: u64, edition: u64) -> usize
    ensures { result ≡ zone_for zone fill trailer edition }
{
    if fill <= 255 && trailer <= 1 && edition <= LAST_EDITION {
        zone as usize
    } else {
        0
    }
}

// The link of a spacecraft and a channel, with trailer and edition by their numbers.
#[tactic(auto, unfolding(crate::specs::Channel::link_of))]
pub(crate) fn link_of(spacecraft: u64, channel: u64, trailer: u64, edition: u64) -> Link
    ensures { result ≡ link_of (spacecraft ∷ channel ∷ []) trailer edition }
{
    Link {
        spacecraft: count_of(spacecraft),
        channel: count_of(channel),
        trailed: trailer == 1,
        edition: edition_of(edition),
    }
}

// The settings that an array states; none where it is short. (C's array of settings for bits has other entries.)
#[tactic(auto, unfolding(crate::specs::Channel::settings_of, crate::specs::Channel::link_of))]
pub(crate) fn settings_of(numbers: &[u64]) -> Option<Settings>
    ensures { Stated 7 settings_of numbers.now result }
{
    let [spacecraft, channel, zone, limit, fill, trailer, edition] = *numbers.first_chunk::<7>()?;
    Some(Settings {
        link: link_of(spacecraft, channel, trailer, edition),
        zone: zone_for(zone, fill, trailer, edition),
        limit: limit as usize,
        fill: octet_of(fill),
    })
}
