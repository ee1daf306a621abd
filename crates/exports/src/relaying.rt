// Relays.
ghost use Rattle.std.specs.Prelude.{◌≡◌, List, [], ◌∷◌, ℕ, ◌+◌, ◌*◌, ◌<◌, get_or};
ghost use Rattle.relay.specs.Route.{routes};
ghost use Rattle.exports.specs.Left.{left};
ghost use Rattle.exports.specs.Stated.{Stated};
ghost use Rattle.exports.specs.Relaying.{entry_of, entries_of, table_of, table_numbers, wide, load_leaves, route_numbers, route_leaves};

use crate::lent::{ROOM, damage_number, number, refusal_number, tell};
use arrays::{entry, keep};
use packets::Refused;
use relay::{Entry, MOST_ENTRIES, Table};
use std::array;

// The numbers of a table: how many entries, and two for each that it can have.
const TABLE_NUMBERS: usize = 2 * MOST_ENTRIES + 1;

// The entries of the answer.
const ROUTED_ENTRIES: usize = 3;

const NO_PATH: u64 = 1;

const PATH: u64 = 2;

// The refusal of a destination that is none.
const SETTING: u64 = octets::refusals::SETTING as u64;

// The greatest destination.
const MOST_DESTINATION: u64 = 255;

// An entry that no table has.
const UNFIT: Entry = Entry {
    apid: u16::MAX,
    destination: 0,
};

// The entry of two numbers; one that no table has where a number is too great.
#[tactic(auto, unfolding(crate::specs::Relaying::entry_of))]
fn entry_of(apid: u64, destination: u64) -> Entry
    ensures { result ≡ entry_of apid destination }
{
    match (u16::try_from(apid), u8::try_from(destination)) {
        (Ok(apid), Ok(destination)) => Entry { apid, destination },
        _ => UNFIT,
    }
}

// The entry at `i` of numbers two by two; those past the last number are 0.
fn entry_at(numbers: &[u64], i: usize) -> Entry
    requires { i < 32 }
    ensures { result ≡ entry_of (get_or numbers.now (2 * i) 0) (get_or numbers.now (2 * i + 1) 0) }
{
    entry_of(entry(numbers, 2 * i), entry(numbers, 2 * i + 1))
}

// As many entries as a table has.
fn entries_of(numbers: &[u64]) -> [Entry; MOST_ENTRIES]
    ensures { result ≡ entries_of 32 numbers.now }
{
    array::from_fn(|i| entry_at(numbers, i))
}

// The table that an array states; none where it is short.
#[tactic(auto, unfolding(crate::specs::Relaying::table_of))]
fn table_of(numbers: &[u64]) -> Option<Table>
    ensures { Stated 65 table_of numbers.now result }
{
    if numbers.len() < TABLE_NUMBERS {
        return None;
    }
    Some(Table {
        count: numbers[0] as usize,
        entries: entries_of(&numbers[1..]),
    })
}

// A table's numbers, as its array has them.
fn table_numbers(table: Table) -> [u64; TABLE_NUMBERS]
    ensures { result ≡ table_numbers table }
{
    let mut numbers = [0; TABLE_NUMBERS];
    numbers[0] = table.count as u64;
    for (i, e) in table.entries.iter().enumerate() {
        numbers[2 * i + 1] = e.apid as u64;
        numbers[2 * i + 2] = e.destination as u64;
    }
    numbers
}

// Whether one of the numbers two by two has a destination that is none.
fn wide(numbers: &[u64]) -> bool
    ensures { result ≡ wide numbers.now }
{
    let (pairs, _) = numbers.as_chunks::<2>();
    pairs.iter().any(|pair| MOST_DESTINATION < pair[1])
}

// The old table stays in its array where the load is refused.
#[tactic(auto, unfolding(crate::specs::Relaying::load_leaves))]
pub fn itz_relay_load(entries: &[u64], table: &mut [u64]) -> u64
    ensures { left result table.new [] [] ≡ load_leaves entries.now table.old }
{
    if entries.len() % 2 != 0 || table.len() < TABLE_NUMBERS {
        return ROOM;
    }
    if wide(entries) {
        return SETTING;
    }
    let mut loaded = relay::empty();
    let answer = relay::load(&mut loaded, entries.len() / 2, entries_of(entries));
    keep(table, refusal_number(answer), &table_numbers(loaded))
}

// An answer's refusal, and the numbers behind it.
#[tactic(auto, unfolding(crate::specs::Relaying::route_numbers, relay::specs::Route::routes))]
fn routed_said(routed: Result<Option<usize>, Refused>) -> [u64; 4]
    ensures { (octets : List ℕ) → result ≡ (routes routed octets).refusal ∷ route_numbers (routes routed octets) }
{
    match routed {
        Err(Refused { refusal, damage }) => [number(refusal), 0, 0, damage_number(damage)],
        Ok(None) => [0, NO_PATH, 0, 0],
        Ok(Some(count)) => [0, PATH, count as u64, 0],
    }
}

#[tactic(auto, unfolding(crate::specs::Relaying::route_leaves, relay::specs::Route::routes))]
pub fn itz_relay_route(
    limit: u64,
    table: &[u64],
    packet: &[u8],
    destinations: &mut [u8],
    answer: &mut [u64],
) -> u64
    ensures { left result [] destinations.new answer.new ≡ route_leaves limit table.now packet.now destinations.old answer.old }
{
    if answer.len() < ROUTED_ENTRIES {
        return ROOM;
    }
    let Some(table) = table_of(table) else {
        return ROOM;
    };
    tell(
        answer,
        &routed_said(relay::route(limit as usize, table, packet, destinations)),
    )
}
