// The bitstream channel.
ghost use Rattle.std.specs.Prelude.{◌≡◌, [], ◌∷◌};
ghost use Rattle.bitstream.specs.Bitstream.{reads};
ghost use Rattle.bitstream.specs.declared.Reader.{Reader};
ghost use Rattle.exports.specs.Left.{left};
ghost use Rattle.exports.specs.Stated.{Stated};
ghost use Rattle.exports.specs.Bits.{bits_short, bit_settings_of, writer_of, write_leaves, reader_with, reader_of, reader_numbers, read_numbers, read_leaves};

use crate::channel::{link_of, zone_for};
use crate::lent::{ROOM, leave, number, refusal_number};
use arrays::{MOST_COUNT, count_of, flag, keep, octet_of};
use bitstream::{Reader, Reading, Writer};
use frames::ZONE_AT;
use frames::bits::BitSettings;
use octets::Refusal;

// The entries of the settings, of a writer's and of a reader's record, and of what reading answers.
const BIT_SETTINGS_ENTRIES: usize = 6;

const WRITER_ENTRIES: usize = 1;

const READER_ENTRIES: usize = 3;

const BITS_ENTRIES: usize = 6;

// Whether an array is short: of settings, or of a record or an answer that has so many numbers. No entry is looked at before.
#[tactic(auto, unfolding(crate::specs::Bits::bits_short))]
fn bits_short(settings: usize, record: usize, kept: usize, answer: usize, room: usize) -> bool
    ensures { result ≡ bits_short settings «record» kept answer room }
{
    settings < BIT_SETTINGS_ENTRIES || record < kept || answer < room
}

// The kinds of a reader's record.
const FRESH: u64 = 0;

const LAST: u64 = 1;

// The settings that an array states; none where it is short.
#[tactic(auto, unfolding(crate::specs::Bits::bit_settings_of, crate::specs::Channel::link_of))]
fn bit_settings_of(numbers: &[u64]) -> Option<BitSettings>
    ensures { Stated 6 bit_settings_of numbers.now result }
{
    let [spacecraft, channel, width, fill, trailer, edition] = *numbers.first_chunk::<6>()?;
    Some(BitSettings {
        link: link_of(spacecraft, channel, trailer, edition),
        width: zone_for(width, fill, trailer, edition),
        fill: octet_of(fill),
    })
}

// The record that an array states; none where it is short.
#[tactic(auto, unfolding(crate::specs::Bits::writer_of))]
fn writer_of(numbers: &[u64]) -> Option<Writer>
    ensures { Stated 1 writer_of numbers.now result }
{
    let [count] = *numbers.first_chunk::<WRITER_ENTRIES>()?;
    Some(Writer {
        count: count_of(count),
    })
}

#[tactic(auto, unfolding(crate::specs::Bits::write_leaves, crate::specs::Bits::bits_short))]
pub fn itz_bits_write(
    settings: &[u64],
    record: &mut [u64],
    bits: &[u8],
    n: u64,
    frame: &mut [u8],
) -> u64
    ensures { left result «record».new frame.new [] ≡ write_leaves settings.now «record».old bits.now n frame.old }
{
    if bits_short(settings.len(), record.len(), WRITER_ENTRIES, 0, 0) {
        return ROOM;
    }
    let (Some(settings), Some(writer)) = (bit_settings_of(settings), writer_of(record)) else {
        return ROOM;
    };
    let written = bitstream::write(settings, writer, bits, n as usize, frame);
    let next = written.unwrap_or(writer);
    keep(record, refusal_number(written), &[next.count as u64])
}

// A record that no call reaches.
const UNREAD: Reader = Reader::Last {
    count: MOST_COUNT,
    waiting: false,
};

// The record with these numbers; before the first frame there is no last count, and nothing waits.
#[tactic(auto, unfolding(crate::specs::Bits::reader_with))]
fn reader_with(kind: u64, last: u32, waiting: u64) -> Reader
    ensures { result ≡ reader_with kind last waiting }
{
    match (kind, last, waiting) {
        (FRESH, 0, 0) => Reader::Fresh,
        (LAST, _, 0 | 1) => Reader::Last {
            count: last,
            waiting: waiting == 1,
        },
        _ => UNREAD,
    }
}

// The record that an array states; none where it is short.
fn reader_of(numbers: &[u64]) -> Option<Reader>
    ensures { Stated 3 reader_of numbers.now result }
{
    let [kind, last, waiting] = *numbers.first_chunk::<READER_ENTRIES>()?;
    Some(reader_with(kind, count_of(last), waiting))
}

// A record's numbers, as its array has them.
#[tactic(auto, unfolding(crate::specs::Bits::reader_numbers))]
fn reader_numbers(x: Reader) -> [u64; READER_ENTRIES]
    ensures { result ≡ reader_numbers x }
{
    match x {
        Reader::Fresh => [FRESH, 0, 0],
        Reader::Last { count, waiting } => [LAST, count as u64, flag(waiting)],
    }
}

// An answer's refusal, and the numbers behind it.
#[tactic(auto, using(octets::proofs::ByNumber::refused_not_0), unfolding(crate::specs::Bits::read_numbers, bitstream::specs::Bitstream::leading_octets, bitstream::specs::Bitstream::octets_for))]
fn read_said(s: BitSettings, frame: &[u8], read: Result<Reading, Refusal>) -> [u64; 7]
    ensures { (x : Reader) → result ≡ (reads x read).refusal ∷ read_numbers s frame.now (reads x read) }
{
    match read {
        Err(refusal) => [number(refusal), 0, 0, 0, 0, 0, 0],
        Ok(reading) => [
            0,
            reading.count as u64,
            reading.replay as u64,
            flag(reading.lost),
            reading.bits as u64,
            ZONE_AT as u64,
            bitstream::leading_octets(s, reading.bits, frame).len() as u64,
        ],
    }
}

#[tactic(auto, unfolding(crate::specs::Bits::read_leaves, crate::specs::Bits::bits_short))]
pub fn itz_bits_read(settings: &[u64], record: &mut [u64], frame: &[u8], answer: &mut [u64]) -> u64
    ensures { left result «record».new [] answer.new ≡ read_leaves settings.now «record».old frame.now answer.old }
{
    if bits_short(
        settings.len(),
        record.len(),
        READER_ENTRIES,
        answer.len(),
        BITS_ENTRIES,
    ) {
        return ROOM;
    }
    let (Some(settings), Some(reader)) = (bit_settings_of(settings), reader_of(record)) else {
        return ROOM;
    };
    let read = bitstream::read(settings, reader, frame);
    let next = read.map_or(reader, |reading| reading.reader);
    leave(
        record,
        &reader_numbers(next),
        answer,
        &read_said(settings, frame, read),
    )
}
