// What calls are refused for: each refusal says the same thing of every call, and has its number in the table; 0 is none of them.
ghost use Rattle.std.specs.Prelude.{◌≡◌};
ghost use Rattle.octets.specs.Refusals.{number_of};

use std::error::Error;
use std::fmt;

#[derive(Clone, Copy, Debug, PartialEq, Eq)]
pub enum Refusal {
    // A setting or an argument is out of range.
    Setting,
    // A lent buffer is too short.
    Room,
    // A frame to be read does not have exactly its length, or a tape that of whole frames.
    Length,
    // The frame's version is not 01.
    Version,
    // The frame is of another spacecraft or channel.
    Channel,
    // A spare or reserved bit is not 0.
    Spare,
    // The frame's pointer is one that is not used.
    Pointer,
    // A lent packet is not well formed or not of the kind, or a data unit makes no packet.
    Packet,
    // The call is not for this moment.
    Moment,
    // The record, or the octets held, are none that calls lead to.
    Record,
    // A frame, alone or in a tape, is beyond the last that a run can have.
    Frames,
    // A relay table has too many entries, an APID that no entry has, or the same entry twice.
    Table,
    // A frame's trailer is not the remainder of the octets before it.
    Trailer,
}

// The numbers of the table of refusals, which the calls from C answer.
pub const SETTING: u8 = 1;

pub const ROOM: u8 = 2;

pub const LENGTH: u8 = 3;

pub const VERSION: u8 = 4;

pub const CHANNEL: u8 = 5;

pub const SPARE: u8 = 6;

pub const POINTER: u8 = 7;

pub const PACKET: u8 = 8;

pub const MOMENT: u8 = 9;

pub const RECORD: u8 = 10;

pub const FRAMES: u8 = 11;

pub const TABLE: u8 = 12;

pub const TRAILER: u8 = 13;

impl Refusal {
    // Its number in the table.
    pub fn number(self) -> u8
        ensures { result ≡ number_of self }
    {
        match self {
            Refusal::Setting => SETTING,
            Refusal::Room => ROOM,
            Refusal::Length => LENGTH,
            Refusal::Version => VERSION,
            Refusal::Channel => CHANNEL,
            Refusal::Spare => SPARE,
            Refusal::Pointer => POINTER,
            Refusal::Packet => PACKET,
            Refusal::Moment => MOMENT,
            Refusal::Record => RECORD,
            Refusal::Frames => FRAMES,
            Refusal::Table => TABLE,
            Refusal::Trailer => TRAILER,
        }
    }
}

impl fmt::Display for Refusal {
    fn fmt<W: fmt::Write>(&self, f: &mut fmt::Formatter<W>) -> fmt::Result {
        f.write_str(match self {
            Refusal::Setting => "a setting or an argument is out of range",
            Refusal::Room => "a lent buffer is too short",
            Refusal::Length => "the frame does not have its length",
            Refusal::Version => "the frame's version is not 01",
            Refusal::Channel => "the frame is of another spacecraft or channel",
            Refusal::Spare => "a spare or reserved bit is not 0",
            Refusal::Pointer => "the frame's pointer is one that is not used",
            Refusal::Packet => "the packet is not well formed or not of the kind",
            Refusal::Moment => "the call is not for this moment",
            Refusal::Record => "the record is none that calls lead to",
            Refusal::Frames => "the run has all the frames that it can have",
            Refusal::Table => "the entries make no relay table",
            Refusal::Trailer => "the frame's trailer is wrong",
        })
    }
}

impl Error for Refusal {}
