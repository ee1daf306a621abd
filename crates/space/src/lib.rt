// Primary headers of space packets, read and written field by field. The version is 000: any other begins no space packet.
#![tactic(auto)]

ghost use Rattle.std.specs.Prelude.{◌≡◌, ◌≤◌};
ghost use Rattle.words.specs.Fields.{read};
ghost use Rattle.space.specs.Space.{space_word, space_in_range, space_reading, space_reads, space_writes, space_writing};

use octets::Refusal;
use words::Place;

// The seven fields.
#[derive(Clone, Copy, Debug, PartialEq, Eq)]
pub struct SpaceHeader {
    pub version: u8,
    pub packet_type: u8,
    pub secondary: u8,
    pub apid: u16,
    pub flags: u8,
    pub count: u16,
    pub length: u16,
}

// The header's octets.
const HEADER: usize = 6;

// The fields' places in the header's 48 bits.
const VERSION: Place = Place {
    below: 45,
    width: 3,
};

const TYPE: Place = Place {
    below: 44,
    width: 1,
};

const SECONDARY: Place = Place {
    below: 43,
    width: 1,
};

const APID: Place = Place {
    below: 32,
    width: 11,
};

const FLAGS: Place = Place {
    below: 30,
    width: 2,
};

const COUNT: Place = Place {
    below: 16,
    width: 14,
};

const LENGTH: Place = Place {
    below: 0,
    width: 16,
};

// The greatest value of each field that its type does not bound and that is more than a bit.
const MOST_APID: u16 = 2047;

const MOST_FLAGS: u8 = 3;

const MOST_COUNT: u16 = 16383;

// A field of eight bits at most. (It and `wide` stay two: a generic one by TryFrom would have an answer for what cannot come.)
#[tactic(auto, using(words::proofs::Fields::field_within))]
fn narrow(word: u64, at: Place) -> u8
    requires { at.width ≤ 8 }
    ensures { result ≡ read at word }
{
    words::field(word, at) as u8
}

// A field of sixteen bits at most.
#[tactic(auto, using(words::proofs::Fields::field_within))]
fn wide(word: u64, at: Place) -> u16
    requires { at.width ≤ 16 }
    ensures { result ≡ read at word }
{
    words::field(word, at) as u16
}

// Reads the header in the first six octets; fewer, or another version, are refused.
pub fn read_space(start: &[u8]) -> Result<SpaceHeader, Refusal>
    ensures { space_reads result ≡ space_reading start.now }
{
    let word = octets::number::<HEADER>(start, 0);
    let version = narrow(word, VERSION);
    if (start.len() < HEADER) | (version != 0) {
        return Err(Refusal::Packet);
    }
    Ok(SpaceHeader {
        version,
        packet_type: narrow(word, TYPE),
        secondary: narrow(word, SECONDARY),
        apid: wide(word, APID),
        flags: narrow(word, FLAGS),
        count: wide(word, COUNT),
        length: wide(word, LENGTH),
    })
}

// Whether the version is a space packet's and each field within its width; a length always is.
#[tactic(auto, unfolding(crate::specs::Space::space_in_range))]
fn in_range(h: SpaceHeader) -> bool
    ensures { result ≡ space_in_range h }
{
    (h.version == 0)
        & ((h.packet_type <= 1)
            & ((h.secondary <= 1)
                & ((h.apid <= MOST_APID) & ((h.flags <= MOST_FLAGS) & (h.count <= MOST_COUNT)))))
}

// The header as one word of 48 bits.
#[tactic(auto, unfolding(crate::specs::Space::space_word))]
fn word_of(h: SpaceHeader) -> u64
    ensures { result ≡ space_word h }
{
    let word = words::placed(0, VERSION, h.version as u64);
    let word = words::placed(word, TYPE, h.packet_type as u64);
    let word = words::placed(word, SECONDARY, h.secondary as u64);
    let word = words::placed(word, APID, h.apid as u64);
    let word = words::placed(word, FLAGS, h.flags as u64);
    let word = words::placed(word, COUNT, h.count as u64);
    words::placed(word, LENGTH, h.length as u64)
}

// Writes a header over the first six octets; or nothing, where it is refused.
pub fn write_space(h: SpaceHeader, out: &mut [u8]) -> Result<(), Refusal>
    ensures { space_writes result out.new ≡ space_writing h out.old }
{
    if !in_range(h) {
        return Err(Refusal::Setting);
    }
    octets::put(out, 0, HEADER, word_of(h))
}
