// What is wrong with a packet's header, one thing at most; and a refusal that says it.
ghost use Rattle.std.specs.Prelude.{◌≡◌};
ghost use Rattle.packets.specs.Damage.{damage_number};

use octets::Refusal;
use std::fmt;

#[derive(Clone, Copy, Debug, PartialEq, Eq)]
pub enum Damage {
    // The version is that of no packet.
    Version,
    // A packet of one octet is not idle.
    NotIdle,
    // The length is below the header's own.
    BelowHeader,
    // The length is over the limit.
    OverLimit,
}

impl Damage {
    // The number in the table; 0 is none of them.
    pub fn number(self) -> u8
        ensures { result ≡ damage_number self }
    {
        match self {
            Damage::Version => 1,
            Damage::NotIdle => 2,
            Damage::BelowHeader => 3,
            Damage::OverLimit => 4,
        }
    }
}

impl fmt::Display for Damage {
    fn fmt<W: fmt::Write>(&self, f: &mut fmt::Formatter<W>) -> fmt::Result {
        f.write_str(match self {
            Damage::Version => "the version is that of no packet",
            Damage::NotIdle => "a packet of one octet is not idle",
            Damage::BelowHeader => "the length is below the header's own",
            Damage::OverLimit => "the length is over the limit",
        })
    }
}

// What a call that is lent a packet is refused for, and what is wrong with that packet's header.
#[derive(Clone, Copy, Debug, PartialEq, Eq)]
pub struct Refused {
    pub refusal: Refusal,
    pub damage: Option<Damage>,
}
