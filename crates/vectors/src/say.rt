// What the lines are made of, where several are: octets in hexadecimal, refusals, and what a packet's header says.
use octets::Refusal;
use packets::{Damage, Header, Kind, Refused};
use std::{fmt, io};

// Octets, each after a space.
#[derive(Clone, Copy)]
pub(crate) struct Octets<'a>(pub(crate) &'a [u8]);

impl fmt::Display for Octets<'_> {
    fn fmt<W: fmt::Write>(&self, f: &mut fmt::Formatter<W>) -> fmt::Result {
        for octet in self.0 {
            write!(f, " {octet:02X}")?;
        }
        Ok(())
    }
}

// What octets something has, unless it has none.
pub(crate) fn shown(rt: &impl Print, s: &[u8]) -> io::Result<()> {
    if s.is_empty() {
        return Ok(());
    }
    print!(rt; " ={}", Octets(s))
}

// The label that the line of an answer begins with, and the line that asks.
pub(crate) fn asked(rt: &impl Print, label: &[u8], line: &[u8]) -> io::Result<()> {
    rt.write_all(label)?;
    print!(rt; " ")?;
    rt.write_all(line)
}

pub(crate) fn refused(rt: &impl Print, refusal: Refusal) -> io::Result<()> {
    print!(rt; " refused {}", refusal.number())
}

// The number of what is wrong with a header; 0 where nothing is.
pub(crate) fn number(damage: Option<Damage>) -> u8 {
    damage.map_or(0, |damage| damage.number())
}

// A refusal of a call that is lent a packet, and what is wrong with the header: with the refusal that tells it, and with any that should
// not.
pub(crate) fn refused_for(rt: &impl Print, r: Refused) -> io::Result<()> {
    refused(rt, r.refusal)?;
    if r.refusal == Refusal::Packet || r.damage.is_some() {
        print!(rt; " damage {}", number(r.damage))?;
    }
    Ok(())
}

pub(crate) fn damaged(rt: &impl Print, damage: Damage) -> io::Result<()> {
    print!(rt; " damaged {}", damage.number())
}

// What the header reader says: a packet by its kind, its APID or protocol, and its length; an idle one by its length alone.
pub(crate) fn header(rt: &impl Print, read: Result<Header, Refusal>) -> io::Result<()> {
    match read {
        Err(refusal) => refused(rt, refusal),
        Ok(Header::More) => print!(rt; " more"),
        Ok(Header::Damaged(damage)) => damaged(rt, damage),
        Ok(
            Header::Whole {
                idle: true,
                total,
                ..
            },
        ) => print!(rt; " idle {total}"),
        Ok(
            Header::Whole {
                kind: Kind::Space,
                key,
                total,
                ..
            },
        ) => print!(rt; " space {key} {total}"),
        Ok(
            Header::Whole {
                kind: Kind::Encapsulation,
                key,
                total,
                ..
            },
        ) => print!(rt; " encap {key} {total}"),
    }
}
