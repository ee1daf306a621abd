// A space packet's header, read and written field by field.
use crate::ask::octet;
use crate::forms::Numbers;
use crate::say;
use space::SpaceHeader;
use std::io;

// The fields, or the refusal.
pub(crate) fn read(rt: &impl Print, p: &[u8]) -> io::Result<()> {
    print!(rt; ":")?;
    match space::read_space(p) {
        Err(refusal) => say::refused(rt, refusal),
        Ok(header) => fields(rt, header),
    }
}

// The seven fields.
fn fields(rt: &impl Print, h: SpaceHeader) -> io::Result<()> {
    print!(rt;
        " version {} type {} secondary {} APID {}",
        h.version, h.packet_type, h.secondary, h.apid
    )?;
    print!(rt; " flags {} count {} length {}", h.flags, h.count, h.length)
}

// A number as two octets; 65,535 for any that is more.
fn two_octets(n: usize) -> u16 {
    u16::try_from(n).unwrap_or(u16::MAX)
}

// Writes a header over eight octets DD, of which so many are lent, and shows all eight.
pub(crate) fn write(rt: &impl Print, numbers: Numbers) -> io::Result<()> {
    let [
        room,
        version,
        packet_type,
        secondary,
        apid,
        flags,
        count,
        length,
    ] = numbers;
    let header = SpaceHeader {
        version: octet(version),
        packet_type: octet(packet_type),
        secondary: octet(secondary),
        apid: two_octets(apid),
        flags: octet(flags),
        count: two_octets(count),
        length: two_octets(length),
    };
    let mut out = [0xDDu8; 8];
    let room = room.min(out.len());
    let written = space::write_space(header, &mut out[..room]);
    print!(rt; ":")?;
    if let Err(refusal) = written {
        say::refused(rt, refusal)?;
    }
    say::shown(rt, &out)
}
