// What is asked of packets alone, or of octets. The line of an answer repeats the line that asks.
use crate::forms::{Numbers, Question};
use crate::run::Ends;
use crate::say::Octets;
use crate::{header, say, text};
use octets::{Refusal, limits};
use packets::{Refused, Unit};
use std::io;

// What wrapping n octets answered: the header and the last octet of what it wrote.
fn wrapped(
    rt: &impl Print,
    answer: Result<usize, Refusal>,
    n: usize,
    out: &[u8],
) -> io::Result<()> {
    match answer {
        Err(refusal) => {
            let damage = None;
            say::refused_for(rt, Refused { refusal, damage })
        }
        Ok(total) => {
            let header = text::front(out, total.saturating_sub(n));
            let last = out.get(total.saturating_sub(1)..total).unwrap_or(&[]);
            print!(rt;
                " header{}, total {total}, last{}",
                Octets(header),
                Octets(last)
            )
        }
    }
}

// A number as an octet; 255 for any that is more.
pub(crate) fn octet(n: usize) -> u8 {
    u8::try_from(n).unwrap_or(u8::MAX)
}

// Wraps n octets DD.
fn wrap(rt: &impl Print, numbers: Numbers) -> io::Result<()> {
    let [.., limit, protocol, extension, n] = numbers;
    let unit = [0xDDu8; limits::MOST];
    let mut out = [0u8; limits::MOST];
    let unit = text::front(&unit, n);
    let answer = wrapping::wrap(limit, octet(protocol), octet(extension), unit, &mut out);
    print!(rt; ":")?;
    wrapped(rt, answer, n, &out)
}

// An empty unit, and room for one octet.
fn wrap_nothing(rt: &impl Print, limit: usize) -> io::Result<()> {
    let mut out = [0u8; 1];
    let answer = wrapping::wrap(limit, 2, 0, &[], &mut out);
    print!(rt; ":")?;
    wrapped(rt, answer, 0, &out)
}

// The data unit of a packet, if it is not refused.
fn unwrap(rt: &impl Print, limit: usize, p: &[u8]) -> io::Result<()> {
    print!(rt; ":")?;
    let answer = packets::unwrap(limit, p);
    match answer {
        Err(refused) => say::refused_for(rt, refused),
        Ok(
            Unit {
                protocol,
                extension,
                size,
                ..
            },
        ) => {
            print!(rt; " protocol {protocol} extension {extension} unit {size}")?;
            say::shown(rt, packets::unit_part(p, answer))
        }
    }
}

fn header(rt: &impl Print, limit: usize, p: &[u8]) -> io::Result<()> {
    print!(rt; ":")?;
    say::header(rt, packets::read_header(limit, p))
}

// Whether a packet is well-formed, and what its header says.
fn lent(rt: &impl Print, limit: usize, p: &[u8]) -> io::Result<()> {
    let not = if packets::well_formed(limit, p) {
        ""
    } else {
        "not "
    };
    print!(rt; " {not}well-formed, header")?;
    say::header(rt, packets::read_header(limit, p))
}

// The remainder of the octets, in two octets.
fn remainder(rt: &impl Print, p: &[u8]) -> io::Result<()> {
    print!(rt; ":{}", Octets(&trailer::remainder(p).to_be_bytes()))
}

impl Ends<'_> {
    // The line of the answer to a line that asks.
    pub(crate) fn answer(
        &self,
        rt: &impl Print,
        question: Question,
        numbers: Numbers,
        line: &[u8],
        p: &[u8],
    ) -> io::Result<()> {
        let limit = self.settings.limit;
        say::asked(rt, self.label, line)?;
        match question {
            Question::Wrap => wrap(rt, numbers),
            Question::WrapNothing => wrap_nothing(rt, limit),
            Question::Unwrap => unwrap(rt, limit, p),
            Question::Header => header(rt, limit, p),
            Question::Lent => lent(rt, limit, p),
            Question::SpaceHeader => header::read(rt, p),
            Question::WriteSpaceHeader => header::write(rt, numbers),
            Question::Remainder => remainder(rt, p),
        }?;
        println!(rt)
    }
}
