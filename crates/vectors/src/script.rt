// The text, line by line.
use crate::forms::{Asked, Verb};
use crate::run::Ends;
use crate::{forms, hex};
use frames::Edition;
use std::io;

// Says that a line is not understood.
fn refuse(rt: &impl Print, number: u64, line: &[u8]) -> io::Result<()> {
    print!(rt; "line {number} is in none of the forms: ")?;
    rt.write_all(line)?;
    println!(rt)
}

// Does what a line asks, with the octets that it writes.
fn obey<'a>(rt: &impl Print, asked: Asked<'a>, line: &[u8], ends: &mut Ends<'a>) -> io::Result<()> {
    let mut room = [0; hex::MOST];
    let octets = hex::read(asked.written, &mut room).unwrap_or(&[]);
    let [.., n] = asked.numbers;
    match asked.verb {
        Verb::Note => Ok(()),
        Verb::Label => {
            ends.label = asked.written;
            Ok(())
        }
        Verb::Channel(edition) => {
            *ends = Ends::begin(ends.label, edition, asked.numbers);
            Ok(())
        }
        Verb::Trailers => {
            ends.settings.link.trailed = true;
            Ok(())
        }
        Verb::Transmit(call) => ends.transmit(rt, call, octets),
        Verb::Read => ends.hear(rt, octets),
        Verb::Put => ends.put_long(rt, n, octets),
        Verb::Write => ends.write_bits(rt, n, octets),
        Verb::ReadBits => ends.read_bits(rt, octets),
        Verb::Load => ends.load(rt, line, octets),
        Verb::Route => ends.route(rt, n, line, octets),
        Verb::Ask(question) => ends.answer(rt, question, asked.numbers, line, octets),
    }
}

// Every line, up to one that is not understood.
pub(crate) fn follow(rt: &impl Print, text: &[u8]) -> io::Result<()> {
    let mut ends = Ends::begin(&[], Edition::Former, forms::NO_NUMBERS);
    for (number, line) in (1..).zip(text.split(|sign| *sign == b'\n')) {
        let Some(asked) = forms::read(line) else {
            return refuse(rt, number, line);
        };
        obey(rt, asked, line, &mut ends)?;
    }
    Ok(())
}
