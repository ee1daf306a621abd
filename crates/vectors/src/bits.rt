// The bitstream channel: bits into frames, and the bits of a frame.
use crate::run::{self, Ends};
use crate::say;
use crate::say::Octets;
use bitstream::Reading;
use frames::Settings;
use frames::bits::BitSettings;
use std::io;

// The settings of a channel, for bits.
fn for_bits(s: Settings) -> BitSettings {
    BitSettings {
        link: s.link,
        width: s.zone,
        fill: s.fill,
    }
}

// What is said of a frame that is read: its count, the loss flag, and how many bits it has.
fn heard(rt: &impl Print, r: Reading) -> io::Result<()> {
    let lost = u8::from(r.lost);
    print!(rt;
        " reads frame {} loss flag {lost} bits {} =",
        r.count, r.bits
    )
}

impl Ends<'_> {
    // Writes the first n of the bits that are lent into a frame.
    pub(crate) fn write_bits(&mut self, rt: &impl Print, n: usize, lent: &[u8]) -> io::Result<()> {
        let mut frame = [0u8; run::LONGEST];
        let answer = bitstream::write(for_bits(self.settings), self.writer, lent, n, &mut frame);
        let refusal = match answer {
            Err(refusal) => refusal.number(),
            Ok(writer) => {
                self.writer = writer;
                0
            }
        };
        rt.write_all(self.label)?;
        print!(rt; " writes {n} bits, refusal {refusal}:")?;
        println!(rt; "{}", Octets(run::whole(self.settings, &frame)))
    }

    // The line of a frame that is read, up to the octets that hold the bits.
    pub(crate) fn read_bits(&mut self, rt: &impl Print, frame: &[u8]) -> io::Result<()> {
        let s = for_bits(self.settings);
        rt.write_all(self.label)?;
        match bitstream::read(s, self.reader, frame) {
            Err(refusal) => {
                print!(rt; " reads")?;
                say::refused(rt, refusal)?;
            }
            Ok(reading) => {
                self.reader = reading.reader;
                heard(rt, reading)?;
                let octets = bitstream::leading_octets(s, reading.bits, frame);
                print!(rt; "{}", Octets(octets))?;
            }
        }
        println!(rt)
    }
}
