// One channel from end to end: packets go through the multiplexer, and an extractor hears each frame that is written.
use crate::forms::{Call, Numbers};
use crate::say::Octets;
use crate::{say, text};
use bitstream::{Reader, Writer};
use extractor::{Entry, Extractor, Found, Move, Reason};
use frames::bits::MOST_WIDTH;
use frames::{Edition, Link, Settings, ZONE_AT};
use multiplexer::{Done, Mux};
use octets::{Refusal, limits};
use packets::{Header, Refused};
use relay::Table;
use std::io;

// The octets of the longest frame: a zone of bits with both headers before it, and a trailer.
pub(crate) const LONGEST: usize = ZONE_AT + MOST_WIDTH + trailer::OCTETS;

// The end that packets come out of: the extractor, and the store of what it holds.
#[derive(Clone, Copy)]
struct Receiver {
    extractor: Extractor,
    store: [u8; 4096],
}

// Both ends of a channel, a relay's table, and what the lines on it begin with. Packets go in at the multiplexer, which fills the
// frame, and bits at the writer.
#[derive(Clone, Copy)]
pub(crate) struct Ends<'a> {
    pub(crate) label: &'a [u8],
    pub(crate) settings: Settings,
    mux: Mux,
    frame: [u8; LONGEST],
    receiver: Receiver,
    pub(crate) writer: Writer,
    pub(crate) reader: Reader,
    pub(crate) table: Table,
}

// A frame at the front of what is lent for it; nothing where the zone is out of range.
pub(crate) fn whole(s: Settings, lent: &[u8]) -> &[u8] {
    if s.zone > MOST_WIDTH {
        return &[];
    }
    text::front(lent, s.zone.saturating_add(frames::around(s.link)))
}

fn entered(rt: &impl Print, e: Entry) -> io::Result<()> {
    let reason = e.reason.map_or(0, |reason| reason.number());
    print!(rt;
        " frame {} lost {} dropped {} reason {reason}",
        e.count, e.lost, e.dropped
    )?;
    if let Some(Reason::HeaderDamaged(damage)) = e.reason {
        print!(rt; " damage {}", damage.number())?;
    }
    Ok(())
}

// A packet that was handed over: what its header says and, unless it is idle, its octets.
fn handed(rt: &impl Print, limit: usize, p: &[u8]) -> io::Result<()> {
    let header = packets::read_header(limit, p);
    say::header(rt, header)?;
    if matches!(header, Ok(Header::Whole { idle: true, .. })) {
        return Ok(());
    }
    say::shown(rt, p)
}

impl Receiver {
    // What a step through a frame found.
    fn found(
        &self,
        rt: &impl Print,
        limit: usize,
        frame: &[u8],
        step: Result<Move, Refusal>,
    ) -> io::Result<()> {
        let found = step.map(|step| step.found);
        match found {
            Ok(Found::Spent) => Ok(()),
            Err(refusal) => {
                print!(rt; ";")?;
                say::refused(rt, refusal)
            }
            Ok(Found::Damaged(damage)) => {
                print!(rt; ";")?;
                say::damaged(rt, damage)
            }
            Ok(Found::InFrame { .. } | Found::InStore { .. }) => {
                print!(rt; ";")?;
                handed(rt, limit, extractor::show(frame, &self.store, found))
            }
        }
    }

    // Steps through a frame that is entered until it is spent: with the longest zone that takes 2,047 steps at most.
    fn walk(&mut self, rt: &impl Print, s: Settings, frame: &[u8]) -> io::Result<()> {
        for _ in 0..MOST_WIDTH {
            let step = extractor::step(s, self.extractor, &mut self.store, frame);
            self.found(rt, s.limit, frame, step)?;
            let Ok(Move { found, next }) = step else {
                break;
            };
            self.extractor = next;
            if found == Found::Spent {
                break;
            }
        }
        Ok(())
    }

    // All that the extractor says of a frame.
    fn listen(&mut self, rt: &impl Print, s: Settings, frame: &[u8]) -> io::Result<()> {
        match extractor::enter(s, self.extractor, &self.store, frame) {
            Err(refusal) => say::refused(rt, refusal),
            Ok(entering) => {
                entered(rt, entering.entry)?;
                self.extractor = entering.next;
                self.walk(rt, s, frame)
            }
        }
    }
}

// What the multiplexer answered to one call.
fn replied(rt: &impl Print, reply: Result<Done, Refused>) -> io::Result<()> {
    match reply {
        Err(refused) => say::refused_for(rt, refused),
        Ok(done) => {
            let full = u8::from(done.full);
            let taken = u8::from(done.taken);
            print!(rt; " full {full} taken {taken}")
        }
    }
}

// A refusal of a call that is lent no packet.
fn alone(refusal: Refusal) -> Refused {
    Refused {
        refusal,
        damage: None,
    }
}

impl<'a> Ends<'a> {
    // A channel at its beginning, with 55 for its fill and no trailers: its number, the spacecraft, the zone and the limit.
    pub(crate) fn begin(label: &'a [u8], edition: Edition, numbers: Numbers) -> Ends<'a> {
        let [.., channel, spacecraft, zone, limit] = numbers;
        let link = Link {
            spacecraft: u32::try_from(spacecraft).unwrap_or(u32::MAX),
            channel: u32::try_from(channel).unwrap_or(u32::MAX),
            trailed: false,
            edition,
        };
        let settings = Settings {
            link,
            zone,
            limit,
            fill: 0x55,
        };
        let receiver = Receiver {
            extractor: Extractor::Fresh,
            store: [0; 4096],
        };
        Ends {
            label,
            settings,
            mux: multiplexer::begin(),
            frame: [0; LONGEST],
            receiver,
            writer: bitstream::begin(),
            reader: Reader::Fresh,
            table: relay::empty(),
        }
    }

    // The line of a frame that is read.
    pub(crate) fn hear(&mut self, rt: &impl Print, frame: &[u8]) -> io::Result<()> {
        rt.write_all(self.label)?;
        print!(rt; " reads")?;
        self.receiver.listen(rt, self.settings, frame)?;
        println!(rt)
    }

    // The line of a frame that is full, with its pointer and its octets; then it is heard.
    fn full(&mut self, rt: &impl Print) -> io::Result<()> {
        let frame = self.frame;
        let frame = whole(self.settings, &frame);
        let head = frames::read_head(self.settings, frame);
        rt.write_all(self.label)?;
        let pointer = head.map_or(0, |head| head.pointer);
        println!(rt; " writes P {pointer}:{}", Octets(frame))?;
        self.hear(rt, frame)
    }

    // What the multiplexer answered: a refusal is said, and a frame that is full is said and heard.
    fn answered(&mut self, rt: &impl Print, reply: Result<Done, Refused>) -> io::Result<()> {
        match reply {
            Err(refused) => {
                rt.write_all(self.label)?;
                say::refused_for(rt, refused)?;
                println!(rt)
            }
            Ok(done) => {
                self.mux = done.mux;
                if done.full { self.full(rt) } else { Ok(()) }
            }
        }
    }

    // One call of the multiplexer. The calls are data of the table of forms; here they are done.
    fn call(&mut self, c: Call, p: &[u8]) -> Result<Done, Refused> {
        let s = self.settings;
        let m = self.mux;
        match c {
            Call::Put => multiplexer::put(s, m, p, &mut self.frame),
            Call::Flush => multiplexer::flush(s, m, &mut self.frame).map_err(alone),
            Call::IdleZone => multiplexer::idle_zone(s, m, &mut self.frame).map_err(alone),
        }
    }

    // Calls the multiplexer until the packet is taken, to which each call that is not refused adds an octet at least; once where there
    // is no packet.
    pub(crate) fn transmit(&mut self, rt: &impl Print, c: Call, p: &[u8]) -> io::Result<()> {
        for _ in 0..=p.len() {
            let reply = self.call(c, p);
            self.answered(rt, reply)?;
            if matches!(reply, Err(_) | Ok(Done { taken: true, .. })) {
                break;
            }
        }
        Ok(())
    }

    // The line of one call with a packet, and of what its header says. The channel stays as it was.
    fn put_once(&self, rt: &impl Print, p: &[u8]) -> io::Result<()> {
        let mut tried = *self;
        rt.write_all(self.label)?;
        print!(rt; ": put")?;
        replied(rt, tried.call(Call::Put, p))?;
        print!(rt; ", header")?;
        say::header(rt, packets::read_header(self.settings.limit, p))?;
        println!(rt)
    }

    // One call with a packet of n octets, of which the first are given and the others 0.
    pub(crate) fn put_long(&self, rt: &impl Print, n: usize, first: &[u8]) -> io::Result<()> {
        let mut packet = [0u8; limits::MOST];
        for (place, octet) in packet.iter_mut().zip(first) {
            *place = *octet;
        }
        self.put_once(rt, text::front(&packet, n))
    }
}
