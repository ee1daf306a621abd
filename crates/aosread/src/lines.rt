// The lines of the output.
#![tactic(auto, unfolding(crate::specs::Lines::setup_line, crate::specs::Lines::taken_line, crate::specs::Lines::entered_line, crate::specs::Lines::packet_line, crate::specs::Lines::step_line, crate::specs::Lines::verdict_line))]

ghost use Rattle.std.specs.Prelude.{◌≡◌, ◌+◌, ◌≤◌, length};
ghost use Rattle.aosread.specs.Lines.{ascii, last as last_text, two as two_text, setup_line, taken_line, entered_line, packet_line, step_line, verdict_line};

use crate::text::Text;
use extractor::{Entering, Entry, Found};
use frames::Settings;
use judge::Verdict;
use octets::Refusal;
use packets::{Header, Kind};

// No line is longer.
pub(crate) const MOST_LINE: usize = 128;

pub(crate) type Line = Text<MOST_LINE>;

// A line of one number.
fn one(name: &[u8], n: u64) -> Line
    requires { length name.now ≤ 20 }
    ensures { result ≡ last_text name.now n }
{
    let mut line = Line::new();
    line.last(name, n);
    line
}

// A line of two numbers.
fn two(first: &[u8], a: u64, second: &[u8], b: u64) -> Line
    requires { length first.now + length second.now ≤ 20 }
    ensures { result ≡ two_text first.now a second.now b }
{
    let mut line = Line::new();
    line.two(first, a, second, b);
    line
}

// The settings of the run.
pub(crate) fn setup(s: Settings) -> Line
    ensures { result ≡ setup_line s }
{
    let mut line = Line::new();
    line.named(b"setup ", s.link.spacecraft as u64);
    line.named(b" ", s.link.channel as u64);
    line.two(b" zone ", s.zone as u64, b" limit ", s.limit as u64);
    line
}

// A frame that is entered, with what was lost and dropped before it.
fn taken(e: Entry) -> Line
    ensures { result ≡ taken_line e }
{
    let reason = e.reason.map_or(0, |reason| reason.number());
    let mut line = Line::new();
    line.named(b"frame ", e.count as u64);
    line.named(b" lost ", e.lost as u64);
    line.two(b" dropped ", e.dropped as u64, b" reason ", reason as u64);
    line
}

// What entering a frame answers.
pub(crate) fn entered(answer: Result<Entering, Refusal>) -> Line
    ensures { result ≡ entered_line answer }
{
    match answer {
        Ok(entering) => taken(entering.entry),
        Err(refusal) => one(b"refused ", refusal.number() as u64),
    }
}

// A packet, by what its header tells; nothing where it tells of no packet.
fn packet(header: Result<Header, Refusal>) -> Line
    ensures { result ≡ packet_line header }
{
    let Ok(
        Header::Whole {
            kind,
            key,
            idle,
            total,
            ..
        },
    ) = header
    else {
        return Line::new();
    };
    if idle {
        return one(b"idle ", total as u64);
    }
    match kind {
        Kind::Space => two(b"space ", key as u64, b" ", total as u64),
        Kind::Encapsulation => two(b"encap ", key as u64, b" ", total as u64),
    }
}

// What a step found: damage, or a packet by what its header tells.
pub(crate) fn step(found: Found, header: Result<Header, Refusal>) -> Line
    ensures { result ≡ step_line found header }
{
    match found {
        Found::Damaged(damage) => one(b"damaged ", damage.number() as u64),
        _ => packet(header),
    }
}

// The verdict; nothing where the judge refuses.
pub(crate) fn verdict(answer: Result<Verdict, Refusal>) -> Line
    ensures { result ≡ verdict_line answer }
{
    match answer {
        Ok(Verdict::Pass) => {
            let mut line = Line::new();
            line.put(b"pass\n");
            line
        }
        Ok(Verdict::Fault { at }) => one(b"fault ", at as u64),
        Err(_) => Line::new(),
    }
}

// The number of the record that is bad.
pub(crate) fn bad_record(n: u64) -> Line
    ensures { result ≡ last_text (ascii "bad record ") n }
{
    one(b"bad record ", n)
}
