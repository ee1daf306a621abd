// The forms of a line. In a form `%` stands for a number of at most seven digits, `$` for octets up to the line's end, `*` for
// any text up to it, 4,096 octets at most of either, and every other sign for itself.
use crate::hex;
use frames::Edition;

// What is asked of the multiplexer.
#[derive(Clone, Copy)]
pub(crate) enum Call {
    Put,
    Flush,
    IdleZone,
}

// What is asked of packets alone, or of octets.
#[derive(Clone, Copy)]
pub(crate) enum Question {
    // So many octets DD, wrapped.
    Wrap,
    // No octet, wrapped into an output of one octet.
    WrapNothing,
    Unwrap,
    // What the header reader says of the first octets of a packet.
    Header,
    // Whether a packet is well-formed, and what its header says.
    Lent,
    // The fields of a space packet's header.
    SpaceHeader,
    // Such a header written into so many octets.
    WriteSpaceHeader,
    // What a trailer of the octets would be.
    Remainder,
}

#[derive(Clone, Copy)]
pub(crate) enum Verb {
    // Nothing: an empty line, or one that begins with `#`.
    Note,
    // What each line that is printed begins with, from here on.
    Label,
    // A channel at its beginning, for packets and for bits, with headers of this edition.
    Channel(Edition),
    // Trailers on the channel's frames, from here on.
    Trailers,
    // Calls of the multiplexer; a packet is put until it is taken.
    Transmit(Call),
    // A frame for the extractor.
    Read,
    // One call with a packet of so many octets: those that are written, and 0 behind them.
    Put,
    // So many bits for the bitstream writer.
    Write,
    // A frame for the bitstream reader.
    ReadBits,
    // A list for the relay's table.
    Load,
    // A packet for the relay.
    Route,
    Ask(Question),
}

// No form has more numbers.
const MOST_NUMBERS: usize = 8;

// The numbers of a line, in their order, behind as many 0 as are missing.
pub(crate) type Numbers = [usize; MOST_NUMBERS];

pub(crate) const NO_NUMBERS: Numbers = [0; MOST_NUMBERS];

// What a line asks: its verb, its numbers, and what stands there for `$` or `*`.
#[derive(Clone, Copy)]
pub(crate) struct Asked<'a> {
    pub(crate) verb: Verb,
    pub(crate) numbers: Numbers,
    pub(crate) written: &'a [u8],
}

// Each form, and the verb of a line in it.
const FORMS: &[(&[u8], Verb)] = &[
    (b"", Verb::Note),
    (b"#", Verb::Note),
    (b"#*", Verb::Note),
    (b"label *", Verb::Label),
    (
        b"channel % of spacecraft %, zone %, limit %",
        Verb::Channel(Edition::Former),
    ),
    (b"send $", Verb::Transmit(Call::Put)),
    (b"flush", Verb::Transmit(Call::Flush)),
    (b"idle zone", Verb::Transmit(Call::IdleZone)),
    (b"read $", Verb::Read),
    (b"put % octets: $", Verb::Put),
    (b"write % bits: $", Verb::Write),
    (b"read bits $", Verb::ReadBits),
    (
        b"wrap at M % protocol % extension %, octets %",
        Verb::Ask(Question::Wrap),
    ),
    (
        b"wrap nothing into an output that is too short",
        Verb::Ask(Question::WrapNothing),
    ),
    (b"unwrap $", Verb::Ask(Question::Unwrap)),
    (b"header $", Verb::Ask(Question::Header)),
    (b"line %: $", Verb::Ask(Question::Lent)),
    (b"space header $", Verb::Ask(Question::SpaceHeader)),
    (
        b"write space header into % octets: version % type % secondary % APID % flags % count % length %",
        Verb::Ask(Question::WriteSpaceHeader),
    ),
    (b"load $", Verb::Load),
    (b"load nothing", Verb::Load),
    (b"route into % octets: $", Verb::Route),
    (b"trailers", Verb::Trailers),
    (b"remainder $", Verb::Ask(Question::Remainder)),
    (b"remainder of nothing", Verb::Ask(Question::Remainder)),
    (
        b"channel % of spacecraft %, zone %, limit %, count usage 0",
        Verb::Channel(Edition::CycleUnused),
    ),
    (
        b"channel % of spacecraft %, zone %, limit %, count usage 1",
        Verb::Channel(Edition::CycleUsed),
    ),
];

// A line as far as it is read by a form: what is left of it, and what was read.
#[derive(Clone, Copy)]
struct Line<'a> {
    rest: &'a [u8],
    numbers: Numbers,
    written: &'a [u8],
}

impl<'a> Line<'a> {
    // Reads a number; none where no digit stands there.
    fn number(&mut self) -> Option<()> {
        let (number, rest) = number(self.rest);
        if rest.len() == self.rest.len() {
            return None;
        }
        self.rest = rest;
        self.numbers.rotate_left(1);
        self.numbers[MOST_NUMBERS - 1] = number;
        Some(())
    }

    // Reads all that is left.
    fn all(&mut self) {
        self.written = self.rest;
        self.rest = &[];
    }

    // Reads what a sign of a form stands for; none where something else stands there.
    fn take(&mut self, sign: u8) -> Option<()> {
        match sign {
            b'%' => self.number()?,
            b'$' => {
                hex::read(self.rest, &mut [0; hex::MOST])?;
                self.all();
            }
            b'*' if self.rest.is_empty() || hex::MOST < self.rest.len() => return None,
            b'*' => self.all(),
            _ => self.rest = self.rest.strip_prefix(&[sign])?,
        }
        Some(())
    }
}

// The number that a text begins with, 0 where it begins with none, and what stands behind it: it has seven digits at most, and any zeros
// before them. (`parse` takes a whole text, and tells nothing of what stands behind a number.)
fn number(text: &[u8]) -> (usize, &[u8]) {
    let mut number = 0;
    for (at, sign) in text.iter().enumerate() {
        match sign {
            b'0'..=b'9' if number < 1_000_000 => number = number * 10 + usize::from(*sign - b'0'),
            _ => return (number, &text[at..]),
        }
    }
    (number, &[])
}

// A line held against a form; none where it is not in it.
fn try_form<'a>(form: &[u8], text: &'a [u8]) -> Option<Line<'a>> {
    let mut line = Line {
        rest: text,
        numbers: NO_NUMBERS,
        written: &[],
    };
    for sign in form {
        line.take(*sign)?;
    }
    line.rest.is_empty().then_some(line)
}

// What a line asks by the first of the forms that it is in; none where it is in none.
pub(crate) fn read(text: &[u8]) -> Option<Asked<'_>> {
    FORMS.iter().find_map(|(form, verb)| {
        let line = try_form(form, text)?;
        Some(Asked {
            verb: *verb,
            numbers: line.numbers,
            written: line.written,
        })
    })
}
