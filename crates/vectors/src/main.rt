// Runs the vectors that stand in the text of standard input, line by line, and prints a line for each answer.
#![tactic(auto)]

use std::io;

mod ask;
mod bits;
mod forms;
mod header;
mod hex;
mod relaying;
mod run;
mod say;
mod script;
mod text;

// A text has so many octets at most.
const MOST: usize = 65535;

// A text that leaves no room has too many octets.
fn main(rt: HostRuntime) -> io::Result<()> {
    let mut room = [0u8; MOST + 1];
    let text = text::read(&mut rt.stdin(), &mut room)?;
    if text.len() > MOST {
        return println!(rt; "the text has more than {MOST} octets");
    }
    script::follow(&rt, text)
}
