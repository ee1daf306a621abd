// A relay: its table, and packets routed by it. The line of an answer repeats the line that asks.
use crate::run::Ends;
use crate::say;
use packets::Refused;
use relay::{Entry, MOST_ENTRIES};
use std::io;

// A list has three octets for an entry: two for its APID, and its destination.
const ENTRY: usize = 3;

// The entries of a list, as many as a table can have; 0 past the last.
fn listed(list: &[u8]) -> [Entry; MOST_ENTRIES] {
    let mut entries = relay::empty().entries;
    let (list, _) = list.as_chunks::<ENTRY>();
    for (entry, [high, low, destination]) in entries.iter_mut().zip(list) {
        *entry = Entry {
            apid: u16::from_be_bytes([*high, *low]),
            destination: *destination,
        };
    }
    entries
}

// What routing a packet answered.
fn routed(rt: &impl Print, answer: Result<Option<usize>, Refused>) -> io::Result<()> {
    match answer {
        Err(refused) => say::refused_for(rt, refused),
        Ok(None) => print!(rt; " no path"),
        Ok(Some(count)) => print!(rt; " path {count}"),
    }
}

impl Ends<'_> {
    // The line of a list that is loaded: how many entries the table has then.
    pub(crate) fn load(&mut self, rt: &impl Print, line: &[u8], list: &[u8]) -> io::Result<()> {
        let answer = relay::load(&mut self.table, list.len() / ENTRY, listed(list));
        say::asked(rt, self.label, line)?;
        print!(rt; ":")?;
        match answer {
            Err(refusal) => say::refused(rt, refusal)?,
            Ok(()) => print!(rt; " entries {}", self.table.count)?,
        }
        println!(rt)
    }

    // The line of a packet that is routed, with all octets of which the first n are lent.
    pub(crate) fn route(&self, rt: &impl Print, n: usize, line: &[u8], p: &[u8]) -> io::Result<()> {
        let mut out = [0xDDu8; 8];
        let room = n.min(out.len());
        let answer = relay::route(self.settings.limit, self.table, p, &mut out[..room]);
        say::asked(rt, self.label, line)?;
        print!(rt; ":")?;
        routed(rt, answer)?;
        say::shown(rt, &out)?;
        println!(rt)
    }
}
