// Relays: a table of the destinations that each APID has, and the way of a space packet by it.
#![tactic(auto)]

ghost use Rattle.std.specs.Prelude.{◌≡◌, ◌++◌, true, ℕ, ◌≤◌, Ok, length, take, drop};
ghost use Rattle.octets.specs.Basics.{first};
ghost use Rattle.octets.specs.Refusals.{refusal_of};
ghost use Rattle.packets.specs.Header.{reading, answer};
ghost use Rattle.relay.specs.Table.{stands, unfit, clear, load_rows, is_table, empty, loading, loads};
ghost use Rattle.relay.specs.Route.{destinations, handed, routing, routes};

use octets::Refusal;
use packets::{Header, Kind, Refused};

// A table has so many entries at most.
pub const MOST_ENTRIES: usize = 32;

// The greatest APID of an entry: the next one is that of idle packets.
const MOST_APID: u16 = 2046;

// An APID, and one destination of its packets.
#[derive(Clone, Copy, Debug, PartialEq, Eq)]
pub struct Entry {
    pub apid: u16,
    pub destination: u8,
}

// What stands past a table's last entry.
const NO_ENTRY: Entry = Entry {
    apid: 0,
    destination: 0,
};

// A relay table: its entries are the first `count`. There is no heap, so that the array has room for all that a table may have.
#[derive(Clone, Copy, Debug, PartialEq, Eq)]
pub struct Table {
    pub count: usize,
    pub entries: [Entry; MOST_ENTRIES],
}

// The table with no entry.
#[tactic(auto, unfolding(crate::specs::Table::table_of))]
pub fn empty() -> Table
    ensures { result ≡ empty }
{
    Table {
        count: 0,
        entries: [NO_ENTRY; MOST_ENTRIES],
    }
}

// Whether an entry is among others. (`contains` would make routing slower.)
fn stands(e: &Entry, entries: &[Entry]) -> bool
    ensures { result ≡ stands e.now entries.now }
{
    entries.iter().any(|f| f == e)
}

// Whether one of the entries has an APID that no table has, or stands there twice.
#[tactic(auto, using(crate::proofs::Chains::unfit_above, crate::proofs::Chains::unfit_again, crate::proofs::Chains::unfit_behind, crate::proofs::Chains::unfit_none))]
fn unfit(entries: &[Entry]) -> bool
    ensures { result ≡ unfit entries.now }
{
    for (i, e) in entries.iter().enumerate() {
        if MOST_APID < e.apid || stands(e, &entries[i + 1..]) {
            return true;
        }
    }
    false
}

// Whether the first `count` can be a table's entries; or the refusal.
#[tactic(auto, using(crate::proofs::Tables::too_many, crate::proofs::Tables::not_loadable, crate::proofs::Tables::loadable))]
fn may_load(count: usize, entries: &[Entry; MOST_ENTRIES]) -> Result<(), Refusal>
    ensures value { refusal_of result ≡ first (load_rows count (take count entries.now)) }
    ensures few { refusal_of result ≡ 0 → count ≤ 32 }
{
    if MOST_ENTRIES < count || unfit(&entries[..count]) {
        return Err(Refusal::Table);
    }
    Ok(())
}

// Whether nothing stands there.
fn clear(entries: &[Entry]) -> bool
    ensures { result ≡ clear entries.now }
{
    entries.iter().all(|e| *e == NO_ENTRY)
}

// Whether loading can have made a table.
#[tactic(auto, unfolding(crate::specs::Table::is_table))]
fn is_table(t: &Table) -> bool
    ensures { result ≡ is_table t.now }
{
    may_load(t.count, &t.entries).is_ok() && clear(&t.entries[t.count..])
}

// Loads the first `count` entries in place of the old table, which stays where they are refused. `count` stands beside the array, as a
// list may be longer than any table's, which is refused.
pub fn load(table: &mut Table, count: usize, entries: [Entry; MOST_ENTRIES]) -> Result<(), Refusal>
    ensures { loads result table.new ≡ loading table.old count entries }
{
    may_load(count, &entries)?;
    *table = Table { count, entries };
    table.entries[count..].fill(NO_ENTRY);
    Ok(())
}

// How many destinations an APID has among the entries.
fn count_destinations(apid: u16, entries: &[Entry]) -> usize
    ensures { result ≡ length (destinations apid entries.now) }
{
    entries.iter().filter(|e| e.apid == apid).count()
}

// Writes the destinations that an APID has among the entries over the front of `out`, in their order.
fn write_destinations(apid: u16, entries: &[Entry], out: &mut [u8])
    requires { length (destinations apid entries.now) ≤ length out.old }
    ensures { out.new ≡ destinations apid entries.now ++ drop (length (destinations apid entries.now)) out.old }
{
    let named = entries
        .iter()
        .filter(|e| e.apid == apid)
        .map(|e| e.destination);
    for (i, destination) in named.enumerate() {
        out[i] = destination;
    }
}

// A refusal for which no header is at fault.
fn refused(refusal: Refusal) -> Refused
    ensures { result ≡ record { refusal = refusal; damage = None } }
{
    Refused {
        refusal,
        damage: None,
    }
}

// Writes the destinations of an APID over the front of `out`, if there is room for them, and answers how many; none where it has none.
#[tactic(auto, using(crate::proofs::Ways::not_sent, crate::proofs::Ways::sent_nowhere, crate::proofs::Ways::sent), unfolding(crate::specs::Route::routes))]
fn send(apid: u16, entries: &[Entry], out: &mut [u8]) -> Result<Option<usize>, Refused>
    ensures { routes result out.new ≡ handed (destinations apid entries.now) out.old }
{
    let count = count_destinations(apid, entries);
    if out.len() < count {
        return Err(refused(Refusal::Room));
    }
    if count == 0 {
        return Ok(None);
    }
    write_destinations(apid, entries, out);
    Ok(Some(count))
}

// Routes a packet by what its header tells, its damage too, where limit and table are in order. No table has an entry for idle packets.
#[tactic(auto, using(crate::proofs::Tables::few_entries))]
fn by_header(
    t: &Table,
    header: Header,
    packet: &[u8],
    out: &mut [u8],
) -> Result<Option<usize>, Refused>
    requires { is_table t.now ≡ true }
    ensures { (limit : ℕ) → answer (Ok header) ≡ reading limit packet.now → routes result out.new ≡ routing limit t.now packet.now out.old }
{
    let Header::Whole {
        kind,
        key,
        total,
        ..
    } = header
    else {
        return Err(Refused {
            refusal: Refusal::Packet,
            damage: packets::header_damage(Ok(header)),
        });
    };
    if total != packet.len() {
        return Err(refused(Refusal::Packet));
    }
    match kind {
        Kind::Encapsulation => Ok(None),
        Kind::Space => send(key, &t.entries[..t.count], out),
    }
}

// Routes a packet: writes the destinations of its APID over the front of `out`, in the table's order, and answers how many; none where
// the packet goes nowhere.
pub fn route(
    limit: usize,
    t: Table,
    packet: &[u8],
    out: &mut [u8],
) -> Result<Option<usize>, Refused>
    ensures { routes result out.new ≡ routing limit t packet.now out.old }
{
    let header = packets::read_header(limit, packet).map_err(refused)?;
    if !is_table(&t) {
        return Err(refused(Refusal::Record));
    }
    by_header(&t, header, packet, out)
}
