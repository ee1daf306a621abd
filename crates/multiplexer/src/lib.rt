// The multiplexer: packets in, frames out, call by call.
#![tactic(auto)]

ghost use Rattle.std.specs.Prelude.{◌≡◌, ◌+◌, ◌-◌, ◌≤◌, length, eqb};
ghost use Rattle.octets.specs.Basics.{pick, first};
ghost use Rattle.octets.specs.Refusals.{refusal_of};
ghost use Rattle.wrapping.specs.Idle.{idle_packet};
ghost use Rattle.multiplexer.specs.Multiplex.{begun, mux_reachable, lent_rows, put_rows, flush_rows, idle_rows, start_now, put, idle_frame};
ghost use Rattle.multiplexer.specs.Calls.{to_put, to_flush, to_idle, left_by, answers, answers_alone, answer};
ghost use Rattle.multiplexer.specs.Laying.{Fills, Counted, PacketLaid};

use frames::{Channel, IDLE_ZONE, NO_START, Settings, ZONE_AT};
use octets::Refusal;
use packets::Refused;

// What a multiplexer keeps between calls.
#[derive(Clone, Copy, Debug, PartialEq, Eq)]
pub struct Mux {
    // The count of the frame that is being filled.
    pub count: u32,
    // The octets in its zone.
    pub filled: usize,
    // Where the first packet of the zone starts; NO_START where none does yet.
    pub first: usize,
    // The octets of the packet already taken; 0 between packets.
    pub taken: usize,
}

// What a call did that is not refused: whether the zone is full, and whether the packet is taken; both may hold. With them is the record to
// go on with; a call that is refused leaves the one that it was given.
#[derive(Clone, Copy, Debug, PartialEq, Eq)]
pub struct Done {
    pub full: bool,
    pub taken: bool,
    pub mux: Mux,
}

// The first record.
pub fn begin() -> Mux
    ensures { result ≡ begun }
{
    Mux {
        count: 0,
        filled: 0,
        first: NO_START,
        taken: 0,
    }
}

// Whether the calls can lead to a record.
#[tactic(auto, unfolding(crate::specs::Multiplex::mux_reachable))]
fn mux_reachable(s: Settings, m: Mux) -> bool
    ensures { result ≡ mux_reachable s m }
{
    let counted = m.count < frames::wheel_of(s.link);
    if m.taken == 0 {
        return counted & ((m.filled < s.zone) & ((m.first == NO_START) | (m.first < m.filled)));
    }
    counted & ((m.filled == 0) & ((m.first == NO_START) & (m.taken < s.limit)))
}

// What every call is refused for first.
#[tactic(auto, unfolding(octets::specs::Basics::first, frames::specs::Frame::frame_length))]
fn may_call(s: Settings, m: Mux, room: usize) -> Result<(), Refusal>
    ensures { refusal_of result ≡ first (lent_rows s m room) }
{
    if !s.in_range() {
        return Err(Refusal::Setting);
    }
    if frames::is_short(s, room) {
        return Err(Refusal::Room);
    }
    if !mux_reachable(s, m) {
        return Err(Refusal::Record);
    }
    Ok(())
}

// Whether a packet may be put; or the first refusal that holds.
#[tactic(auto, using(crate::proofs::Rows::limit_known), unfolding(crate::specs::Multiplex::put_rows, octets::specs::Basics::first))]
fn may_put(s: Settings, m: Mux, p: &[u8], room: usize) -> Result<(), Refusal>
    ensures { refusal_of result ≡ first (put_rows s m p.now room) }
{
    may_call(s, m, room)?;
    if (0 < m.taken) & (p.len() <= m.taken) {
        return Err(Refusal::Moment);
    }
    if !packets::well_formed(s.limit, p) {
        return Err(Refusal::Packet);
    }
    Ok(())
}

// Whether a zone may be flushed; or the first refusal that holds.
#[tactic(auto, unfolding(crate::specs::Multiplex::flush_rows, octets::specs::Basics::first))]
fn may_flush(s: Settings, m: Mux, room: usize) -> Result<(), Refusal>
    ensures { refusal_of result ≡ first (flush_rows s m room) }
{
    may_call(s, m, room)?;
    if 0 < m.taken {
        return Err(Refusal::Moment);
    }
    Ok(())
}

// Whether an idle zone may be written; or the first refusal that holds.
#[tactic(auto, unfolding(crate::specs::Multiplex::idle_rows, octets::specs::Basics::first))]
fn may_idle(s: Settings, m: Mux, room: usize) -> Result<(), Refusal>
    ensures { refusal_of result ≡ first (idle_rows s m room) }
{
    may_call(s, m, room)?;
    if (0 < m.taken) | (0 < m.filled) {
        return Err(Refusal::Moment);
    }
    Ok(())
}

// Where the zone's first packet starts, once more octets are laid: a packet that is continued starts nothing.
#[tactic(auto, unfolding(crate::specs::Multiplex::start_now))]
fn start_now(m: Mux) -> usize
    ensures { result ≡ start_now m }
{
    if (m.taken == 0) & (m.first == NO_START) {
        m.filled
    } else {
        m.first
    }
}

// What is taken of a packet of `len` octets, for the next call: a packet that is whole is done with.
fn taken_now(taken: usize, len: usize) -> usize
    ensures { result ≡ pick (eqb taken len) 0 taken }
{
    if taken == len { 0 } else { taken }
}

// Counts n octets that were laid into the zone. A zone that is now full gets its header, and its trailer where the channel has one.
fn count_in(s: Settings, m: Mux, start: usize, n: usize, taken: usize, frame: &mut [u8]) -> Mux
    requires { Fills s m start n frame.old }
    ensures { Counted s m start n taken result frame.old frame.new }
{
    if m.filled + n == s.zone {
        frames::write_head(s, m.count, start as u16, frame).unwrap();
        trailer::end_frame(s.link.trailed, frame, ZONE_AT + s.zone);
        return Mux {
            count: frames::next_count(s.link, m.count),
            taken,
            ..begin()
        };
    }
    Mux {
        filled: m.filled + n,
        first: start,
        taken,
        ..m
    }
}

// What a call did that laid the next n octets of a packet of `len` into the zone.
fn packet_laid(s: Settings, m: Mux, n: usize, len: usize, frame: &mut [u8]) -> Done
    requires fills { Fills s m (start_now m) n frame.old }
    requires n_bound { m.taken + n ≤ len }
    ensures { PacketLaid s m n len result frame.old frame.new }
{
    let to = m.taken + n;
    let start = start_now(m);
    let taken = taken_now(to, len);
    Done {
        full: m.filled + n == s.zone,
        taken: to == len,
        mux: count_in(s, m, start, n, taken, frame),
    }
}

// Lays as many of the packet's octets into the zone as fit.
fn lay_packet(s: Settings, m: Mux, p: &[u8], frame: &mut [u8]) -> Done
    requires { first (put_rows s m p.now (length frame.old)) ≡ 0 }
    ensures { left_by result frame.new ≡ put s m p.now frame.old }
{
    let from = m.taken;
    let n = octets::least(s.zone - m.filled, p.len() - from);
    octets::lay(frame, ZONE_AT + m.filled, p, from, from + n).unwrap();
    packet_laid(s, m, n, p.len(), frame)
}

// Lays the idle packet that fills the zone, and so is taken whole.
fn lay_idle_packet(s: Settings, m: Mux, frame: &mut [u8]) -> Done
    requires { first (flush_rows s m (length frame.old)) ≡ 0 }
    ensures { left_by result frame.new ≡ put s m (idle_packet s.fill (s.zone - m.filled)) frame.old }
{
    let left = s.zone - m.filled;
    wrapping::write_idle(frame, ZONE_AT + m.filled, left, s.fill).unwrap();
    let start = start_now(m);
    Done {
        full: true,
        taken: true,
        mux: count_in(s, m, start, left, 0, frame),
    }
}

// Fills the zone with the fill octet.
fn lay_idle_zone(s: Settings, m: Mux, frame: &mut [u8]) -> Done
    requires { first (idle_rows s m (length frame.old)) ≡ 0 }
    ensures { left_by result frame.new ≡ idle_frame s m frame.old }
{
    octets::fill(frame, ZONE_AT + m.filled, s.zone, s.fill).unwrap();
    Done {
        full: true,
        taken: false,
        mux: count_in(s, m, IDLE_ZONE, s.zone, 0, frame),
    }
}

// Puts as many of the packet's octets as fit into the frame, after those already taken. A refusal says what is wrong with the packet's header.
#[tactic(auto, using(crate::proofs::Answers::refused, crate::proofs::Answers::done), unfolding(crate::specs::Calls::answers))]
pub fn put(s: Settings, m: Mux, p: &[u8], frame: &mut [u8]) -> Result<Done, Refused>
    ensures { answers m result frame.new ≡ answer s m (to_put p.now) frame.old }
{
    may_put(s, m, p, frame.len()).map_err(|refusal| Refused {
        refusal,
        damage: packets::carried(refusal.number(), s.limit, p),
    })?;
    Ok(lay_packet(s, m, p, frame))
}

// Fills a begun zone with one idle packet; an empty zone stays as it is.
#[tactic(auto, using(crate::proofs::Answers::refused, crate::proofs::Answers::done), unfolding(crate::specs::Calls::answers_alone, crate::specs::Multiplex::flush))]
pub fn flush(s: Settings, m: Mux, frame: &mut [u8]) -> Result<Done, Refusal>
    ensures { answers_alone m result frame.new ≡ answer s m to_flush frame.old }
{
    may_flush(s, m, frame.len())?;
    if m.filled == 0 {
        return Ok(Done {
            full: false,
            taken: false,
            mux: m,
        });
    }
    Ok(lay_idle_packet(s, m, frame))
}

// Writes a frame whose zone is idle: the fill octet throughout.
#[tactic(auto, using(crate::proofs::Answers::refused, crate::proofs::Answers::done), unfolding(crate::specs::Calls::answers_alone))]
pub fn idle_zone(s: Settings, m: Mux, frame: &mut [u8]) -> Result<Done, Refusal>
    ensures { answers_alone m result frame.new ≡ answer s m to_idle frame.old }
{
    may_idle(s, m, frame.len())?;
    Ok(lay_idle_zone(s, m, frame))
}
