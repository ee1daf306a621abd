// What C calls: `include/itzahuemo.h` declares these functions and says what each number stands for. Each is the function of `exports`
// of its name, under the same promise.
#![tactic(auto)]

ghost use Rattle.exports.specs.Bits.{read_leaves, write_leaves};
ghost use Rattle.exports.specs.Extract.{enter_leaves, show_leaves, step_leaves};
ghost use Rattle.exports.specs.Judging.{close_leaves, judge_leaves, tape_leaves};
ghost use Rattle.exports.specs.Left.{left};
ghost use Rattle.exports.specs.Mux.{begin_leaves, flush_numbers, mux_leaves, no_numbers, put_numbers};
ghost use Rattle.exports.specs.Packet.{formed_leaves, header_leaves, unit_leaves, unwrap_leaves, wrap_leaves};
ghost use Rattle.exports.specs.Relaying.{load_leaves, route_leaves};
ghost use Rattle.exports.specs.Spaces.{read_space_leaves, write_space_leaves};
ghost use Rattle.multiplexer.specs.Calls.{to_flush, to_idle, to_put};
ghost use Rattle.std.specs.Prelude.{◌≡◌, []};

#[unsafe(no_mangle)]
pub extern "C" fn itz_read_header(limit: u64, front: &[u8], answer: &mut [u64]) -> u64
    ensures { left result [] [] answer.new ≡ header_leaves limit front.now answer.old }
{
    exports::itz_read_header(limit, front, answer)
}

#[unsafe(no_mangle)]
pub extern "C" fn itz_well_formed(limit: u64, packet: &[u8], answer: &mut [u64]) -> u64
    ensures { left result [] [] answer.new ≡ formed_leaves limit packet.now answer.old }
{
    exports::itz_well_formed(limit, packet, answer)
}

#[unsafe(no_mangle)]
pub extern "C" fn itz_wrap(
    limit: u64,
    protocol: u64,
    extension: u64,
    data: &[u8],
    packet: &mut [u8],
    answer: &mut [u64],
) -> u64
    ensures { left result [] packet.new answer.new ≡ wrap_leaves limit protocol extension «data».now packet.old answer.old }
{
    exports::itz_wrap(limit, protocol, extension, data, packet, answer)
}

#[unsafe(no_mangle)]
pub extern "C" fn itz_unwrap(limit: u64, packet: &[u8], answer: &mut [u64]) -> u64
    ensures { left result [] [] answer.new ≡ unwrap_leaves limit packet.now answer.old }
{
    exports::itz_unwrap(limit, packet, answer)
}

#[unsafe(no_mangle)]
pub extern "C" fn itz_unit_part(unwrapped: &[u64], packet: &[u8], answer: &mut [u64]) -> u64
    ensures { left result [] [] answer.new ≡ unit_leaves unwrapped.now packet.now answer.old }
{
    exports::itz_unit_part(unwrapped, packet, answer)
}

#[unsafe(no_mangle)]
pub extern "C" fn itz_read_space(packet: &[u8], answer: &mut [u64]) -> u64
    ensures { left result [] [] answer.new ≡ read_space_leaves packet.now answer.old }
{
    exports::itz_read_space(packet, answer)
}

#[unsafe(no_mangle)]
pub extern "C" fn itz_write_space(header: &[u64], packet: &mut [u8]) -> u64
    ensures { left result [] packet.new [] ≡ write_space_leaves header.now packet.old }
{
    exports::itz_write_space(header, packet)
}

#[unsafe(no_mangle)]
pub extern "C" fn itz_mux_begin(record: &mut [u64]) -> u64
    ensures { left result «record».new [] [] ≡ begin_leaves «record».old }
{
    exports::itz_mux_begin(record)
}

#[unsafe(no_mangle)]
pub extern "C" fn itz_mux_put(
    settings: &[u64],
    record: &mut [u64],
    packet: &[u8],
    frame: &mut [u8],
    answer: &mut [u64],
) -> u64
    ensures { left result «record».new frame.new answer.new ≡ mux_leaves (to_put packet.now) 3 put_numbers settings.now «record».old frame.old answer.old }
{
    exports::itz_mux_put(settings, record, packet, frame, answer)
}

#[unsafe(no_mangle)]
pub extern "C" fn itz_mux_flush(
    settings: &[u64],
    record: &mut [u64],
    frame: &mut [u8],
    answer: &mut [u64],
) -> u64
    ensures { left result «record».new frame.new answer.new ≡ mux_leaves to_flush 1 flush_numbers settings.now «record».old frame.old answer.old }
{
    exports::itz_mux_flush(settings, record, frame, answer)
}

#[unsafe(no_mangle)]
pub extern "C" fn itz_mux_idle(settings: &[u64], record: &mut [u64], frame: &mut [u8]) -> u64
    ensures { left result «record».new frame.new [] ≡ mux_leaves to_idle 0 no_numbers settings.now «record».old frame.old [] }
{
    exports::itz_mux_idle(settings, record, frame)
}

#[unsafe(no_mangle)]
pub extern "C" fn itz_extractor_enter(
    settings: &[u64],
    record: &mut [u64],
    store: &[u8],
    frame: &[u8],
    answer: &mut [u64],
) -> u64
    ensures { left result «record».new [] answer.new ≡ enter_leaves settings.now «record».old store.now frame.now answer.old }
{
    exports::itz_extractor_enter(settings, record, store, frame, answer)
}

#[unsafe(no_mangle)]
pub extern "C" fn itz_extractor_step(
    settings: &[u64],
    record: &mut [u64],
    store: &mut [u8],
    frame: &[u8],
    answer: &mut [u64],
) -> u64
    ensures { left result «record».new store.new answer.new ≡ step_leaves settings.now «record».old store.old frame.now answer.old }
{
    exports::itz_extractor_step(settings, record, store, frame, answer)
}

#[unsafe(no_mangle)]
pub extern "C" fn itz_show(step: &[u64], frame: &[u8], store: &[u8], answer: &mut [u64]) -> u64
    ensures { left result [] [] answer.new ≡ show_leaves step.now frame.now store.now answer.old }
{
    exports::itz_show(step, frame, store, answer)
}

#[unsafe(no_mangle)]
pub extern "C" fn itz_judge_frame(
    settings: &[u64],
    record: &mut [u64],
    store: &mut [u8],
    frame: &[u8],
) -> u64
    ensures { left result «record».new store.new [] ≡ judge_leaves settings.now «record».old store.old frame.now }
{
    exports::itz_judge_frame(settings, record, store, frame)
}

#[unsafe(no_mangle)]
pub extern "C" fn itz_judge_tape(
    settings: &[u64],
    record: &mut [u64],
    store: &mut [u8],
    tape: &[u8],
) -> u64
    ensures { left result «record».new store.new [] ≡ tape_leaves settings.now «record».old store.old tape.now }
{
    exports::itz_judge_tape(settings, record, store, tape)
}

#[unsafe(no_mangle)]
pub extern "C" fn itz_judge_close(
    settings: &[u64],
    record: &[u64],
    store: &[u8],
    answer: &mut [u64],
) -> u64
    ensures { left result [] [] answer.new ≡ close_leaves settings.now «record».now store.now answer.old }
{
    exports::itz_judge_close(settings, record, store, answer)
}

#[unsafe(no_mangle)]
pub extern "C" fn itz_bits_write(
    settings: &[u64],
    record: &mut [u64],
    bits: &[u8],
    n: u64,
    frame: &mut [u8],
) -> u64
    ensures { left result «record».new frame.new [] ≡ write_leaves settings.now «record».old bits.now n frame.old }
{
    exports::itz_bits_write(settings, record, bits, n, frame)
}

#[unsafe(no_mangle)]
pub extern "C" fn itz_bits_read(
    settings: &[u64],
    record: &mut [u64],
    frame: &[u8],
    answer: &mut [u64],
) -> u64
    ensures { left result «record».new [] answer.new ≡ read_leaves settings.now «record».old frame.now answer.old }
{
    exports::itz_bits_read(settings, record, frame, answer)
}

#[unsafe(no_mangle)]
pub extern "C" fn itz_relay_load(entries: &[u64], table: &mut [u64]) -> u64
    ensures { left result table.new [] [] ≡ load_leaves entries.now table.old }
{
    exports::itz_relay_load(entries, table)
}

#[unsafe(no_mangle)]
pub extern "C" fn itz_relay_route(
    limit: u64,
    table: &[u64],
    packet: &[u8],
    destinations: &mut [u8],
    answer: &mut [u64],
) -> u64
    ensures { left result [] destinations.new answer.new ≡ route_leaves limit table.now packet.now destinations.old answer.old }
{
    exports::itz_relay_route(limit, table, packet, destinations, answer)
}
