// The library for C and Rust, on numbers and octet slices: `include/itzahuemo.h` says what each number stands for, and `exports_c` hands these
// functions to C. Neither these numbers nor the library's types are of this crate, so that it has functions between them and no `From`.
#![tactic(auto)]

mod bits;
mod channel;
mod extract;
mod judging;
mod lent;
mod mux;
mod packet;
mod relaying;
mod spaces;

pub use bits::{itz_bits_read, itz_bits_write};
pub use extract::{itz_extractor_enter, itz_extractor_step, itz_show};
pub use judging::{itz_judge_close, itz_judge_frame, itz_judge_tape};
pub use mux::{itz_mux_begin, itz_mux_flush, itz_mux_idle, itz_mux_put};
pub use packet::{itz_read_header, itz_unit_part, itz_unwrap, itz_well_formed, itz_wrap};
pub use relaying::{itz_relay_load, itz_relay_route};
pub use spaces::{itz_read_space, itz_write_space};
