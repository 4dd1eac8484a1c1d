//! The opcodes of Python pickles, one instruction from and to bytes, and why a pickle is refused.
#![tactic(auto)]

mod arg;
mod codes;
mod contents;
mod fault;
mod form;
mod found;
mod inst;
pub mod laws;
mod layout;
mod lending;
pub mod lengths;
mod limits;
mod old_bytes;
mod op;
mod passed;
mod reading;
mod refusal;
mod scanning;
mod table;
mod text;
mod writing;

pub use arg::Arg;
pub use codes::op_of_byte;
pub use contents::Rule;
pub use contents::escapes::spells_itself;
pub use contents::name::is_ascii;
pub use contents::utf8::is_utf8;
pub use fault::Fault;
pub use found::Scan;
pub use inst::Inst;
pub use layout::{Layout, Width, is_count};
pub use lending::{argument_of, count_behind};
pub use limits::Limits;
pub use old_bytes::old_bytes_of;
pub use op::{Kind, Op, Row};
pub use refusal::{Reason, Refusal};
pub use scanning::scan;
pub use table::{layout_of_op, row};
pub use text::text_of;
pub use writing::{assemble, write_inst};
