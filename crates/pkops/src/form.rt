//! How an instruction holds its argument.

use crate::arg::Arg;

/// How an instruction holds its argument: decoded, or in the bytes that spell the instruction. A
/// reader lends the bytes, and the argument is decoded only when it is asked for.
#[derive(Clone, Copy, Debug)]
pub enum Form<'a> {
    /// The decoded argument.
    Made(Arg<'a>),
    /// The bytes of the whole instruction, after the length of the first of two lines.
    Spelled(usize, &'a [u8]),
}
