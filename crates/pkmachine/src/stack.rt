//! What is kept of the objects on the stack and in the memo.

use crate::held::{Held, HeldCell};

/// What is kept of the objects on the stack.
pub type Stack<I> = pkstack::Stack<Held<I>, HeldCell<I>>;

/// What is kept of the operands of an operation.
pub type Operands<'a, I> = pkstack::Operands<'a, Held<I>, HeldCell<I>>;

/// What is kept of the stored objects, by number.
pub type MemoTable<I> = pkstack::MemoTable<Held<I>>;
