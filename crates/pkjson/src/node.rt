//! Objects in their final state.

/// What an object holds. Other objects are referred to by number.
#[derive(Clone, Copy)]
pub enum Node<'s, 'a> {
    Null,
    Bool(bool),
    Int(i64),
    Text(&'s str),
    /// The items of a list or a tuple.
    List(&'s [usize]),
    /// The members of a dict, in the byte order of their keys.
    Dict(&'s [(&'a str, usize)]),
}
