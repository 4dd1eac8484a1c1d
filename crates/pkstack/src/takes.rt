//! What an operation takes from the stack, as in the specification.

/// What a slice, the items above the topmost mark, must contain.
#[derive(Clone, Copy)]
pub enum SliceRule {
    /// Any items, or none.
    AnySlice,
    /// An even number of items: keys and values.
    EvenSlice,
    /// At least one item.
    FullSlice,
}

/// What an operation takes from the stack.
#[derive(Clone, Copy)]
pub enum Takes {
    /// So many items from the top, none of which may be a mark.
    Objects(u8),
    /// The slice, with its mark.
    Slice(SliceRule),
    /// The slice with its mark, and the item below the mark, which comes first.
    SliceAndReceiver(SliceRule),
}
