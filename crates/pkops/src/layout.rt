//! The layout of an argument, which follows from its kind. It says where the argument ends, not
//! what it may contain.

ghost use Rattle.std.specs.Prelude.{◌≡◌, nat_lt};
ghost use Rattle.pkops.specs.Spelling.{count_limit, layout_of, size_of};

use crate::op::Kind;

/// The layout of an argument. The 25 kinds have ten layouts.
#[derive(Clone, Copy, Debug, PartialEq, Eq)]
pub enum Layout {
    /// No bytes.
    Nothing,
    /// One byte.
    U1,
    /// Two bytes, little-endian.
    U2,
    /// Four bytes, little-endian, in two's complement.
    I4,
    /// Four bytes, little-endian.
    U4,
    /// Eight bytes, little-endian.
    U8,
    /// Eight bytes, big-endian.
    F8,
    /// A line of at most this many bytes, followed by a line feed.
    Line(usize),
    /// Two such lines.
    Pair(usize),
    /// A little-endian count of this width, then a payload of that many bytes. If the flag is true,
    /// the count is in two's complement and may not be negative.
    Counted(Width, bool),
}

/// The width of a count field.
#[derive(Clone, Copy, Debug, PartialEq, Eq)]
pub enum Width {
    /// One byte.
    One,
    /// Four bytes.
    Four,
    /// Eight bytes.
    Eight,
}

impl Kind {
    /// The layout of an argument of this kind.
    pub fn layout(self) -> Layout
        ensures { result ≡ layout_of self }
    {
        match self {
            Kind::None => Layout::Nothing,
            Kind::Uint1 => Layout::U1,
            Kind::Uint2 => Layout::U2,
            Kind::Int4 => Layout::I4,
            Kind::Uint4 => Layout::U4,
            Kind::Uint8 => Layout::U8,
            Kind::Float8 => Layout::F8,
            Kind::DecimalnlShort | Kind::DecimalnlLong => Layout::Line(1024),
            Kind::Floatnl | Kind::Stringnl | Kind::StringnlNoescape | Kind::Unicodestringnl => {
                Layout::Line(65536)
            }
            Kind::StringnlNoescapePair => Layout::Pair(65536),
            Kind::String1 | Kind::Bytes1 | Kind::Long1 | Kind::Unicodestring1 => {
                Layout::Counted(Width::One, false)
            }
            Kind::Bytes4 | Kind::Unicodestring4 => Layout::Counted(Width::Four, false),
            Kind::String4 | Kind::Long4 => Layout::Counted(Width::Four, true),
            Kind::Bytes8 | Kind::Bytearray8 | Kind::Unicodestring8 => {
                Layout::Counted(Width::Eight, false)
            }
        }
    }
}

impl Width {
    /// The width of the count field in bytes.
    pub fn size(self) -> usize
        ensures { result ≡ size_of self }
    {
        match self {
            Width::One => 1,
            Width::Four => 4,
            Width::Eight => 8,
        }
    }
}

/// Whether a count field of this width can hold the number.
pub fn is_count(width: Width, signed: bool, count: u64) -> bool
    ensures { result ≡ nat_lt count (count_limit width signed) }
{
    match (width, signed) {
        (Width::One, false) => count < 0x100,
        (Width::One, true) => count < 0x80,
        (Width::Four, false) => count < 0x1_0000_0000,
        (Width::Four, true) => count < 0x8000_0000,
        (Width::Eight, false) => true,
        (Width::Eight, true) => count < 0x8000_0000_0000_0000,
    }
}
