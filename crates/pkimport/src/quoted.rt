//! Bytes between double quotes.
ghost use Rattle.std.specs.Prelude.{◌≡◌};
ghost use Rattle.pkimport.specs.Quoted.{stands_as_is};

use std::fmt;
use std::fmt::Display;

/// Bytes that are printed between double quotes, on one line and in ASCII.
///
/// ```rust
/// use pkimport::Quoted;
///
/// let text = format!(in alloc; "{}", Quoted(b"two\nlines"))?;
/// assert_eq!(rt; text.as_str(), "\"two\\x0alines\"");
/// ```
#[derive(Clone, Copy, Debug)]
pub struct Quoted<'a>(pub &'a [u8]);

impl Display for Quoted<'_> {
    ghost use Rattle.std.specs.Prelude.{Some};
    ghost use Rattle.pkimport.specs.Quoted.{quoted};

    ghost output = { λ text. Some (quoted text.0.now) };

    fn fmt<W: fmt::Write>(&self, f: &mut fmt::Formatter<W>) -> fmt::Result {
        f.write_str("\"")?;
        for byte in self.0 {
            QuotedByte(*byte).fmt(f)?;
        }
        f.write_str("\"")
    }
}

/// A byte between double quotes.
#[derive(Clone, Copy)]
struct QuotedByte(u8);

impl Display for QuotedByte {
    ghost use Rattle.std.specs.Prelude.{Some};
    ghost use Rattle.pkimport.specs.Quoted.{quoted_byte};

    ghost output = { λ byte. Some (quoted_byte byte.0) };

    fn fmt<W: fmt::Write>(&self, f: &mut fmt::Formatter<W>) -> fmt::Result {
        let QuotedByte(byte) = *self;
        if stands_as_is(byte) {
            f.write_char(char::from(byte))
        } else {
            write!(f, "\\x{byte:02x}")
        }
    }
}

fn stands_as_is(byte: u8) -> bool
    ensures { result ≡ stands_as_is byte }
{
    (b' '..=b'~').contains(&byte) && byte != b'"' && byte != b'\\'
}
