//! Hexadecimal digits.

ghost use Rattle.std.specs.Prelude.{◌≡◌, ◌<◌, Some, None, if◌then◌else◌, IfSome};
ghost use Rattle.std.specs.Char.{is_ascii_hexdigit, digit_value};

/// The value of a hexadecimal digit in either case; `None` for any other byte.
pub fn hex_value(byte: u8) -> Option<u8>
    ensures value { result ≡ (if is_ascii_hexdigit byte then Some (digit_value byte) else None) }
    ensures small { IfSome result (λ digit. digit < 16) }
{
    match byte {
        b'0'..=b'9' => Some(byte - b'0'),
        b'a'..=b'f' => Some(byte - b'a' + 10),
        b'A'..=b'F' => Some(byte - b'A' + 10),
        _ => None,
    }
}
