//! The integers that arguments name, if they fit 64 signed bits.

ghost use Rattle.std.specs.Prelude.{◌≡◌, ◌<◌, ◌^◌, ◌-◌, pos, negsuc, neg_ℤ};
ghost use Rattle.std.specs.Prelude.{Some, None};
ghost use Rattle.pkops.specs.Spelling.{shown_arg};
ghost use Rattle.pkjson.specs.Private.Capped.{IsCapped};
ghost use Rattle.pkjson.specs.Integers.{decimal_after, line_integer, has_sign, natural};
ghost use Rattle.pkjson.specs.Integers.{twos_complement, integer_named, word_of};

use pkops::Arg;

/// The integer that an argument names; `None` if it does not fit.
pub fn integer(arg: Arg<'_>) -> Option<i64>
    ensures { result ≡ word_of (integer_named (shown_arg arg.entry)) }
{
    match arg {
        Arg::I4(number) => Some(i64::from(number)),
        Arg::U1(number) => Some(i64::from(number)),
        Arg::U2(number) => Some(i64::from(number)),
        Arg::U4(number) => Some(i64::from(number)),
        Arg::U8(number) => positive(number),
        Arg::Line(line) => of_line(line),
        Arg::Counted(bytes) => of_bytes(bytes),
        _ => Some(0),
    }
}

/// The number itself.
fn positive(number: u64) -> Option<i64>
    ensures { result ≡ word_of (pos number) }
{
    if number < 1 << 63 {
        Some(number as i64)
    } else {
        None
    }
}

/// The bitwise complement of the number: -1 minus the number.
fn complement(number: u64) -> Option<i64>
    ensures { result ≡ word_of (negsuc number) }
{
    if number < 1 << 63 {
        Some(-(number as i64) - 1)
    } else {
        None
    }
}

/// The negative of the number.
fn negative(number: u64) -> Option<i64>
    ensures { result ≡ word_of (neg_ℤ (pos number)) }
{
    if number == 0 {
        return Some(0);
    }
    complement(number - 1)
}

/// The integer in a line of digits.
fn of_line(line: &[u8]) -> Option<i64>
    ensures { result ≡ word_of (line_integer line.now) }
{
    let [first, digits @ ..] = line else {
        return Some(0);
    };
    if *first == b'-' {
        negative(decimal(digits))
    } else {
        positive(decimal(line))
    }
}

/// The number in the digits, up to an L. Exact up to 2^63; a greater number gives some value above
/// 2^63.
fn decimal(digits: &[u8]) -> u64
    ensures { IsCapped (2 ^ 63) (decimal_after 0 digits.now) result }
{
    let mut value: u64 = 0;
    for digit in digits {
        if *digit == b'L' {
            return value;
        }
        if value > 922_337_203_685_477_580 {
            return u64::MAX;
        }
        value = value * 10 + u64::from(digit.saturating_sub(b'0'));
    }
    value
}

/// The integer in little-endian two's complement bytes.
fn of_bytes(bytes: &[u8]) -> Option<i64>
    ensures { result ≡ word_of (twos_complement bytes.now) }
{
    if has_sign(bytes) {
        complement(natural(bytes, true))
    } else {
        positive(natural(bytes, false))
    }
}

/// Whether the sign bit is set.
fn has_sign(bytes: &[u8]) -> bool
    ensures { result ≡ has_sign bytes.now }
{
    match bytes {
        [.., top] => *top >= 128,
        [] => false,
    }
}

/// The natural number of the bytes, or of their complements if `flip` is set. Exact below 2^63; a
/// greater number gives some value of at least 2^63.
fn natural(bytes: &[u8], flip: bool) -> u64
    ensures { IsCapped (2 ^ 63 - 1) (natural flip bytes.now) result }
{
    let mut value: u64 = 0;
    let mut place = bytes.len();
    while place > 0 {
        if value >= 1 << 55 {
            return u64::MAX;
        }
        place -= 1;
        let byte = bytes[place];
        let digit = if flip { 255 - byte } else { byte };
        value = value * 256 + u64::from(digit);
    }
    value
}
