//! Names in ASCII: the lines of GLOBAL, INST and PERSID.

ghost use Rattle.std.specs.Prelude.{◌≡◌, ◌+◌, ◌≤◌, length};
ghost use Rattle.std.specs.List.{list_all};
ghost use Rattle.std.specs.Char.{is_ascii};
ghost use Rattle.pkops.specs.RuleTests.{is_name};

/// Whether the line may be a module or a name: ASCII and not empty.
pub fn is_name(line: &[u8]) -> bool
    ensures { result ≡ is_name line.now }
{
    !line.is_empty() && is_ascii(line)
}

/// How many bytes of a long text are tested at a time.
const BLOCK: usize = 32;

/// The length up to which a text is tested without a loop.
pub const SHORT: usize = 64;

/// Whether each byte is ASCII.
#[inline(always)]
pub fn is_ascii(bytes: &[u8]) -> bool
    ensures { result ≡ list_all is_ascii bytes.now }
{
    if bytes.len() <= SHORT {
        return is_short_ascii(bytes);
    }
    is_long_ascii(bytes)
}

/// `is_ascii` of a text that may be long. Cold, so that no register is saved for this call where a
/// text is short.
#[cold]
#[inline(never)]
fn is_long_ascii(bytes: &[u8]) -> bool
    ensures { result ≡ list_all is_ascii bytes.now }
{
    let mut rest = bytes;
    'blocks: while rest.len() > SHORT {
        if !are_ascii(&rest[..BLOCK]) {
            return false;
        }
        rest = &rest[BLOCK..];
    }
    is_short_ascii(rest)
}

/// Whether each of these bytes is ASCII, which at most `SHORT` are. The compiler tests as many at a
/// time as it knows that there are, so a text is tested as two pieces of a known length, which may
/// overlap.
#[inline(always)]
pub fn is_short_ascii(bytes: &[u8]) -> bool
    requires { length bytes.now ≤ 64 }
    ensures { result ≡ list_all is_ascii bytes.now }
{
    if bytes.len() >= 32 {
        return are_ends_ascii(bytes, 32);
    }
    if bytes.len() >= 16 {
        return are_ends_ascii(bytes, 16);
    }
    if bytes.len() >= 8 {
        return are_ends_ascii(bytes, 8);
    }
    if bytes.len() >= 4 {
        return are_ends_ascii(bytes, 4);
    }
    bytes.iter().all(|byte| byte.is_ascii())
}

/// Whether each byte is ASCII, where the first `size` and the last `size` are all.
fn are_ends_ascii(bytes: &[u8], size: usize) -> bool
    requires within { size ≤ length bytes.now }
    requires all { length bytes.now ≤ size + size }
    ensures { result ≡ list_all is_ascii bytes.now }
{
    are_ascii(&bytes[..size]) & are_ascii(&bytes[bytes.len() - size..])
}

/// Whether each byte is ASCII. It looks at every byte, whatever the first ones are, which lets the
/// compiler test them at once.
fn are_ascii(bytes: &[u8]) -> bool
    ensures { result ≡ list_all is_ascii bytes.now }
{
    bytes.iter().fold(true, |good, byte| good & byte.is_ascii())
}
