//! Bytes in lower-case hexadecimal.
ghost use Rattle.std.specs.Prelude.{◌≤◌, OnOk, length};
ghost use Rattle.std.specs.Io.KnownBytes.{Appends};
ghost use Rattle.hex.specs.Hex.{encode_lower};

use std::io;
use std::io::Write;

/// How many bytes are encoded at once, in an array of twice as many.
const CHUNK: usize = 32;

/// Writes the two digits of each byte.
pub fn write_hexadecimal<W: Write>(bytes: &[u8], out: &mut W) -> io::Result<()>
    ensures { OnOk result (Appends (W.contents out.old) (W.contents out.new)
        (encode_lower bytes.now)) }
{
    let mut rest = bytes;
    while !rest.is_empty() {
        let (chunk, more) = rest.split_at(rest.len().min(CHUNK));
        write_chunk(chunk, out)?;
        rest = more;
    }
    Ok(())
}

fn write_chunk<W: Write>(chunk: &[u8], out: &mut W) -> io::Result<()>
    requires { length chunk.now ≤ 32 }
    ensures { OnOk result (Appends (W.contents out.old) (W.contents out.new)
        (encode_lower chunk.now)) }
{
    let mut room = [0u8; 2 * CHUNK];
    let text = &mut room[..2 * chunk.len()];
    hex::encode_to_slice(chunk, text).unwrap();
    out.write_all(text)
}
