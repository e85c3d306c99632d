//! Printing bytes as hexadecimal digits, without taking memory.
ghost use Rattle.hex.specs.Hex.{encode_lower};
ghost use Rattle.std.specs.Io.KnownBytes.{Appends};
ghost use Rattle.std.specs.Prelude.{◌≤◌, ◌*◌, OnOk, length};

use std::io;
use std::io::Write;

/// How many bytes are turned into digits at once.
const CHUNK: usize = 512;

/// How many digits these are.
const DIGITS: usize = 2 * CHUNK;

/// Prints two digits of each byte, in lower case.
pub fn print_hex<O: Write>(output: &mut O, bytes: &[u8]) -> io::Result<()>
    ensures { OnOk result
        (Appends (O.contents output.old) (O.contents output.new) (encode_lower bytes.now)) }
{
    let mut rest = bytes;
    while !rest.is_empty() {
        let (chunk, more) = rest.split_at(rest.len().min(CHUNK));
        print_chunk(output, chunk)?;
        rest = more;
    }
    Ok(())
}

/// Prints the digits of at most `CHUNK` bytes.
fn print_chunk<O: Write>(output: &mut O, chunk: &[u8]) -> io::Result<()>
    requires { length chunk.now ≤ CHUNK }
    ensures { OnOk result
        (Appends (O.contents output.old) (O.contents output.new) (encode_lower chunk.now)) }
{
    let mut buffer = [0; DIGITS];
    let digits = &mut buffer[..2 * chunk.len()];
    hex::encode_to_slice(chunk, digits).unwrap();
    output.write_all(digits)
}
