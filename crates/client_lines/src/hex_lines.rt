//! The keeper that prints documents as hexadecimal digits, and keeps none.
ghost use Rattle.hex.specs.Hex.{encode_lower};
ghost use Rattle.std.specs.Prelude.{◌++◌, Some, codes};

use crate::keeper::Keeper;
use input_fields::print_hex;
use std::io;
use std::io::Write;

/// Prints the bytes of each document as a line of hexadecimal digits.
#[derive(Clone, Copy, Default)]
pub struct HexLines;

impl Keeper for HexLines {
    ghost shown = { λ _ _ bytes. Some (encode_lower bytes ++ codes "\n") };

    fn keep<O: Write>(&mut self, output: &mut O, _name: &str, bytes: Vec<u8>) -> io::Result<()> {
        print_hex(output, bytes.as_slice())?;
        output.write_all(b"\n")
    }
}
