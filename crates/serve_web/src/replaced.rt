//! Replaces a byte of a text by another: `+` stands for a space in a query.
ghost use Rattle.std.specs.Prelude.{◌≡◌, ◌==◌, ◌++◌, OnOk, map};
ghost use Rattle.serve_web.specs.Parts.{replaced};

use std::alloc::AllocError;

/// Appends a text, with the byte `to` wherever it has the byte `from`.
pub(crate) fn put_replaced(
    output: &mut Vec<u8>,
    text: &[u8],
    from: u8,
    to: u8,
) -> Result<(), AllocError>
    ensures { OnOk result (output.new.items ≡ output.old.items ++ map (replaced from to) text.now) }
{
    for byte in text {
        output.push(replaced(from, to, *byte))?;
    }
    Ok(())
}

/// Gives `to` in the place of `from`, and any other byte as it is.
fn replaced(from: u8, to: u8, byte: u8) -> u8
    ensures { result ≡ replaced from to byte }
{
    if byte == from { to } else { byte }
}
