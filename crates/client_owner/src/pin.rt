//! Reads the PIN of a job, as its owner types it.
ghost use Rattle.std.specs.Prelude.{◌≡◌, IfOk, IfSome, option_map};
ghost use Rattle.client_owner.specs.Pins.{pin_in, pin_said};

use account_rules::LONGEST_PASSWORD;
use std::alloc::Global;
use std::io;
use std::io::{BufRead, Read};

/// Reads the first line of the input, which is the PIN. `None` where it is empty, or longer than a
/// password may be.
pub fn read_pin<R: BufRead + Drop>(alloc: Global, input: R) -> io::Result<Option<Vec<u8>>>
    ensures { IfOk result (λ pin. IfSome (R.remaining input)
        (λ text. option_map (λ word. word.items) pin ≡ pin_said text)) }
{
    let mut line = Vec::new(alloc);
    input
        .take(LONGEST_PASSWORD as u64 + 1)
        .read_until(b'\n', &mut line)?;
    match pin_in(line.as_slice()) {
        Some(pin) => Ok(Some(Vec::from_slice(alloc, pin)?)),
        None => Ok(None),
    }
}

/// Gives the PIN of a line, without the line feed that ends it. `None` where it is empty or too
/// long.
fn pin_in(line: &[u8]) -> Option<&[u8]>
    ensures { option_map (λ pin. pin.now) result ≡ pin_in line.now }
{
    let pin = match line {
        [pin @ .., b'\n'] => pin,
        _ => line,
    };
    if pin.is_empty() || pin.len() > LONGEST_PASSWORD {
        return None;
    }
    Some(pin)
}
