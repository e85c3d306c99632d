//! The progress bar of a task that goes through all accounts.
ghost use Rattle.std.specs.Prelude.{◌≡◌};

use std::io::Write;

/// A progress bar: shows the operator how many accounts are done, over what was shown before.
#[derive(Drop)]
pub struct Bar<E> {
    terminal: Option<E>,
}

impl<E: Write> Bar<E> {
    ghost use Rattle.client_operator.specs.Bars.{terminal_of};

    /// Makes a bar on a terminal, or with `None` one that shows nothing.
    pub fn new(terminal: Option<E>) -> Bar<E>
        ensures { terminal_of result ≡ terminal }
    {
        Bar { terminal }
    }

    /// Shows that so many of all are done. What can't be shown changes nothing.
    pub(crate) fn show(&mut self, done: usize, all: usize) {
        let Some(terminal) = &mut self.terminal else {
            return;
        };
        let _ = write!(terminal, "\r{done} of {all}");
        if done == all {
            let _ = terminal.write_all(b"\r\x1b[K");
        }
        let _ = terminal.flush();
    }
}
