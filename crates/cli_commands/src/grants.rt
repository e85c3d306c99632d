//! The events that the records of a file of grants ask for.
ghost use Rattle.std.specs.Prelude.{◌≡◌, All, IfOk, IsTrue};
ghost use Rattle.std.specs.List.{filter_map};
ghost use Rattle.account_machine.specs.Events.{plain_event};
ghost use Rattle.account_machine.specs.Fits.{fits};
ghost use Rattle.input_fields.specs.GrantLines.{IsInRange};
ghost use Rattle.cli_commands.specs.Grants.{grant_event};

use account_machine::Event;
use input_fields::GrantLine;
use std::alloc::{AllocError, Global};

/// An event for each good record, in order, each with the moment. A bad record gives none.
pub fn grant_events(
    alloc: Global,
    moment: u64,
    lines: &[GrantLine],
) -> Result<Vec<(u64, Event<'static>)>, AllocError>
    requires { All IsInRange lines.now }
    ensures fit { IfOk result (λ events. All (λ e. IsTrue (fits (plain_event e.1))) events.items) }
    ensures grants { IfOk result (λ events.
        events.items ≡ filter_map (grant_event moment) lines.now) }
{
    lines
        .iter()
        .filter_map(|line| grant_at(moment, line))
        .collect(alloc)
}

/// The event of a good record, at the moment. A bad record gives none.
fn grant_at(moment: u64, line: &GrantLine) -> Option<(u64, Event<'static>)>
    ensures { result ≡ grant_event moment line.now }
{
    match *line {
        GrantLine::Good {
            account,
            month,
            pages,
        } => Some((
            moment,
            Event::Grant {
                account,
                month,
                pages,
            },
        )),
        GrantLine::Bad(_) => None,
    }
}
