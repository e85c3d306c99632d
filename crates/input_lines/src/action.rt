//! `Action`: what a line asks to be done, and the event that it is.
use crate::owner_request::OwnerRequest;
use account_machine::{Event, Name};

/// One thing that a line asks to be done.
#[derive(Drop)]
pub enum Action {
    /// Opens an account.
    Open {
        account: Name,
    },
    /// Makes a device known, and switches it on or off.
    Device {
        name: Name,
        on: bool,
    },
    /// Sets how many units, 1 to 100, a device counts for an impression.
    Rate {
        name: Name,
        units: u32,
    },
    /// Grants pages, 0 to 1000000000, from a month on, 23640 (1970-01) to 25199 (2099-12).
    Grant {
        account: Name,
        month: u32,
        pages: u32,
    },
    /// Hands in an IPP message.
    Ipp {
        account: Name,
        body: Vec<u8>,
    },
    /// Releases a job at a device. No password is the empty one; impressions are above 0.
    Release {
        device: Name,
        account: Name,
        job: u32,
        password: Vec<u8>,
        impressions: Option<u32>,
    },
    /// Starts a released job at a device.
    Start {
        device: Name,
        account: Name,
        job: u32,
    },
    /// Ends a job that prints at a device, after so many impressions.
    Settle {
        device: Name,
        account: Name,
        job: u32,
        impressions: u32,
        failed: bool,
    },
    /// Cancels or holds a job, 1 to 999999, as the owner of its account could.
    Owner(OwnerRequest),
}

impl Action {
    ghost use Rattle.std.specs.Prelude.{◌≡◌, IsTrue};
    ghost use Rattle.account_machine.specs.Events.{plain_event};
    ghost use Rattle.account_machine.specs.Fits.{fits};
    ghost use Rattle.input_lines.specs.Actions.{event_of_action, is_in_range};

    /// The event that the action is. Impressions that a release leaves out are 0, which leaves the
    /// job's own.
    pub fn event(&self) -> Event<'_>
        requires { IsTrue (is_in_range self.now) }
        ensures fit { IsTrue (fits (plain_event result)) }
        ensures same { plain_event result ≡ event_of_action self.now }
    {
        match self {
            Action::Open { account } => Event::Open { account: *account },
            Action::Device { name, on } => Event::Device {
                name: *name,
                on: *on,
            },
            Action::Rate { name, units } => Event::Rate {
                name: *name,
                units: *units,
            },
            Action::Grant {
                account,
                month,
                pages,
            } => Event::Grant {
                account: *account,
                month: *month,
                pages: *pages,
            },
            Action::Ipp { account, body } => Event::Ipp {
                account: *account,
                body: body.as_slice(),
            },
            Action::Release {
                device,
                account,
                job,
                password,
                impressions,
            } => Event::Release {
                device: *device,
                account: *account,
                job: *job,
                password: password.as_slice(),
                impressions: impressions.unwrap_or(0),
            },
            Action::Start {
                device,
                account,
                job,
            } => Event::Start {
                device: *device,
                account: *account,
                job: *job,
            },
            Action::Settle {
                device,
                account,
                job,
                impressions,
                failed,
            } => Event::Settle {
                device: *device,
                account: *account,
                job: *job,
                impressions: *impressions,
                failed: *failed,
            },
            Action::Owner(request) => Event::Ipp {
                account: request.account,
                body: request.body.as_slice(),
            },
        }
    }
}
