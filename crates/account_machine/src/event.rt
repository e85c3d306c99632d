//! `Event`: what may happen to an account or a device. `Reply`: what is answered.

use account_replies::Part;
use account_rules::Name;
use ipp_coding::List;

/// What may happen to an account, or to a device.
#[derive(Clone, Copy)]
pub enum Event<'a> {
    /// The account is opened.
    Open {
        account: Name,
    },
    /// An IPP request came to the account's queue.
    Ipp {
        account: Name,
        body: &'a [u8],
    },
    /// A held job is released at the station of a device. The password is the one given there,
    /// empty where none was; the impressions stand in for the job's own where they are above 0.
    Release {
        device: Name,
        account: Name,
        job: u32,
        password: &'a [u8],
        impressions: u32,
    },
    /// The device takes a released job.
    Start {
        device: Name,
        account: Name,
        job: u32,
    },
    /// The device is done with a job, of which it completed so many impressions, all copies
    /// included.
    Settle {
        device: Name,
        account: Name,
        job: u32,
        impressions: u32,
        failed: bool,
    },
    /// The account is granted pages, in units of the quota, once, to be used in the month or later.
    /// The month is the year times 12, and 0 for January to 11 for December.
    Grant {
        account: Name,
        month: u32,
        pages: u32,
    },
    /// The device takes jobs from now on, or none.
    Device {
        name: Name,
        on: bool,
    },
    /// An impression on the device counts so many units of the quota from now on.
    Rate {
        name: Name,
        units: u32,
    },
}

/// What is answered to an event.
#[derive(Drop)]
pub enum Reply {
    /// An IPP response.
    Ipp(List<u8>),
    /// A line of text, without its end.
    Line(List<u8>),
    /// The documents of a job that a device starts, by rising number.
    Documents(List<Part>),
    /// The account of an IPP request is not open.
    NoAccount,
    /// The body of an IPP request has fewer than 8 bytes.
    Short,
}
