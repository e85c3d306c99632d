//! What a good request asks, and why one is refused.

ghost use Rattle.std.specs.Prelude.{◌≡◌};
ghost use Rattle.account_asks.specs.declared.ask.AskFault.TheVariants.{Memory};

use crate::operation::Operation;
use account_rules::{Format, Refusal};
use ipp_coding::{Attribute, Header, List};
use std::alloc::{AllocError, AllocFailed};

/// A request whose every field is known to be good. It borrows from the body that it was read from,
/// but for the name `untitled` of a job that was given none. A field that the operation does not
/// read has the value that stands for its absence.
#[derive(Drop)]
pub struct Ask<'a> {
    pub header: Header,
    pub operation: Operation,
    /// What stands before the path of the target URI.
    pub base: &'a [u8],
    /// The number of the job that the target names, 1 to 999999, and 0 where it names no job or a
    /// number outside.
    pub job: u32,
    /// The job's name, at most 255 bytes.
    pub name: &'a [u8],
    /// The job's password, at most 32 bytes; empty where it has none.
    pub password: &'a [u8],
    /// 1 to 999.
    pub copies: u32,
    /// Of one copy; 0 where unknown.
    pub impressions: u32,
    /// Of the document.
    pub format: Format,
    /// Whether the document is the job's last.
    pub last: bool,
    pub which: Which,
    /// How many jobs are wanted at most, where the request says so: 1 or more.
    pub limit: Option<u32>,
    /// The names of the attributes and groups of attributes that are wanted.
    pub wanted: Option<List<&'a [u8]>>,
    /// The job template attributes that are not supported, as they are answered.
    pub unsupported: List<Attribute<'a>>,
    /// The message's data.
    pub payload: &'a [u8],
}

/// Which jobs Get-Jobs asks for (RFC 8011 section 4.2.6.1).
#[derive(Clone, Copy, PartialEq, Eq)]
pub enum Which {
    NotCompleted,
    Completed,
}

/// Why a body asks nothing of the account.
#[derive(Drop)]
pub enum AskFault<'a> {
    /// The first check that failed. From check 17 on the job template attributes that are not
    /// supported go with it.
    Refused {
        refusal: Refusal,
        unsupported: List<Attribute<'a>>,
    },
    Memory,
}

impl<'a> From<AllocError> for AskFault<'a> {
    ghost from_gives = { λ _ e. e ≡ Memory };

    fn from(_error: AllocError) -> AskFault<'a> {
        AskFault::Memory
    }
}

impl<'a, T: Drop> From<AllocFailed<T>> for AskFault<'a> {
    ghost from_gives = { λ _ e. e ≡ Memory };

    fn from(_error: AllocFailed<T>) -> AskFault<'a> {
        AskFault::Memory
    }
}
