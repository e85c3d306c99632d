//! Reads a job of a line of the answer to `jobs`.

ghost use Rattle.std.specs.Prelude.{◌≡◌, ◌++◌, IfOk, codes};
ghost use Rattle.client_lines.specs.Words.{IsNumber};
ghost use Rattle.client_operator.specs.Jobs.{Tells, waits};

use crate::words::Words;
use client_lines::ClientFault;
use input_fields::decimal;

/// What a line of the answer to `jobs` tells of a job, each word as it was told.
#[derive(Clone, Copy)]
pub(crate) struct TellsJob<'a> {
    pub(crate) job: &'a [u8],
    pub(crate) state: &'a [u8],
    pub(crate) device: &'a [u8],
    /// The moment at which it was made, in seconds since 1970-01-01T00:00:00Z.
    pub(crate) made: &'a [u8],
    pub(crate) password: &'a [u8],
    pub(crate) copies: &'a [u8],
    pub(crate) impressions: &'a [u8],
    pub(crate) documents: &'a [u8],
    pub(crate) name: &'a [u8],
}

impl<'a> TellsJob<'a> {
    /// Reads a line `job JOB STATE DEVICE CREATED STARTED ENDED PASSWORD COPIES IMPRESSIONS
    /// RESERVED CHARGED DOCUMENTS NAME`. `Broken` where it is any other.
    pub(crate) fn read(line: &'a [u8]) -> Result<TellsJob<'a>, ClientFault>
        ensures { IfOk result (Tells line.now) }
    {
        let mut words = Words::of(line);
        words.skip(b"job")?;
        let job = words.take()?;
        let state = words.take()?;
        let device = words.take()?;
        let made = words.take()?;
        let (_started, _ended) = take_two(&mut words)?;
        let password = words.take()?;
        let (copies, impressions) = take_two(&mut words)?;
        let (_reserved, _charged) = take_two(&mut words)?;
        let documents = words.take()?;
        Ok(TellsJob {
            job,
            state,
            device,
            made,
            password,
            copies,
            impressions,
            documents,
            name: words.last(),
        })
    }

    /// Whether it waits to be printed: it is held or pending.
    pub(crate) fn waits(&self) -> bool
        ensures { result ≡ waits self.now.state.now }
    {
        self.state == b"held".as_slice() || self.state == b"pending".as_slice()
    }

    /// Gives the moment at which it was made, in seconds since 1970-01-01T00:00:00Z. `Broken` where
    /// that was told as no number.
    pub(crate) fn moment(&self) -> Result<u64, ClientFault>
        ensures { IfOk result (IsNumber self.now.made.now) }
    {
        decimal(self.made).ok_or(ClientFault::Broken)
    }
}

/// Takes the next two words.
fn take_two<'a>(words: &mut Words<'a>) -> Result<(&'a [u8], &'a [u8]), ClientFault>
    ensures { IfOk result (λ both. words.old.rest.now
        ≡ both.0.now ++ codes " " ++ (both.1.now ++ codes " " ++ words.new.rest.now)) }
{
    let first = words.take()?;
    Ok((first, words.take()?))
}
