//! The log of all events that came in, and of what each came to: one line an event, in a file.
ghost use Rattle.std.specs.Prelude.{◌≡◌, ◌++◌, [], false, IsTrue, IfOk};
ghost use Rattle.account_machine.specs.Events.{plain_event};
ghost use Rattle.serve_log.specs.Books.{Takes};
ghost use Rattle.serve_log.specs.LogLines.{line_text};

use crate::door::Door;
use crate::file::LogFile;
use crate::line::{put_beyond, put_line};
use crate::refusal::{LineRefusal, put_refused_line, put_refused_request};
use crate::waiting::Waiting;
use account_machine::{Answered, Event, Name};
use std::alloc::{AllocError, Global};
use std::fs::{File, Files};
use std::marker::Model;

/// The bytes for which a line has room at once.
const USUAL_LINE: usize = 128;

/// The log: a line for each event, appended to a file. Where the file can't be written its lines
/// wait, up to `MOST_WAITING` bytes of them, and those that find no room, or no memory, are left
/// out. Contracts see it as what waits, with what the file has taken.
pub struct EventLog {
    pub(crate) alloc: Global,
    pub(crate) waiting: Waiting,
    file: LogFile,
    /// Lines that tell of no event, as of a refusal. They wait for the end of the round that is
    /// under way, and go behind its lines.
    notices: Vec<u8>,
    /// The moment at which `look` last looked at the file.
    looked_at: Option<u64>,
}

// In the place of `#[derive(Drop)]`, so that no caller proves again how each part is dropped.
impl Drop for EventLog {
    fn drop(self) {
        let EventLog {
            alloc: _,
            waiting: _,
            file: _,
            notices: _,
            looked_at: _,
        } = self;
    }
}

impl Model for EventLog {
    ghost use Rattle.serve_log.specs.declared.waiting.Waiting.{Waiting};

    ghost Value = { Waiting };

    ghost view = { λ log. log.waiting };
}

impl EventLog {
    ghost use Rattle.serve_log.specs.Waits.{drafts_of, is_behind, logged_of, missed_of};

    /// Makes a log into the file, to which nothing was noted yet.
    pub fn new(alloc: Global, file: LogFile) -> EventLog
        ensures logged { logged_of result ≡ [] }
        ensures drafts { drafts_of result ≡ [] }
        ensures missed { missed_of result ≡ 0 }
    {
        EventLog {
            alloc,
            waiting: Waiting::new(alloc),
            file,
            notices: Vec::new(alloc),
            looked_at: None,
        }
    }

    /// Notes an event and what it came to: gives its line to the file, or has it wait. It is left
    /// out where a round is under way.
    pub fn note<F>(
        &mut self,
        moment: u64,
        door: Door,
        event: &Event<'_>,
        told: &Result<Answered, F>,
    )
        ensures notes { Takes
            (missed_of self.old) (missed_of self.new)
            (logged_of self.old) (logged_of self.new)
            (line_text moment door (plain_event event.now) told.now) }
        ensures drafts { drafts_of self.new ≡ drafts_of self.old }
    {
        if self.waiting.has_drafts() {
            self.waiting.miss();
            return;
        }
        self.draft(moment, door, event, told);
        self.settle(true);
    }

    /// Notes an event of a round that is under way. Its line waits for the round's end (`settle`).
    pub fn draft<F>(
        &mut self,
        moment: u64,
        door: Door,
        event: &Event<'_>,
        told: &Result<Answered, F>,
    )
        ensures drafts { Takes
            (missed_of self.old) (missed_of self.new)
            (drafts_of self.old) (drafts_of self.new)
            (line_text moment door (plain_event event.now) told.now) }
        ensures logged { logged_of self.new ≡ logged_of self.old }
    {
        match line_of(self.alloc, moment, door, event, told) {
            Ok(line) => self.waiting.draft_or_miss(line.as_slice()),
            Err(_) => self.waiting.miss(),
        }
    }

    /// Ends the round. If it was kept, its lines go to the file, or wait; else they are dropped.
    pub fn settle(&mut self, kept: bool)
        ensures kept { IsTrue kept → logged_of self.new
            ≡ logged_of self.old ++ drafts_of self.old }
        ensures lost { kept ≡ false → logged_of self.new
            ≡ logged_of self.old }
        ensures drafts { drafts_of self.new ≡ [] }
        ensures missed { missed_of self.new ≡ missed_of self.old }
    {
        self.waiting.settle(kept);
        self.push_out();
        self.end_notices(kept);
    }

    /// Has the next `note`, or the round's end, tell that the job which the event settles was
    /// charged so many units beyond what it had reserved. The line is left out where memory is
    /// refused, lines wait, or the round is lost.
    pub fn tell_beyond(&mut self, moment: u64, event: &Event<'_>, units: u64)
        ensures { self.new ≡ self.old }
    {
        if let Event::Settle {
            device,
            account,
            job,
            ..
        } = event
        {
            self.add_notice(moment, *device, *account, *job, units);
        }
    }

    /// Adds the notice that a job was charged beyond what it had reserved. It is left out where
    /// memory is refused.
    fn add_notice(&mut self, moment: u64, device: Name, account: Name, job: u32, units: u64)
        ensures { self.new ≡ self.old }
    {
        let before = self.notices.len();
        let notices = &mut self.notices;
        if put_beyond(notices, moment, device.bytes(), account.bytes(), job, units).is_err() {
            self.notices.truncate(before);
        }
    }

    /// Gives the notices to the file, if the round was kept and no line waits, and else drops them.
    fn end_notices(&mut self, kept: bool)
        ensures { self.new ≡ self.old }
    {
        if kept && !self.waiting.is_behind() && !self.notices.is_empty() {
            // They are left out where the file refuses them.
            let _ = self.file.append(self.notices.as_slice());
        }
        self.notices.clear();
    }

    /// Notes that a door refused a line. The note is left out where memory is refused, or lines
    /// wait.
    pub fn refuse_line(&mut self, moment: u64, door: Door, why: LineRefusal)
        ensures { self.new ≡ self.old }
    {
        let mut line = Vec::new(self.alloc);
        if put_refused_line(&mut line, moment, door, why).is_ok() {
            self.append(line.as_slice());
        }
    }

    /// Notes that a request of HTTP was refused. The note is left out where memory is refused, or
    /// lines wait.
    pub fn refuse_request(&mut self, moment: u64, status: u16, path: &[u8])
        ensures { self.new ≡ self.old }
    {
        let mut line = Vec::new(self.alloc);
        if put_refused_request(&mut line, moment, status, path).is_ok() {
            self.append(line.as_slice());
        }
    }

    /// Gives the file a line by itself. The line is left out where others wait, or the file refuses
    /// it.
    fn append(&mut self, line: &[u8])
        ensures { self.new ≡ self.old }
    {
        if !self.waiting.is_behind() {
            // It is left out where the file refuses it.
            let _ = self.file.append(line);
        }
    }

    /// Gives the file what waits, by one write. Where the file refuses it all of it waits on.
    pub fn push_out(&mut self)
        ensures logged { logged_of self.new ≡ logged_of self.old }
        ensures drafts { drafts_of self.new ≡ drafts_of self.old }
        ensures missed { missed_of self.new ≡ missed_of self.old }
    {
        if self.waiting.is_behind() {
            // Where the file refuses it all of it waits on.
            let _ = self.waiting.push_out(&mut self.file);
        }
    }

    /// Opens the file anew where it was moved away or removed, as log rotation does. It looks at
    /// most once a moment: another call at the same one does nothing. With `None`, where the clock
    /// tells no moment, each call looks.
    pub fn look<R: Files<File = File>>(&mut self, files: &R, moment: Option<u64>)
        ensures { self.new ≡ self.old }
    {
        let was_now = moment.is_some() && moment == self.looked_at;
        if !was_now {
            self.file.reopen_if_moved(files);
            self.looked_at = moment;
        }
    }

    /// Whether lines wait that the file has not taken.
    pub fn is_behind(&self) -> bool
        ensures { result ≡ is_behind self.now }
    {
        self.waiting.is_behind()
    }

    /// How many lines were left out.
    pub fn missed(&self) -> u64
        ensures { result ≡ missed_of self.now }
    {
        self.waiting.missed()
    }
}

/// Makes the line of an event.
fn line_of<F>(
    alloc: Global,
    moment: u64,
    door: Door,
    event: &Event<'_>,
    told: &Result<Answered, F>,
) -> Result<Vec<u8>, AllocError>
    ensures { IfOk result (λ line. line.items
        ≡ line_text moment door (plain_event event.now) told.now) }
{
    let mut line = Vec::with_capacity(alloc, USUAL_LINE)?;
    put_line(&mut line, moment, door, event, told)?;
    Ok(line)
}
