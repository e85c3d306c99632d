//! The spare file: zeros beside the database, which are given up where the disk is full, and taken
//! back later.
ghost use Rattle.std.specs.Prelude.{◌≡◌, ◌+◌, ◌-◌, ◌<◌, ◌≤◌, max, IfOk, IsFalse, IsTrue};
ghost use Rattle.serve_space.specs.Spares.{any_length, gone_of, held_of, kept_back, kept_beside, piece, taken_where, takes_of, whole};

use std::fs::{File, Files, OpenOptions};
use std::io;
use std::io::Write;
use std::os::unix::fs::OpenOptionsExt;

/// The bytes of a whole spare file.
const WHOLE: usize = 37_748_736;

/// What is kept back for the small changes behind a document, in bytes.
const KEPT_BACK: usize = 1_310_720;

/// What is kept back beside that, in bytes, as long as each job that has ended was followed by
/// another.
const KEPT_BESIDE: usize = 1_310_720;

/// What the write-ahead log takes beside a document's own bytes, at most.
const WAL_BESIDE: usize = 524_288;

/// The most bytes that are taken at once.
const PIECE: usize = 65_536;

/// Its owner alone reads and writes.
const OWNER_ALONE: u32 = 0o600;

/// Space on the disk that was taken beforehand, or none.
#[derive(Drop)]
pub struct Spare {
    kept: Option<Kept>,
}

/// The file stays open. Its blocks are there, since its zeros were written.
#[derive(Drop)]
struct Kept {
    file: File,
    held: usize,
    /// How many more jobs have ended than have come, since space was given up.
    gone: usize,
}

impl Spare {
    /// No space is kept: a request of any length is taken, and there is nothing to give up.
    pub fn none() -> Spare
        ensures held { held_of result ≡ 0 }
        ensures takes { takes_of result ≡ any_length }
    {
        Spare { kept: None }
    }

    /// The spare file at the path, which is made where it is not there. What stands in it already
    /// is held, and what is missing is taken as far as there is room. An error where the file can't
    /// be opened or looked at.
    pub fn open<R: Files<File = File>>(files: &R, path: &str) -> io::Result<Spare>
        ensures { IfOk result (λ spare. held_of spare ≤ whole) }
    {
        let mut spare = Spare::found(files, path)?;
        spare.fill();
        Ok(spare)
    }

    /// Opens the spare file, or makes it, and counts what stands in it. Nothing is added.
    fn found<R: Files<File = File>>(files: &R, path: &str) -> io::Result<Spare>
        ensures { IfOk result (λ spare. held_of spare ≤ whole) }
    {
        // Where it was cut, what is appended goes to its start again, and leaves no hole.
        let file = OpenOptions::new()
            .append(true)
            .create(true)
            .mode(OWNER_ALONE)
            .open(files, path)?;
        let held = file.metadata()?.len().min(WHOLE as u64) as usize;
        let kept = Some(Kept {
            file,
            held,
            gone: 0,
        });
        Ok(Spare { kept })
    }

    /// Takes all of what is missing, as far as there is room for it now.
    pub fn fill(&mut self)
        ensures grows { held_of self.old ≤ held_of self.new }
        ensures most { held_of self.old ≤ whole → held_of self.new ≤ whole }
        ensures takes { takes_of self.old ≤ takes_of self.new }
    {
        for _ in 0..WHOLE / PIECE {
            if !self.mend() {
                return;
            }
        }
    }

    /// The longest request, in bytes, for which there is space. While a job has ended for which no
    /// other came, that is what is held without 1.25 MiB, for the small changes behind it; else
    /// half of what is held without 3 MiB, since the write-ahead log takes a document before the
    /// tables do.
    pub fn takes(&self) -> usize
        ensures { result ≡ takes_of self.now }
    {
        match &self.kept {
            None => usize::MAX,
            Some(kept) => kept.takes(),
        }
    }

    /// Gives up so many bytes, or what is held where that is less, and answers whether it was
    /// something. Where the file can't be cut nothing is given up.
    pub fn give_up(&mut self, most: usize) -> bool
        ensures had { IsTrue result → 0 < held_of self.old }
        ensures gone { IsTrue result → held_of self.new ≡ held_of self.old - most }
        ensures grows { IsTrue result → gone_of self.new ≡ 0 }
        ensures same { IsFalse result → self.new ≡ self.old }
    {
        match &mut self.kept {
            None => false,
            Some(kept) => kept.cut(0, most),
        }
    }

    /// Gives up so many bytes at most, for a request of the length, and answers whether it was
    /// something. As many bytes as it has stay held, and 2.5 MiB.
    pub fn lend(&mut self, length: usize, most: usize) -> bool
        ensures gone { IsTrue result → held_of self.new
            ≡ max (length + (kept_back + kept_beside)) (held_of self.old - most) }
        ensures left { IsTrue result → length + (kept_back + kept_beside) ≤ held_of self.new }
        ensures same { IsFalse result → self.new ≡ self.old }
    {
        match &mut self.kept {
            None => false,
            Some(kept) => match length.checked_add(KEPT_BACK + KEPT_BESIDE) {
                None => false,
                Some(least) => kept.cut(least, most),
            },
        }
    }

    /// Notes that a job has ended, whose documents have left space in the tables: a longer request
    /// may come.
    pub fn ended(&mut self)
        ensures held { held_of self.new ≡ held_of self.old }
        ensures takes { takes_of self.old ≤ takes_of self.new }
    {
        if let Some(kept) = &mut self.kept {
            kept.gone = kept.gone.saturating_add(1);
        }
    }

    /// Notes that a job or a document has come, which took the space of one that had ended.
    pub fn took(&mut self)
        ensures held { held_of self.new ≡ held_of self.old }
        ensures gone { gone_of self.new ≡ gone_of self.old - 1 }
    {
        if let Some(kept) = &mut self.kept {
            kept.gone = kept.gone.saturating_sub(1);
        }
    }

    /// Takes 64 KiB at most of what is missing, as far as there is room for it, and answers whether
    /// it could take some. What could not be written is tried at the next call.
    pub fn mend(&mut self) -> bool
        ensures grew { IsTrue result → held_of self.old < held_of self.new }
        ensures same { IsFalse result → held_of self.new ≡ held_of self.old }
        ensures piece { held_of self.new ≤ held_of self.old + piece }
        ensures most { held_of self.old ≤ whole → held_of self.new ≤ whole }
        ensures takes { takes_of self.old ≤ takes_of self.new }
    {
        match &mut self.kept {
            None => false,
            Some(kept) => kept.mend(),
        }
    }
}

impl Kept {
    /// The longest request, in bytes, for which there is space, as `Spare::takes` has it.
    fn takes(&self) -> usize
        ensures { result ≡ taken_where self.now.gone self.now.held }
    {
        if self.gone == 0 {
            self.held
                .saturating_sub(KEPT_BACK + KEPT_BESIDE + WAL_BESIDE)
                / 2
        } else {
            self.held.saturating_sub(KEPT_BACK)
        }
    }

    /// Gives up so many bytes at most of what is above the least, and answers whether it was
    /// something. The file is cut, and not removed: while it is open its blocks would stay.
    fn cut(&mut self, least: usize, most: usize) -> bool
        ensures had { IsTrue result → least < self.old.held }
        ensures left { IsTrue result → self.new.held ≡ max least (self.old.held - most) }
        ensures gone { IsTrue result → self.new.gone ≡ 0 }
        ensures same { IsFalse result → self.new ≡ self.old }
    {
        if self.held <= least {
            return false;
        }
        let left = self.held.saturating_sub(most).max(least);
        if self.file.set_len(left as u64).is_err() {
            return false;
        }
        self.held = left;
        self.gone = 0;
        true
    }

    /// Writes up to 64 KiB of the zeros that are missing, and answers whether some could be
    /// written.
    fn mend(&mut self) -> bool
        ensures grew { IsTrue result → self.old.held < self.new.held }
        ensures same { IsFalse result → self.new.held ≡ self.old.held }
        ensures piece { self.new.held ≤ self.old.held + piece }
        ensures most { self.old.held ≤ whole → self.new.held ≤ whole }
        ensures gone { self.new.gone ≡ self.old.gone }
    {
        let missing = WHOLE.saturating_sub(self.held).min(PIECE);
        if missing == 0 {
            return false;
        }
        match self.file.write(&[0; PIECE][..missing]) {
            Err(_) | Ok(0) => false,
            Ok(count) => {
                self.held += count;
                true
            }
        }
    }
}
