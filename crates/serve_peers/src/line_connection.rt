//! The buffers of a connection of lines, and how its next line is answered: by an event, a
//! question, a step of a backup, or a refusal. `LinePeer` drives it.
ghost use Rattle.std.specs.Prelude.{◌≡◌, ◌≢◌, ◌<◌, ◌+◌, ◌++◌, [], false, length, nat_lt, take, true, IfOk, IfSome, OnErr, OnOk, Ok, Some};
ghost use Rattle.std.specs.Io.KnownBytes.{Keeps};
ghost use Rattle.input_lines.specs.Asking.{IsQuestionOf};
ghost use Rattle.input_lines.specs.Backups.{IsBackupOf};
ghost use Rattle.serve_peers.specs.LineTexts.{bad_line_text, has_to_warn};
ghost use Rattle.serve_peers.specs.OwnDevices.{is_own};
ghost use Rattle.serve_peers.specs.Turns.{Continues};
ghost use Rattle.serve_peers.specs.Lines.{AnswersLine, Comes, IsEntryOf, IsNewOf, IsNoText, IsPutOff, IsQuiet, IsWaiting, Leaves, LosesAnswer, MayAsk, asks_documents, bytes_held, ended_of, grammar_of, has_control, input_of, line_end, output_of, received_of, sent_of, side_of, longest_line};

use crate::entry::Entry;
use crate::line_text::{put_answer, put_bad, put_refused, put_told};
use crate::own_devices::{device_of, is_named};
use crate::served::Served;
use account_questions::Question;
use bytes::{Buf, BufMut, BytesMut};
use http_server::{Log as History, Rope};
use input_fields::FieldFault;
use input_lines::{BackupLine, Grammar, read_backup, read_question, read_station_question};
use page_markup::is_control;
use serve_log::{Door, LineRefusal};
use sqlite::Alter;
use std::alloc::{AllocError, Global};
use std::io;
use std::io::{Read, Write};

/// The most bytes of a line, without what ends it.
pub const MOST_LINE: usize = 65_536;

/// How many bytes are asked for at once.
const ROOM: usize = 4_096;

/// Whose lines a connection carries: those of stations, of the stations at a bound door, or of
/// operators.
#[derive(Clone, Copy, PartialEq, Eq)]
pub enum Side {
    /// `release`, `start` and `settle`, and a station's questions.
    Station,
    /// The same, for some devices alone: their names, parted by commas.
    Bound(&'static [u8]),
    /// `open`, `device`, `rate`, `grant`, `cancel` and `hold`, an operator's questions, and the
    /// lines of a backup.
    Operator,
}

impl Side {
    /// The door that the log names for such lines.
    pub(crate) fn door(self) -> Door {
        match self {
            Side::Station | Side::Bound(_) => Door::Stations,
            Side::Operator => Door::Operators,
        }
    }

    /// The grammar by which such lines are read as events of the moment.
    pub(crate) fn grammar(self, moment: u64) -> Grammar
        ensures { result ≡ grammar_of self moment }
    {
        match self {
            Side::Station | Side::Bound(_) => Grammar::Station { moment },
            Side::Operator => Grammar::Operator { moment },
        }
    }

    /// Whether the side takes the line: a bound door takes it only for the devices that are its
    /// own.
    fn is_own(self, line: &[u8]) -> bool
        ensures { result ≡ is_own self line.now }
    {
        match self {
            Side::Bound(names) => is_named(names, device_of(line)),
            Side::Station | Side::Operator => true,
        }
    }
}

/// What became of the first line of what came.
#[derive(Clone, Copy, PartialEq, Eq)]
pub enum Front {
    /// It was answered.
    Answered,
    /// It is not whole yet.
    Unended,
    /// It has a control character, so it is no line of text: perhaps a browser speaks here, made to
    /// do so by a site, and what comes behind is the site's.
    NoText,
    /// It is a question, and a round is under way.
    PutOff,
}

/// A connection that carries lines one way and their answers the other. It makes no system call:
/// the caller moves the bytes.
pub struct LineConnection {
    pub(crate) alloc: Global,
    pub(crate) side: Side,
    pub(crate) input: BytesMut,
    pub(crate) output: Rope,
    /// Each read: what waited after it, and how much of that had waited before. Only proofs read
    /// it, and what was written.
    pub(crate) reads: History<BytesMut, usize>,
    /// Each write: what waited, and how much of it went.
    pub(crate) writes: History<Rope, usize>,
    /// No more is read: the peer has ended, or sent a line that is too long.
    pub(crate) has_ended: bool,
}

// By hand, in the place of `#[derive(Drop)]`: the head of lib.rt says why.
impl Drop for LineConnection {
    fn drop(self) {
        let LineConnection {
            alloc: _,
            side: _,
            input: _,
            output: _,
            reads: _,
            writes: _,
            has_ended: _,
        } = self;
    }
}

impl LineConnection {
    /// A connection on which nothing came yet. It takes no memory.
    pub fn new(alloc: Global, side: Side) -> LineConnection
        ensures { IsNewOf side result }
    {
        LineConnection {
            alloc,
            side,
            input: BytesMut::new(alloc),
            output: Rope::new(alloc),
            reads: History::new(),
            writes: History::new(),
            has_ended: false,
        }
    }

    /// Reads once. `Ok(0)` tells the end of what comes.
    pub fn read_from<R: Read>(&mut self, reader: &mut R) -> io::Result<usize>
        ensures came { IfOk result
            (Comes (R.remaining reader.old) (R.remaining reader.new) self.old self.new) }
        ensures nothing { OnErr result (input_of self.new ≡ input_of self.old) }
        ensures left { OnErr result (Keeps (R.remaining reader.old) (R.remaining reader.new)) }
        ensures quiet { OnErr result (IsQuiet self.old self.new) }
        ensures output { output_of self.new ≡ output_of self.old }
        ensures sent { sent_of self.new ≡ sent_of self.old }
        ensures ended { ended_of self.new ≡ ended_of self.old }
        ensures side { side_of self.new ≡ side_of self.old }
    {
        self.input.reserve(ROOM)?;
        let waited = self.input.len();
        let count = self.input.read_from(reader)?;
        self.reads = self.reads.and(&self.input, &waited);
        Ok(count)
    }

    /// Answers the first line of what came, at the moment of what is served. An event is applied,
    /// once; a line of a backup changes what is asked of that; a question, and a line that is
    /// refused, change nothing. A question is put off while a round is under way. By a bound door
    /// nothing is applied or asked but for its devices. After an error the connection has to be
    /// closed: there was no memory, or the peer has asked in this round already. Then the line is
    /// left, or it was taken and its answer is lost.
    pub fn answer<S: Alter>(&mut self, served: &mut Served<S>) -> Result<Front, AllocError>
        ensures taken { result ≡ Ok Front.Answered
            → AnswersLine S.Store self.old self.new served.old served.new }
        ensures none { result ≡ Ok Front.Unended
            → IsWaiting self.old self.new served.old served.new }
        ensures no_text { result ≡ Ok Front.NoText
            → IsNoText self.old self.new served.old served.new }
        ensures put_off { result ≡ Ok Front.PutOff
            → IsPutOff self.old self.new served.old served.new }
        ensures lost { OnErr result
            (LosesAnswer S.Store self.old self.new served.old served.new) }
        ensures continues { Continues S.Store served.old served.new }
        ensures quiet { IsQuiet self.old self.new }
        ensures side { side_of self.new ≡ side_of self.old }
    {
        let Some(end) = line_end(self.input.as_slice()) else {
            return Ok(Front::Unended);
        };
        if has_control(&self.input.as_slice()[..end]) {
            return Ok(Front::NoText);
        }
        if !self.side.is_own(&self.input.as_slice()[..end]) {
            return self.refuse_other(served, end);
        }
        let grammar = self.side.grammar(served.moment);
        match entry_of(self.alloc, grammar, &self.input.as_slice()[..end])? {
            Some(entry) => {
                let told = served.apply(entry)?;
                self.input.advance(end + 1);
                put_told(self.alloc, &mut self.output, told)?;
                Ok(Front::Answered)
            }
            None => self.answer_other(served, end),
        }
    }

    /// Refuses the first line, which ends at `end`, since it names no device of its bound door.
    fn refuse_other<S: Alter>(
        &mut self,
        served: &mut Served<S>,
        end: usize,
    ) -> Result<Front, AllocError>
        requires first { line_end (input_of self.old) ≡ Some end }
        requires plain { has_control (take end (input_of self.old)) ≡ false }
        requires other { is_own (side_of self.old) (take end (input_of self.old)) ≡ false }
        ensures taken { OnOk result
            (AnswersLine S.Store self.old self.new served.old served.new) }
        ensures answered { IfOk result (λ front. front ≡ Front.Answered) }
        ensures lost { OnErr result
            (LosesAnswer S.Store self.old self.new served.old served.new) }
        ensures continues { Continues S.Store served.old served.new }
        ensures quiet { IsQuiet self.old self.new }
        ensures side { side_of self.new ≡ side_of self.old }
    {
        let why = refusal_of(self.alloc, &self.input.as_slice()[..end])?;
        served.log_refused_line(self.side.door(), why);
        self.input.advance(end + 1);
        put_refused(&mut self.output, why)?;
        Ok(Front::Answered)
    }

    /// Answers the first line, which ends at `end` and asks for no event: a question, or another.
    fn answer_other<S: Alter>(
        &mut self,
        served: &mut Served<S>,
        end: usize,
    ) -> Result<Front, AllocError>
        requires first { line_end (input_of self.old) ≡ Some end }
        requires plain { has_control (take end (input_of self.old)) ≡ false }
        requires own { is_own (side_of self.old) (take end (input_of self.old)) ≡ true }
        ensures taken { result ≡ Ok Front.Answered
            → AnswersLine S.Store self.old self.new served.old served.new }
        ensures whole { result ≢ Ok Front.Unended }
        ensures text { result ≢ Ok Front.NoText }
        ensures put_off { result ≡ Ok Front.PutOff
            → IsPutOff self.old self.new served.old served.new }
        ensures lost { OnErr result
            (LosesAnswer S.Store self.old self.new served.old served.new) }
        ensures continues { Continues S.Store served.old served.new }
        ensures quiet { IsQuiet self.old self.new }
        ensures side { side_of self.new ≡ side_of self.old }
    {
        let Some(question) = question_of(self.side, &self.input.as_slice()[..end]) else {
            return self.answer_last(served, end);
        };
        if served.is_shared() {
            return Ok(Front::PutOff);
        }
        let warns = has_to_warn(&question, served.log_lags());
        let told = served.answer_question(question);
        self.input.advance(end + 1);
        put_answer(self.alloc, &mut self.output, warns, told)?;
        Ok(Front::Answered)
    }

    /// Answers the first line, which ends at `end`, as a line of a backup, or as a bad one.
    fn answer_last<S: Alter>(
        &mut self,
        served: &mut Served<S>,
        end: usize,
    ) -> Result<Front, AllocError>
        requires first { line_end (input_of self.old) ≡ Some end }
        requires plain { has_control (take end (input_of self.old)) ≡ false }
        ensures taken { OnOk result
            (AnswersLine S.Store self.old self.new served.old served.new) }
        ensures answered { IfOk result (λ front. front ≡ Front.Answered) }
        ensures lost { OnErr result
            (LosesAnswer S.Store self.old self.new served.old served.new) }
        ensures continues { Continues S.Store served.old served.new }
        ensures quiet { IsQuiet self.old self.new }
        ensures side { side_of self.new ≡ side_of self.old }
    {
        let Some(line) = backup_line_of(self.side, &self.input.as_slice()[..end]) else {
            served.log_refused_line(self.side.door(), LineRefusal::BadLine);
            self.input.advance(end + 1);
            put_bad(&mut self.output)?;
            return Ok(Front::Answered);
        };
        let told = served.ask_backup(line)?;
        self.input.advance(end + 1);
        self.output.put_slice(told.text())?;
        Ok(Front::Answered)
    }

    /// Whether more came than a line may have. It is asked where no line has ended yet.
    pub fn is_too_long(&self) -> bool
        ensures { result ≡ nat_lt longest_line (length (input_of self.now)) }
    {
        self.input.len() > MOST_LINE
    }

    /// Drops what came and is no whole line, and answers it as a bad line.
    pub fn refuse_rest(&mut self) -> Result<(), AllocError>
        ensures input { input_of self.new ≡ [] }
        ensures output { OnOk result
            (output_of self.new ≡ output_of self.old ++ bad_line_text) }
        ensures quiet { IsQuiet self.old self.new }
        ensures side { side_of self.new ≡ side_of self.old }
    {
        self.input.clear();
        put_bad(&mut self.output)
    }

    /// Whose lines the connection carries.
    pub(crate) fn side(&self) -> Side
        ensures { result ≡ side_of self.now }
    {
        self.side
    }

    /// Whether some of what came was not answered yet.
    pub fn has_rest(&self) -> bool
        ensures { result ≡ nat_lt 0 (length (input_of self.now)) }
    {
        !self.input.is_empty()
    }

    /// Whether what came begins a line that may be answered with documents.
    pub fn asks_documents(&self) -> bool
        ensures { result ≡ asks_documents (input_of self.now) }
    {
        let input = self.input.as_slice();
        input.starts_with(b"start ") || input.starts_with(b"again ")
    }

    /// How many bytes wait: those that came, and those that are to go.
    pub fn bytes_held(&self) -> usize
        ensures { result ≡ bytes_held self.now }
    {
        self.input.len().saturating_add(self.output.len())
    }

    /// Whether answers wait to go.
    pub fn wants_write(&self) -> bool
        ensures { result ≡ nat_lt 0 (length (output_of self.now)) }
    {
        !self.output.is_empty()
    }

    /// Writes once of the answers that wait, and drops what has gone.
    pub fn write_to<W: Write>(&mut self, writer: &mut W) -> io::Result<usize>
        ensures went { IfOk result
            (Leaves (W.contents writer.old) (W.contents writer.new) self.old self.new) }
        ensures nothing { OnErr result (self.new ≡ self.old) }
        ensures left { OnErr result (Keeps (W.contents writer.old) (W.contents writer.new)) }
        ensures input { input_of self.new ≡ input_of self.old }
        ensures received { received_of self.new ≡ received_of self.old }
        ensures ended { ended_of self.new ≡ ended_of self.old }
        ensures side { side_of self.new ≡ side_of self.old }
    {
        let count = writer.write(self.output.chunk())?;
        self.writes = self.writes.and(&self.output, &count);
        self.output.advance(count);
        Ok(count)
    }
}

/// The place of the line feed that ends the first line, if it has ended.
fn line_end(input: &[u8]) -> Option<usize>
    ensures place { result ≡ line_end input.now }
    ensures within { IfSome result (λ place. place < length input.now) }
{
    input.iter().position(|byte| *byte == b'\n')
}

/// Whether a control character stands in the line.
fn has_control(line: &[u8]) -> bool
    ensures { result ≡ has_control line.now }
{
    line.iter().any(|byte| is_control(*byte))
}

/// Why a line that names no device of its door is refused: one that is no station's is bad there
/// too.
fn refusal_of(alloc: Global, line: &[u8]) -> Result<LineRefusal, AllocError> {
    if read_station_question(line).is_ok() {
        return Ok(LineRefusal::NotYourDevice);
    }
    match entry_of(alloc, Grammar::Station { moment: 0 }, line)? {
        Some(_) => Ok(LineRefusal::NotYourDevice),
        None => Ok(LineRefusal::BadLine),
    }
}

/// The entry that a line asks to be applied, or `None` where it asks for no event.
fn entry_of(alloc: Global, grammar: Grammar, line: &[u8]) -> Result<Option<Entry>, AllocError>
    ensures { IfOk result (λ entry. IfSome entry (IsEntryOf grammar line.now)) }
{
    if line.len() > MOST_LINE {
        return Ok(None);
    }
    match grammar.read_line(alloc, line) {
        Ok(line) => Ok(Some(Entry::Line(line))),
        Err(FieldFault::Malformed) => Ok(None),
        Err(FieldFault::Memory) => Err(AllocError),
    }
}

/// The question that a line of the side asks.
fn question_of(side: Side, line: &[u8]) -> Option<Question>
    ensures { IfSome result (λ question. MayAsk side question × IsQuestionOf line.now question) }
{
    let read = match side {
        Side::Station | Side::Bound(_) => read_station_question(line),
        Side::Operator => read_question(line),
    };
    match read {
        Ok(question) => Some(question),
        Err(_) => None,
    }
}

/// What a line of the side asks of a backup, if it is such a line.
fn backup_line_of(side: Side, line: &[u8]) -> Option<BackupLine<'_>>
    ensures { IfSome result (λ asked. (side ≡ Side.Operator) × IsBackupOf line.now asked) }
{
    match side {
        Side::Station | Side::Bound(_) => None,
        Side::Operator => read_backup(line).ok(),
    }
}

/// Whether the answer warns of a log that lags: that to `ping` does.
fn has_to_warn(question: &Question, log_lags: bool) -> bool
    ensures { result ≡ has_to_warn question.now log_lags }
{
    matches!(question, Question::Ping) && log_lags
}
