//! `serve_one`: one message of HTTP is read, applied as an event, and answered.
ghost use Rattle.std.specs.Prelude.{◌≡◌, ◌↔◌, ◌+◌, ◌-◌, ◌^◌, ◌<◌, ◌≤◌, true, false, Err, IfErr, IfOk, IsErr, OnErr, OnOk, Ok, Result, length};
ghost use Rattle.std.specs.Io.KnownBytes.{Appends};
ghost use Rattle.sqlite.specs.Held.{state};
ghost use Rattle.ipp_coding.specs.Limits.{header_length};
ghost use Rattle.account_machine.specs.declared.event.Reply.{Reply as ToldReply};
ghost use Rattle.listen_http.specs.Exchange.{AppendsFront, TakesAtMost, most_taken, read_faults, write_faults};
ghost use Rattle.store_rounds.specs.declared.fault.StoreFault.{StoreFault as ToldFault};
ghost use Rattle.room_serve.specs.Exchanges.{Answers, AppliesMessage, Breaks, after_answer, after_telling, internal_error_answer, text_told};
ghost use Rattle.room_serve.specs.Wires.{wire_has_ended, reader_of, writer_of};
ghost use Rattle.rows_tables.specs.Calls.{KeepsConnection};

use crate::wire::{After, Wire};
use account_machine::{Event, Reply, internal_error};
use input_fields::{Sink, Source};
use ipp_coding::header_in;
use listen_http::{Order, Received, Refusal, WireFault, receive, send_answer, send_refusal};
use room_store::Store;
use sqlite::Alter;
use std::alloc::Global;
use store_rounds::StoreFault;

/// Reads one message and writes its answer, at the moment `now` in seconds from 1970; no byte
/// after the message is read. The message is one event of the account in its path; a fault of the
/// store is told as internal-error.
///
/// `Read`, `Write` and `Memory` end the connection, as `Close` does: every later call answers
/// `Ended`, and reads and writes nothing. However a call ends, it has read at most `most_taken`
/// bytes. From the event on no memory is taken but by the store.
pub fn serve_one<S: Alter, R: Source, W: Sink>(
    alloc: Global,
    store: &mut Store<S>,
    now: u64,
    wire: &mut Wire<R, W>,
) -> Result<After, WireFault>
    requires reads { wire_has_ended wire.old ≡ false
        → R.failures (reader_of wire.old) < 2 ^ 64 - 1 }
    requires writes { wire_has_ended wire.old ≡ false
        → W.failures (writer_of wire.old) < 2 ^ 64 - 1 }
    ensures exchange { IfOk result
        (Answers S.Store now (R.left (reader_of wire.old)) (R.left (reader_of wire.new))
        (W.given (writer_of wire.old)) (W.given (writer_of wire.new)) store.old store.new) }
    ensures fault { wire_has_ended wire.old ≡ false → IfErr result (Breaks S.Store now
        (R.left (reader_of wire.old)) (R.left (reader_of wire.new))
        (W.given (writer_of wire.old)) (W.given (writer_of wire.new)) store.old store.new) }
    ensures bounded { TakesAtMost most_taken (R.left (reader_of wire.old))
        (R.left (reader_of wire.new)) }
    ensures ended { wire_has_ended wire.old ≡ true
        → (result ≡ Err WireFault.Ended) × (wire.new ≡ wire.old) × (store.new ≡ store.old) }
    ensures goes_on { wire_has_ended wire.new ≡ false ↔ (result ≡ Ok After.Again) }
    ensures reads { R.failures (reader_of wire.new)
        ≡ R.failures (reader_of wire.old) + read_faults result }
    ensures writes { W.failures (writer_of wire.new)
        ≡ W.failures (writer_of wire.old) + write_faults result }
    ensures connection { KeepsConnection (state S.Store store.old) (state S.Store store.new) }
{
    if wire.has_ended {
        return Err(WireFault::Ended);
    }
    let outcome = exchange(alloc, store, now, &mut wire.reader, &mut wire.writer);
    wire.has_ended = outcome != Ok(After::Again);
    outcome
}

/// The work of `serve_one` on a connection that has not ended.
#[tactic(auto, using(crate::proofs::Exchanging::not_received))]
fn exchange<S: Alter, R: Source, W: Sink>(
    alloc: Global,
    store: &mut Store<S>,
    now: u64,
    reader: &mut R,
    writer: &mut W,
) -> Result<After, WireFault>
    requires reads { R.failures reader.old < 2 ^ 64 - 1 }
    requires writes { W.failures writer.old < 2 ^ 64 - 1 }
    ensures exchange { IfOk result (Answers S.Store now (R.left reader.old) (R.left reader.new)
        (W.given writer.old) (W.given writer.new) store.old store.new) }
    ensures fault { IfErr result (Breaks S.Store now (R.left reader.old) (R.left reader.new)
        (W.given writer.old) (W.given writer.new) store.old store.new) }
    ensures bounded { TakesAtMost most_taken (R.left reader.old) (R.left reader.new) }
    ensures reads { R.failures reader.new ≡ R.failures reader.old + read_faults result }
    ensures writes { W.failures writer.new ≡ W.failures writer.old + write_faults result }
    ensures connection { KeepsConnection (state S.Store store.old) (state S.Store store.new) }
{
    match receive(alloc, reader, writer)? {
        Received::Nothing => Ok(After::Close),
        Received::Refused(refusal) => {
            match send_refusal(writer, refusal) {
                Ok(()) => Ok(After::Close),
                Err(fault) => Err(fault),
            }
        }
        Received::Carried(order, body) => {
            carry_out(alloc, store, now, writer, order, body.as_slice())
        }
    }
}

/// Applies the message as an event of its account, once, and writes the answer.
fn carry_out<S: Alter, W: Sink>(
    alloc: Global,
    store: &mut Store<S>,
    now: u64,
    writer: &mut W,
    order: Order,
    body: &[u8],
) -> Result<After, WireFault>
    requires writes { W.failures writer.old < 2 ^ 64 - 1 }
    requires long { header_length ≤ length body.now }
    ensures told { IfOk result (λ after. (told : Result ToldReply ToldFault)
        × AppliesMessage S.Store now order.account body.now store.old store.new told
        × Appends (W.given writer.old) (W.given writer.new) (text_told body.now order.closes told)
        × (after ≡ after_telling order.closes told)) }
    ensures front { OnErr result ((told : Result ToldReply ToldFault)
        × AppliesMessage S.Store now order.account body.now store.old store.new told
        × AppendsFront (W.given writer.old) (W.given writer.new)
        (text_told body.now order.closes told)) }
    ensures cause { IfErr result (λ fault. fault ≡ WireFault.Write) }
    ensures count { W.failures writer.new ≡ W.failures writer.old + write_faults result }
    ensures connection { KeepsConnection (state S.Store store.old) (state S.Store store.new) }
{
    let event = Event::Ipp {
        account: order.account,
        body,
    };
    let told = store.apply(alloc, now, &event);
    tell(writer, &told, body, order.closes)
}

/// Writes what the store answered, and says whether the connection goes on.
fn tell<W: Sink>(
    writer: &mut W,
    told: &Result<Reply, StoreFault>,
    body: &[u8],
    closes: bool,
) -> Result<After, WireFault>
    requires writes { W.failures writer.old < 2 ^ 64 - 1 }
    requires long { header_length ≤ length body.now }
    ensures sent { OnOk result
        (Appends (W.given writer.old) (W.given writer.new) (text_told body.now closes told.now)) }
    ensures front { OnErr result (AppendsFront (W.given writer.old) (W.given writer.new)
        (text_told body.now closes told.now)) }
    ensures after { IfOk result (λ after. after ≡ after_telling closes told.now) }
    ensures cause { IfErr result (λ fault. fault ≡ WireFault.Write) }
    ensures count { W.failures writer.new ≡ W.failures writer.old + write_faults result }
{
    match told {
        Ok(Reply::Ipp(answer)) => {
            send_answer(writer, answer.as_slice(), closes)?;
            Ok(after_answer(closes))
        }
        Ok(Reply::NoAccount) => {
            send_refusal(writer, Refusal::NotFound)?;
            Ok(After::Close)
        }
        Ok(_) => tell_internal_error(writer, body, closes),
        Err(_) => tell_internal_error(writer, body, closes),
    }
}

/// Writes the response internal-error (RFC 8011 section B.1.5.1), for a message that the store
/// could not answer, and says whether the connection goes on.
fn tell_internal_error<W: Sink>(
    writer: &mut W,
    body: &[u8],
    closes: bool,
) -> Result<After, WireFault>
    requires writes { W.failures writer.old < 2 ^ 64 - 1 }
    requires long { header_length ≤ length body.now }
    ensures sent { OnOk result
        (Appends (W.given writer.old) (W.given writer.new)
        (internal_error_answer body.now closes)) }
    ensures front { OnErr result
        (AppendsFront (W.given writer.old) (W.given writer.new)
        (internal_error_answer body.now closes)) }
    ensures after { IfOk result (λ after. after ≡ after_answer closes) }
    ensures cause { IfErr result (λ fault. fault ≡ WireFault.Write) }
    ensures count { W.failures writer.new ≡ W.failures writer.old + write_faults result }
{
    match send_answer(writer, &internal_error(header_in(body)), closes) {
        Ok(()) => Ok(after_answer(closes)),
        Err(fault) => Err(fault),
    }
}

/// Whether the connection goes on after an answer that was written.
fn after_answer(closes: bool) -> After
    ensures { result ≡ after_answer closes }
{
    if closes { After::Close } else { After::Again }
}
