//! The pipe: key lines, an empty line and request lines in, a line for each answer out.
ghost use Rattle.std.specs.Prelude.{◌≡◌, ◌⊎◌, ◌+◌, ◌<◌, ◌≤◌, ◌++◌, [], ◌∷◌, List, Option, ℕ, length, map, IsTrue, IfOk, IfErr, OnOk};
ghost use Rattle.mac_keys.specs.KeyTable.{table_of};
ghost use Rattle.mac_keys.specs.declared.fault.KeyFault.TheVariants as key;
ghost use Rattle.mac_keys.specs.declared.fault.LineFault.{LineFault};
ghost use Rattle.mac_wire.specs.declared.arrival.Arrival.{Arrival};
ghost use Rattle.mac_wire.specs.declared.reply.Reply.{Reply};
ghost use Rattle.mac_commands.specs.declared.fault.PipeFault.TheVariants.{Keys, Memory};
ghost use Rattle.mac_commands.specs.declared.input.TheConstants.{INPUT_MAX};
ghost use Rattle.mac_decide.specs.Answer.{full_answer};
ghost use Rattle.mac_commands.specs.Arrived.{arrival_of};
ghost use Rattle.mac_commands.specs.Lines.{lines, key_text};
ghost use Rattle.mac_commands.specs.Inner.{EndsWriting, IsTableBeside, Tells, Writes};
ghost use Rattle.mac_commands.specs.Output.{CountsDevice};
ghost use Rattle.mac_commands.specs.Pipe.{GivesOutput, TakesInput, answer_beside};
ghost use Rattle.mac_commands.specs.PipeText.{answers};
ghost use Rattle.mac_commands.specs.ReplyLine.{reply_line};

use crate::arrived::read_arrival;
use crate::fault::PipeFault;
use crate::input::read_input;
use crate::lines::{divide, next_line};
use crate::reply_line::append_reply_line;
use mac_board::Moments;
use mac_decide::{Rights, Terms, answer, job_of};
use mac_keys::{KeyFault, KeyTable, RevokedList};
use mac_wire::{Arrival, GATHERED, NoMemory, Reply, Sink, Source, send_all};
use std::alloc::Global;

/// Reads the key lines up to the first empty line, then a request a line in hexadecimal, and writes
/// a line for each answer, in order, under the keys and beside a list of tokens that were taken
/// back. The clock is asked once, when all is read.
pub fn pipe<R: Source, M: Moments, W: Sink>(
    alloc: Global,
    list: &RevokedList,
    source: &mut R,
    clock: &mut M,
    sink: &mut W,
) -> Result<(), PipeFault>
    requires readable { R.faults source.old < u64.MAX }
    requires writable { W.faults sink.old < u64.MAX }
    ensures source { IsTrue R.tells → (input : List ℕ)
        × (R.taken source.new ≡ R.taken source.old ++ input)
        × TakesInput result (R.ended source.new) input }
    ensures clock { OnOk result
        ((moment : Option ℕ) × (M.told clock.new ≡ M.told clock.old ++ moment ∷ [])) }
    ensures output { IsTrue R.tells → IsTrue W.tells → (input : List ℕ) (moment : Option ℕ)
        → R.taken source.new ≡ R.taken source.old ++ input
        → M.told clock.new ≡ M.told clock.old ++ moment ∷ []
        → GivesOutput (answer_beside list.now moment) result input
        (W.written sink.old) (W.written sink.new) }
    ensures keys { IsTrue R.tells → (input : List ℕ)
        → R.taken source.new ≡ R.taken source.old ++ input
        → IsTrue (R.ended source.new) → length input ≤ INPUT_MAX
        → (line : ℕ) (kind : LineFault) → table_of (key_text input) ≡ Err (key.Line line kind)
        → (result ≡ Err (Keys line kind)) ⊎ (result ≡ Err Memory) }
    ensures faults { CountsDevice result
        (R.faults source.old + W.faults sink.old) (R.faults source.new + W.faults sink.new) }
{
    let input = read_input(alloc, source)?;
    let moment = clock.tell();
    let (keys, requests) = divide(input.as_slice());
    let table = read_table_beside(alloc, keys, list)?;
    write_answers(alloc, &table, moment, requests, sink)
}

/// The table of the key lines.
pub(crate) fn read_table(alloc: Global, text: &[u8]) -> Result<KeyTable, PipeFault>
    ensures table { IfOk result (λ table. table_of text.now ≡ Ok table) }
    ensures fault { IfErr result (Tells (table_of text.now)) }
{
    match KeyTable::read(alloc, text) {
        Ok(table) => Ok(table),
        Err(KeyFault::Line { line, kind }) => Err(PipeFault::Keys { line, kind }),
        Err(KeyFault::Memory) => Err(PipeFault::Memory),
    }
}

/// The table of the key lines, beside a list of what was taken back.
fn read_table_beside(alloc: Global, text: &[u8], list: &RevokedList) -> Result<KeyTable, PipeFault>
    ensures table { IfOk result (λ table. IsTableBeside list.now (table_of text.now) table) }
    ensures fault { IfErr result (Tells (table_of text.now)) }
{
    let mut table = read_table(alloc, text)?;
    table.take_back(list)?;
    Ok(table)
}

/// Writes the answer to each line of the requests, at this moment.
fn write_answers<W: Sink>(
    alloc: Global,
    table: &KeyTable,
    moment: Option<u64>,
    requests: &[u8],
    sink: &mut W,
) -> Result<(), PipeFault>
    requires { W.faults sink.old < u64.MAX }
    ensures written { IsTrue W.tells → Writes result
        (answers (full_answer moment table.now) (map arrival_of (lines requests.now)))
        (W.written sink.old) (W.written sink.new) }
    ensures ends { EndsWriting result }
    ensures faults { CountsDevice result (W.faults sink.old) (W.faults sink.new) }
{
    let mut gathered = Vec::new(alloc);
    let mut rest = requests;
    while let Some((line, behind)) = next_line(rest) {
        let arrival = read_arrival(alloc, line)?;
        rest = rest_behind(&arrival, behind);
        append_answer(alloc, table, moment, arrival, &mut gathered)?;
        if gathered.len() >= GATHERED {
            send_all(sink, gathered.as_slice())?;
            gathered.clear();
        }
    }
    send_all(sink, gathered.as_slice())?;
    Ok(())
}

/// What is read after an arrival: nothing after an oversize one.
fn rest_behind<'a>(arrival: &Arrival, behind: &'a [u8]) -> &'a [u8]
    ensures rest { (reply : Arrival → Reply) →
        answers reply (arrival.now ∷ map arrival_of (lines behind.now))
        ≡ reply_line (reply arrival.now) ++ answers reply (map arrival_of (lines result.now)) }
    ensures shorter { length result.now ≤ length behind.now }
{
    match arrival {
        Arrival::Payload(_) => behind,
        Arrival::Oversize => &behind[behind.len()..],
    }
}

/// Appends the line of the answer to an arrival.
fn append_answer(
    alloc: Global,
    table: &KeyTable,
    moment: Option<u64>,
    arrival: Arrival,
    out: &mut Vec<u8>,
) -> Result<(), NoMemory>
    ensures { OnOk result
        (out.new.items ≡ out.old.items ++ reply_line (full_answer moment table.now arrival)) }
{
    let reply = reply_to(alloc, table, moment, arrival)?;
    append_reply_line(alloc, &reply, out)
}

/// The answer to an arrival: to the pipe everything is allowed.
fn reply_to(
    alloc: Global,
    table: &KeyTable,
    moment: Option<u64>,
    arrival: Arrival,
) -> Result<Reply, NoMemory>
    ensures { IfOk result (λ r. r ≡ full_answer moment table.now arrival) }
{
    let rights = &Rights::all();
    let terms = Terms {
        table,
        rights,
        moment,
    };
    let job = job_of(alloc, terms, arrival)?;
    answer(alloc, &job)
}
