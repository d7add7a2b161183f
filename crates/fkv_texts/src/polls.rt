//! The requests that a poll has finished.
ghost use Rattle.std.specs.Prelude.{◌≡◌, OnOk};
ghost use Rattle.std.specs.Io.KnownBytes.{Appends};
ghost use Rattle.fkv_texts.specs.Polls.{key_of_ticket, reply_of_read, finished_line, finished_lines};

use crate::lines::{KeyWord, ReplyText};
use fkv_base::{Key, Value};
use fkv_map::Reply;
use fkv_pending::Ticket;
use fkv_session::Finished;
use std::io::{self, Write};

/// A read that went pending: the ticket that it was given, and the key that it asks for.
#[derive(Clone, Copy)]
pub struct WaitingRead {
    pub ticket: Ticket,
    pub key: Key,
}

impl WaitingRead {
    ghost use Rattle.fkv_texts.specs.Polls.{has_ticket};

    fn has_ticket(&self, ticket: Ticket) -> bool
        ensures { result ≡ has_ticket ticket self.now }
    {
        self.ticket.0 == ticket.0
    }
}

/// A line for each request that a poll of this session has finished, in their order: `0 #5 done` or `0 #5 = 11` of an update,
/// `0 @1 get 7 = 10` or `0 @1 get 7 absent` of a read. How many are left is not written.
///
/// The key of a read is that of the last waiting read with its ticket; where none has it, the line has no key, as
/// `0 @1 get = 10`. An error is the output's own; it may have taken some of the lines then, and a part of one.
pub fn write_finished<W: Write>(
    output: &mut W,
    session: u64,
    waiting: &[WaitingRead],
    finished: &[Finished],
) -> io::Result<()>
    ensures { OnOk result (Appends (W.contents output.old) (W.contents output.new)
        (finished_lines session waiting.now finished.now)) }
{
    for its in finished {
        write_finished_line(output, session, waiting, *its)?;
    }
    Ok(())
}

fn write_finished_line<W: Write>(
    output: &mut W,
    session: u64,
    waiting: &[WaitingRead],
    finished: Finished,
) -> io::Result<()>
    ensures { OnOk result (Appends (W.contents output.old) (W.contents output.new)
        (finished_line session waiting.now finished)) }
{
    match finished {
        Finished::Update(serial, reply) => {
            writeln!(output, "{session} #{}{}", serial.0, ReplyText(reply))
        }
        Finished::Read(ticket, value) => {
            let key = KeyWord(key_of_ticket(waiting, ticket));
            let reply = ReplyText(reply_of_read(value));
            writeln!(output, "{session} @{} get{key}{reply}", ticket.0)
        }
    }
}

/// The key of the last waiting read with this ticket. Those that a poll finishes are among the last, so it looks from there.
fn key_of_ticket(waiting: &[WaitingRead], ticket: Ticket) -> Option<Key>
    ensures { result ≡ key_of_ticket waiting.now ticket }
{
    waiting
        .iter()
        .rev()
        .find(|read| read.has_ticket(ticket))
        .map(|read| read.key)
}

fn reply_of_read(value: Option<Value>) -> Reply
    ensures { result ≡ reply_of_read value }
{
    match value {
        Some(value) => Reply::Found(value),
        None => Reply::Absent,
    }
}
