//! The lines of sessions.
ghost use Rattle.std.specs.Prelude.{◌≡◌, OnOk};
ghost use Rattle.std.specs.Io.KnownBytes.{Appends};
ghost use Rattle.fkv_texts.specs.Lines.{session_line};
ghost use Rattle.fkv_texts.specs.Sessions.{key_of_call, left_text, session_text};

use crate::lines::{KeyWord, PhaseText, ReplyText};
use crate::polls::{WaitingRead, write_finished};
use crate::refusals::write_session_refusal;
use fkv_base::Key;
use fkv_map::{Call, Reply};
use fkv_session::Answer;
use std::io::{self, Write};

/// What a line of this session writes: its number, as the script has it, and the answer to its call. Before the line of a poll
/// come those of the requests that it has finished, as `write_finished` writes them; `waiting` are the session's reads that
/// wait. A read's key is that of its call.
///
/// An error is the output's own; it may have taken some of the lines then, and a part of one.
pub fn write_answer<W: Write>(
    output: &mut W,
    session: u64,
    call: Call,
    waiting: &[WaitingRead],
    answer: &Answer,
) -> io::Result<()>
    ensures { OnOk result (Appends (W.contents output.old) (W.contents output.new)
        (session_text session call waiting.now answer.now)) }
{
    let key = KeyWord(key_of_call(call));
    match answer {
        Answer::Done(serial, reply) => {
            writeln!(output, "{session} #{}{}", serial.0, ReplyText(*reply))
        }
        Answer::Pending(serial, _) => writeln!(output, "{session} #{} pending", serial.0),
        Answer::Found(value) => {
            let reply = ReplyText(Reply::Found(*value));
            writeln!(output, "{session} get{key}{reply}")
        }
        Answer::Absent => writeln!(output, "{session} get{key}{}", ReplyText(Reply::Absent)),
        Answer::PendingRead(ticket) => writeln!(output, "{session} get{key} pending @{}", ticket.0),
        Answer::Refreshed(phase, version) => {
            writeln!(output, "{session} refresh{}", PhaseText(*phase, *version))
        }
        Answer::Woken(phase, version) => {
            writeln!(output, "{session} wake{}", PhaseText(*phase, *version))
        }
        Answer::Polled(finished, left) => {
            write_finished(output, session, waiting, finished.as_slice())?;
            write_left(output, session, *left)
        }
        Answer::Slept => writeln!(output, "{session} sleep"),
        Answer::Durable(serial) => writeln!(output, "{session} durable {}", serial.0),
        Answer::Refused(fault) => write_session_refusal(output, session, *fault),
    }
}

fn write_left<W: Write>(output: &mut W, session: u64, left: usize) -> io::Result<()>
    ensures { OnOk result (Appends (W.contents output.old) (W.contents output.new) (session_line session (left_text left))) }
{
    writeln!(output, "{session} poll left {left}")
}

/// The key that a call asks for, where it is an operation.
fn key_of_call(call: Call) -> Option<Key>
    ensures { result ≡ key_of_call call }
{
    match call {
        Call::Op(op) => Some(op.key()),
        _ => None,
    }
}
