//! Polls, and the end of a session's handle.
ghost use Rattle.std.specs.Prelude.{◌≡◌, ◌≤◌, ◌++◌};
ghost use Rattle.fkv_face.specs.Polls as says;

use crate::answers::ROOM_SMALL;
use crate::held_session::HeldSession;
use crate::sessions::run;
use crate::told::{number_in, told_by};
use fkv_base::MAX_PENDING;
use fkv_disk::Device;
use fkv_map::Call;
use fkv_posted::Posted;
use fkv_session::{Finished, Told};

/// A request that a poll has finished: 0 an update, by its serial, with the value that it left; 1 a read that has found a value, by its ticket;
/// 2 one that has found none.
#[repr(C)]
#[derive(Clone, Copy)]
pub struct FinishedRequest {
    pub kind: u64,
    pub name: u64,
    pub value: u64,
}

fn finished_request(its: Finished) -> FinishedRequest
    ensures { result ≡ says.request_of its }
{
    match its {
        Finished::Update(serial, reply) => FinishedRequest {
            kind: 0,
            name: serial.0,
            value: number_in(reply),
        },
        Finished::Read(ticket, Some(value)) => FinishedRequest {
            kind: 1,
            name: ticket.0,
            value: value.0,
        },
        Finished::Read(ticket, None) => FinishedRequest {
            kind: 2,
            name: ticket.0,
            value: 0,
        },
    }
}

/// Copies the list to the front of the room.
fn fill(list: &[Finished], into: &mut [FinishedRequest])
    requires { says.length list.now ≤ says.length into.old }
    ensures { into.new ≡ says.map says.request_of list.now ++ says.drop (says.length list.now) into.old }
{
    for i in 0..list.len() {
        into[i] = finished_request(list[i]);
    }
}

/// Finishes what can be finished, tells it in the order of its acceptance, and answers how many requests are left. `Asleep`; `ROOM_SMALL` where
/// there is no room for 64 requests, and then nothing is done.
#[unsafe(no_mangle)]
pub extern "C" fn fkv_poll(
    session: &mut HeldSession,
    into: &mut [FinishedRequest],
    count: &mut u64,
) -> i32
    ensures { says.IsPolled (says.opening ⟦<Posted<'static> as Device>⟧) session.old.value into.old result into.new count.new session.new.value }
{
    *count = 0;
    if into.len() < MAX_PENDING {
        return ROOM_SMALL;
    }
    let its = session.lent().tell(Call::Poll);
    let Told::Polled(left) = its else {
        return told_by(its).result;
    };
    let list = session.lent().finished();
    fill(list, into);
    *count = list.len() as u64;
    left.min(MAX_PENDING) as i32
}

/// Ends the handle: the session sleeps first, if it is awake, and gives its share of the table up. `PendingLeft`: then nothing has ended. The
/// block of the handle is left to the caller, who frees it.
#[unsafe(no_mangle)]
pub extern "C" fn fkv_end_session(session: &mut HeldSession) -> i32
    ensures { says.IsEnded (says.opening ⟦<Posted<'static> as Device>⟧) session.old.value result session.new.value }
{
    let slept = run(session, Call::Sleep);
    if slept.result == -11 {
        return slept.result;
    }
    session.lent().end();
    0
}
