//! What a player knows of a session beside its life.
ghost use Rattle.std.specs.Prelude.{◌≡◌, IfOk, OnOk, replicate};
ghost use Rattle.fkv_playing.specs.Seats.{SeatState, first_seat, seat_behind};

use fkv_map::{Call, Op};
use fkv_session::Answer;
use fkv_texts::WaitingRead;
use std::alloc::Global;
use std::io;
use std::marker::Model;

/// A session's seat: whether the session is awake, and its reads that have gone pending.
#[derive(Drop)]
pub struct Seat {
    pub(crate) is_awake: bool,
    pub(crate) waiting: Vec<WaitingRead>,
}

impl Model for Seat {
    ghost Value = { SeatState };

    ghost view = { λ m. record { is_awake = m.is_awake; waiting = m.waiting.items } };
}

impl Seat {
    /// A session that is awake, and waits for nothing.
    pub(crate) fn new(alloc: Global) -> Seat
        ensures { result ≡ first_seat }
    {
        Seat {
            is_awake: true,
            waiting: Vec::new(alloc),
        }
    }

    /// Notes what the answer to this call says of the session.
    pub(crate) fn note(&mut self, call: Call, answer: &Answer) -> io::Result<()>
        ensures { OnOk result (self.new ≡ seat_behind call answer.now self.old) }
    {
        match answer {
            Answer::PendingRead(ticket) => {
                if let Call::Op(op) = call {
                    self.waiting.push(WaitingRead {
                        ticket: *ticket,
                        key: op.key(),
                    })?;
                }
            }
            Answer::Slept => self.is_awake = false,
            Answer::Woken(_, _) => self.is_awake = true,
            _ => {}
        }
        Ok(())
    }
}

/// So many first seats.
pub(crate) fn first_seats(alloc: Global, count: usize) -> io::Result<Vec<Seat>>
    ensures { IfOk result (λ seats. seats.items ≡ replicate count first_seat) }
{
    let mut seats = Vec::new(alloc);
    for _ in 0..count {
        seats.push(Seat::new(alloc))?;
    }
    Ok(seats)
}
