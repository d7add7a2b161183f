//! The store on threads: a session and the keeper, each at its table, with what the thread law says of each call.
#![tactic(auto)]

mod keeper_seats;
mod many;
mod opening;
mod passes;
mod seated;

pub use keeper_seats::KeeperSeat;
pub use opening::{OpenSeats, open, open_seats};
pub use passes::{close, join, law_of_meetings};
pub use seated::Seated;

// What crates above name of the table.
pub use law_threads::{
    Happening, Keeper, KeeperPass, Leave, Offsets, OpenTable, Pass, Session, Table, TurnAsk,
};
