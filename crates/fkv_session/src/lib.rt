//! A session's calls as one machine by asks: operations, refresh, poll, sleep, wake and durable; how it takes up the phase of a
//! commit; and the turn that it makes where its log had no room.
#![tactic(auto)]

mod answer_laws;
mod answers;
mod asks;
mod bounds;
mod calls;
mod catching_up;
mod contexts;
mod laws;
mod leading;
mod own_turns;
mod polling;
mod request_laws;
mod sessions;
mod showing;
mod standing_laws;

pub use answer_laws::law_of_answers;
pub use answers::{Answer, Finished, Told, answer_of};
pub use asks::is_word_ask;
pub use bounds::law_of_asks;
pub use catching_up::{CatchUp, cut_at, cut_of, seen_after};
pub use laws::{
    law_of_cuts, law_of_latches, law_of_reads, law_of_refusals, law_of_replies, law_sessions,
};
pub use own_turns::OwnTurn;
pub use request_laws::law_of_requests;
pub use sessions::Session;
pub use standing_laws::law_of_standing;
