//! The engine refines the index, the latches and the mailboxes, and each of its steps is events of the abstract log.
#![tactic(auto)]

mod calls;
mod events;
mod heads;
mod index;
mod latches;
mod mail;
mod records;
mod results;
mod seen;

pub use calls::{law_ghost_history, law_world_calls, law_world_in_hand};
pub use events::{
    law_ghost_effects, law_ghost_fixed, law_ghost_reservations, law_ghost_reserved,
    law_ghost_trace, law_ghost_unborn, law_of_a_worked_life,
};
pub use heads::{law_heads, law_heads_found};
pub use index::{law_of_searches, law_world_one_entry};
pub use latches::{law_latched_in_tries, law_world_latched};
pub use mail::{law_world_mailbox, law_world_taken};
pub use records::{
    law_device_shows_log, law_frames_show_log, law_headers_show_log, law_records_published,
    law_stands_show_log,
};
pub use results::law_world_results;
pub use seen::{law_calls_in_hand, law_world_floors, law_world_seen_rises};

// What crates above name of the laws below, beside what `specs/Below.antt` shows.
pub use law_world::{
    law_copied, law_gates, law_mail, law_of_kept_slots, law_of_the_past, law_seen, law_world_begin,
    law_world_cuts, law_world_effects, law_world_ends, law_world_flushed,
    law_world_flushed_is_synced, law_world_is_guarded, law_world_once, law_world_one_commit_stands,
    law_world_replies, law_world_requests, law_world_sessions, law_world_slots,
};
