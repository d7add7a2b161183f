//! What the laws of each machine say in every life of the engine; that one commit stands whatever a crash leaves; and that the engine
//! refines the guard of frames and epochs: who may write where, and when an action runs.
#![tactic(auto)]

mod guard_keeper;
mod guard_reads;
mod guard_sessions;
mod guarded;
mod keeper;
mod runs;
mod sessions;
mod standing;

pub use guard_keeper::{law_keeper_calls, law_keeper_followed};
pub use guard_reads::{law_reads, law_reads_ends, law_reads_places, law_reads_slots};
pub use guard_sessions::{law_sessions_followed, law_sessions_permitted};
pub use guarded::{
    law_world_ends, law_world_flushed, law_world_flushed_is_synced, law_world_is_guarded,
    law_world_once, law_world_permitted, law_world_places, law_world_seen, law_world_sleepers,
    law_world_slots,
};
pub use keeper::{
    law_world_begin, law_world_checkpoints, law_world_keeper, law_world_one_commit_stands,
};
pub use runs::{
    law_of_a_crash, law_of_ends, law_of_lives, law_of_nothing_to_do, law_of_one_word,
    law_of_others, law_of_own_events, law_of_own_runs, law_of_slots, law_of_starts,
    law_of_the_device, law_of_the_past,
};
pub use sessions::{
    law_world_answers, law_world_cuts, law_world_effects, law_world_latches, law_world_reads,
    law_world_refusals, law_world_replies, law_world_requests, law_world_sessions, law_world_told,
};
pub use standing::{law_of_slot_places, law_one_commit_stands};

// What crates above name of the laws below, beside what `specs/Below.antt` shows.
pub use fkv_checkpoint::law_copied;
pub use fkv_flush::{law_mail, law_seen};
pub use fkv_keeper::law_of_slots as law_of_kept_slots;
pub use fkv_manifest::law_gates;
pub use fkv_pending::law_mailbox;
