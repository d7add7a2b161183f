//! Recovery starts a run. In each life from there sessions change in place only what is published, and the numbers of the log fit in words.
#![tactic(auto)]

mod changing;
mod fitting;
mod lives;
mod log;
mod published;
mod worlds;

pub use changing::{law_lives_are_above, law_lives_change_published};
pub use fitting::{law_lives_fit, law_logs_fit};
pub use lives::{
    law_device_opens, law_guard_opens, law_index_opens, law_latches_open, law_long_opens,
    law_opened_commit_stands, law_told_opens,
};
pub use log::{
    law_log_above, law_log_begins, law_log_beside, law_log_counted, law_log_heads, law_log_opened,
    law_lost_is_the_rest, law_maps_alike,
};
pub use published::law_changes_published;
pub use worlds::law_world_exists;

// What crates above name of the laws below, beside what `specs/Below.antt` shows.
pub use fkv_core::{World, law_words_open};
pub use fkv_creating::law_new_stores;
pub use law_paper::{law_forgotten_agree, law_opens_alike};
pub use law_refine::{law_world_ends, law_world_slots};
