//! The order law: the induction over events, and each life's one legal history. What a crash's image holds of a life (`images`), and so the
//! law of prefixes (`prefix`, `recovered`).
#![tactic(auto)]

mod asked;
mod decided;
mod enabled;
mod fits;
mod images;
mod in_turn;
mod known;
mod looks;
mod new_lives;
mod one_history;
mod opened;
mod ordered;
mod prefix;
mod reads;
mod recovered;
mod rows;
mod rules;
mod served;
mod shares;
mod tickets;
mod told;
mod truth;
mod versions;

pub use asked::law_world_asked;
pub use decided::{law_chains_open, law_cut_opens, law_decided_opens, law_old_opens};
pub use enabled::law_world_enabled;
pub use fits::law_opening_fits;
pub use images::{
    law_commits_end_flushed, law_commits_fit, law_commits_lose_the_rest,
    law_commits_write_their_copy, law_images_are_long, law_images_hold_triples,
    law_images_keep_old, law_images_keep_their_shape, law_images_name_a_begun,
    law_images_name_their_commit, law_images_read_back, law_images_show_log,
};
pub use in_turn::{
    law_commit_always_stands, law_ends_open, law_floor_opens, law_phases_open, law_points_open,
    law_versions_open,
};
pub use known::law_sessions_begin;
pub use looks::law_looks_true;
pub use new_lives::law_life_exists;
pub use one_history::{
    law_history_beside, law_live, law_lives_keep_order, law_lives_keep_rules, law_order,
    law_untold_reads, law_waiting_reads,
};
pub use opened::{
    law_copies_open, law_links_open, law_marks_open, law_serials_open, law_stages_open,
};
pub use ordered::{law_rules_kept, law_world_ordered};
pub use prefix::{
    law_commits_in_turn, law_durable_is_sealed, law_durable_never_falls, law_finished_is_told,
    law_join, law_lives, law_points_are_fair, law_replays_kept, law_slots_open,
};
pub use reads::law_world_reads;
pub use recovered::{
    law_crash_keeps_first, law_forgotten, law_images_hold, law_images_keep_checkpoint,
    law_images_recovered, law_images_show_life, law_images_use_checkpoints, law_life_after_crash,
    law_log_in_order, law_named_hold, law_opened_log_stands, law_points_keep, law_prefix,
    law_scans_start_above,
};
pub use rows::{law_requests_asked, law_rows_go_on, law_waits_stay};
pub use rules::{law_cuts_open, law_life_begins, law_order_of_rules};
pub use served::law_world_served;
pub use shares::{law_lives_count_shares, law_shares_open, law_updates_share};
pub use tickets::law_tickets_apart;
pub use told::law_world_told;
pub use truth::law_world_truth;
pub use versions::{law_lives_bound_versions, law_lives_end_versions, law_lives_take_points};

// What crates above name of the laws below, beside what `specs/Below.antt` shows.
pub use law_commit::{law_of_the_past, law_world_requests, law_world_sessions};
pub use law_opening::{
    law_device_opens, law_guard_opens, law_log_opened, law_long_opens, law_new_stores,
};
