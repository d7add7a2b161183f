//! What the law of prefixes asks of the past of a life, beside its run.
#![tactic(auto)]

mod copied;
mod cuts;
mod decided;
mod durable;
mod floor;
mod laws;
mod linked;
mod phases;
mod points;
mod quiet;
mod shares;
mod versions;

pub use copied::{law_copies_cover, law_world_copied};
pub use cuts::{law_cuts_stand, law_durable_stands, law_marks_stand};
pub use decided::{
    law_addresses_taken, law_chains_below, law_commits_cut, law_commits_decided, law_commits_ended,
    law_commits_settled, law_later_above,
};
pub use durable::{law_told_are_sealed, law_told_never_falls};
pub use floor::{law_floor_stands, law_lives_are_phases};
pub use laws::{
    law_begun, law_of_worked_pasts, law_of_worked_pieces, law_phase_stored, law_versions_counted,
    law_view_is_seen,
};
pub use linked::law_links_meet_empty;
pub use phases::{
    law_phases_in_turn, law_quiet_events_are_phases, law_replies_keep_stamps, law_runs_are_safe,
    law_sessions_are_phases, law_stamps_are_loads, law_views_see_tails,
};
pub use points::{law_points_between, law_points_taken};
pub use quiet::{law_cuts_show_points, law_versions_end};
pub use shares::law_shares_not_missed;
pub use versions::{law_points_split, law_versions_bounded};

// What crates above name of the laws below, beside what `specs/Below.antt` shows.
pub use law_paper::{
    law_kept, law_kept_paper_is_sound, law_old_paper_is_sound, law_paper_is_sound,
    law_phases_are_seen,
};
pub use law_refine::{
    law_copied, law_device_shows_log, law_gates, law_heads, law_latched_in_tries, law_mail,
    law_of_kept_slots, law_of_the_past, law_records_published, law_stands_show_log,
    law_world_begin, law_world_effects, law_world_floors, law_world_flushed,
    law_world_flushed_is_synced, law_world_is_guarded, law_world_latched, law_world_once,
    law_world_one_commit_stands, law_world_one_entry, law_world_replies, law_world_requests,
    law_world_sessions,
};
