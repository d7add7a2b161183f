//! What scripts print.
#![tactic(auto)]

mod all_lives;
mod crash_reports;
mod each_life;
mod each_line;
mod interleaved;
mod new_files;
mod noted;
mod played_calls;
mod whole_calls;

pub use all_lives::{law_all_lives, law_arming_shown};
pub use crash_reports::law_crash_reports;
pub use each_life::{law_arming, law_each_life, law_lives_joined};
pub use each_line::law_each_line;
pub use interleaved::law_interleaved;
pub use new_files::law_new_files;
pub use noted::{law_arming_noted, law_noted};
pub use played_calls::{law_played_calls, law_played_scripts};
pub use whole_calls::{law_answered_alone, law_whole_calls};
