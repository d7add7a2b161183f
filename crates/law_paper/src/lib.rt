//! What of the prefix law names no machine: phases by ranks, versions at one home, what points keep, and what an image holds.
#![tactic(auto)]

mod apart;
mod kept;
mod paper;
mod phases;

pub use apart::law_apart;
pub use kept::law_kept;
pub use paper::{
    law_forgotten_agree, law_kept_paper_is_sound, law_old_paper_is_sound,
    law_opened_paper_is_sound, law_paper_is_sound, law_sound_is_store, law_values_alike,
};
pub use phases::law_phases_are_seen;

// What crates above name of the laws below, beside what `specs/Below.antt` shows.
pub use fkv_opening::law_opens_alike;
pub use fkv_pairs::law_chain_of_entry;
