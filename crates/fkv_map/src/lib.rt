//! The plain map: operations, replies and histories, and a map that runs them. What the store does is compared with it.
#![tactic(auto)]

mod history;
mod laws;
mod merges;
mod operations;
mod plain_map;

pub use history::{HistoryEntry, kept, replay};
pub use laws::{
    law_by_key, law_content_append, law_each_once, law_keep, law_kept_again, law_kept_whole,
    law_legal_append, law_legal_firsts, law_lives_follow, law_one_more, law_whole_up_to_points,
};
pub use merges::Merge;
pub use operations::{Call, Op, Reply};
pub use plain_map::PlainMap;
