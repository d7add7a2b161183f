//! Calls come to their end, and the effects that are told are the history.
#![tactic(auto)]

mod answered;
mod beginnings;
mod effects;

pub use answered::{
    law_calls_answered, law_calls_begin, law_finish_tells, law_keeper_seeks, law_life_goes_on,
};
pub use beginnings::law_opening_begins_life;
pub use effects::{law_effects_told, law_step_tells_effect};
