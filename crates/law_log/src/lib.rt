//! The order of effects over a log of cells and chains, with no words, frames or machines.
#![tactic(auto)]

mod laws;

pub use laws::{
    law_calls_in_order, law_chains_fall, law_chains_show_content, law_live_stays,
    law_of_worked_runs, law_versions_show_content, law_walks_do_without,
};
