//! The index: how the slot of a home is found among the slots of its bucket and of the overflow buckets that follow, how an
//! overflow bucket is taken and linked, and how an entry is published. Each machine makes one ask at a time.
#![tactic(auto)]

mod finding;
mod homes;
mod laws;
mod publishing;
mod slot_words;

pub use finding::{Find, FindAnswer, Found, Purpose};
pub use homes::{Home, home_of};
pub use laws::{
    law_entries, law_homes, law_of_the_eighth_entry, law_one_entry, law_orders, law_searches,
};
pub use publishing::{Publish, PublishAnswer};
pub use slot_words::{SlotWord, slot_word};
