//! The engine's transition system: sessions, the keeper, the shared words and the device put together, and a life of it, event by event.
#![tactic(auto)]
