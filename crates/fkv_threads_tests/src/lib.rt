//! Tests of the calls on threads, and controls: right bodies, each of the shape of a wrong one that has to be refused.
#![tactic(auto)]

mod controls;
#[cfg(test)]
mod one_thread;

pub use controls::{
    call_a_rebuilt_operation, call_a_rebuilt_update, call_by_cases, call_with_a_flag,
    tell_a_rebuilt_point, tell_a_rebuilt_reply, tell_a_rebuilt_value,
};
