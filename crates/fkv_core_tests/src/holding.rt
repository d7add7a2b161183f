//! What tests assert, by `hold!`.
use std::process::Abort;

pub(crate) fn holds(rt: &impl Abort, holds: bool, what: &str) {
    if !holds {
        rt.panic(what)
    }
}
