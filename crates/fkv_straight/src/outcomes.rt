//! What an update comes to that goes straight.

use fkv_map::Reply;

/// What has come of an update that goes straight.
#[derive(Clone, Copy)]
pub(crate) enum Outcome {
    /// It is done, and told this.
    Done(Reply),
    /// Another session was quicker, so it has to wait, if there is room for it then.
    Contended,
    /// It has met something unusual, or another session was quicker and more is left to do: the machine goes on.
    Unusual,
}
