//! What a session's straight calls keep beside its machine.
use crate::guessing::TailGuess;
use crate::hot::Handover;

/// Room for the replies of a call.
pub(crate) type Room = [u64; 64];

/// The replies of the call in hand, where the tail is expected, and what the hot part of a call hands over. It is one place in the session's
/// memory: else a call would have the address of each of them at hand, though most calls need none. An array of the call's own would have to
/// be cleared first.
#[derive(Clone, Copy)]
pub(crate) struct Aside {
    pub(crate) replies: Room,
    pub(crate) tail: TailGuess,
    pub(crate) over: Handover,
}

impl Aside {
    /// Before the first call.
    pub(crate) fn none() -> Aside {
        Aside {
            replies: [0; 64],
            tail: TailGuess::none(),
            over: Handover::none(),
        }
    }
}
