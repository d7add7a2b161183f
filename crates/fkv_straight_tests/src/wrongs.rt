//! What may be wrong where both bodies are compared.
use fkv_base::Fault;

#[derive(Clone, Copy)]
pub(crate) enum Wrong {
    Refused(Fault),
    NoMemory,
    NoSession,
    Endless,
    Asks,
    Finished,
    Serials,
    Words,
    Keepers,
}

impl Wrong {
    pub(crate) fn said(self) -> &'static str {
        match self {
            Wrong::Refused(_) => "a store isn't opened",
            Wrong::NoMemory => "memory is refused",
            Wrong::NoSession => "there is no such session",
            Wrong::Endless => "a call doesn't end",
            Wrong::Asks => "they ask, or are told, something else",
            Wrong::Finished => "their polls have finished something else",
            Wrong::Serials => "their last serials differ",
            Wrong::Words => "a word differs",
            Wrong::Keepers => "one keeper is through, and the other isn't",
        }
    }
}

impl From<Fault> for Wrong {
    fn from(fault: Fault) -> Wrong {
        Wrong::Refused(fault)
    }
}
