//! Whether a store spreads its caller's keys.
ghost use Rattle.std.specs.Prelude.{◌≡◌};
ghost use Rattle.fkv_spread.specs.Spreading.{key_told, lies_under};

use crate::spreading::{spread, spread_back};
use fkv_base::Key;

/// How the keys of a store's caller lie in it. A store that is opened the other way finds none of them.
#[derive(Clone, Copy, Debug, PartialEq, Eq)]
pub enum Keys {
    /// Spread by the library.
    Spread,
    /// As they are: the caller spreads them, or needn't.
    AsTheyAre,
}

impl Keys {
    /// The key under which the caller's key lies in the store.
    #[inline(always)]
    pub fn laid(self, key: Key) -> Key
        ensures laid { result.0 ≡ lies_under self key.0 }
        ensures back { key_told self result.0 ≡ key.0 }
    {
        match self {
            Keys::Spread => Key(spread(key.0)),
            Keys::AsTheyAre => key,
        }
    }

    /// The caller's key that lies under this one.
    #[inline(always)]
    pub fn told(self, laid: Key) -> Key
        ensures told { result.0 ≡ key_told self laid.0 }
        ensures back { lies_under self result.0 ≡ laid.0 }
    {
        match self {
            Keys::Spread => Key(spread_back(laid.0)),
            Keys::AsTheyAre => laid,
        }
    }
}
