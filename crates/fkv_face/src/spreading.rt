//! Keys as they lie in a store that spreads them.
ghost use Rattle.std.specs.Prelude.{◌≡◌};
ghost use Rattle.fkv_spread.specs.Spreading as says;

use fkv_spread::{spread, spread_back};

/// The number under which a key lies in a store that spreads its keys.
#[unsafe(no_mangle)]
pub extern "C" fn fkv_spread(key: u64) -> u64
    ensures word { result ≡ says.spread_word key }
    ensures back { says.gathered_word result ≡ key }
{
    spread(key)
}

/// The key that lies under this number there: for who reads the pairs of a store by another program.
#[unsafe(no_mangle)]
pub extern "C" fn fkv_spread_back(word: u64) -> u64
    ensures key { result ≡ says.gathered_word word }
    ensures back { says.spread_word result ≡ word }
{
    spread_back(word)
}
