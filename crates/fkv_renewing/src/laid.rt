//! The pairs of a store as they come to lie in a new one.
ghost use Rattle.std.specs.Prelude.{◌≡◌, All, map};
ghost use Rattle.fkv_spread.specs.Spreading.{key_told, lies_under};
ghost use Rattle.fkv_renewing.specs.Laid.{AreLaid, laid_pair};

use fkv_base::{Key, Value};
use fkv_spread::Keys;

/// The pair as it lies, which tells its key.
fn laid_pair_of(keys: Keys, pair: (Key, Value)) -> (Key, Value)
    ensures laid { result ≡ laid_pair keys pair }
    ensures back { key_told keys (lies_under keys pair.0.0) ≡ pair.0.0 }
{
    (keys.laid(pair.0), pair.1)
}

/// Lays each key.
fn lay_each(keys: Keys, pairs: &mut [(Key, Value)])
    ensures laid { pairs.new ≡ map (laid_pair keys) pairs.old }
    ensures back { All (λ pair. key_told keys (lies_under keys pair.0.0) ≡ pair.0.0) pairs.old }
{
    for i in 0..pairs.len() {
        pairs[i] = laid_pair_of(keys, pairs[i]);
    }
}

/// Lays the keys of a store's pairs so, and orders the pairs by them again: no pair is lost, and none is added. Keys that lie as they are
/// leave all as it is. Keys of a store that lie spread already are spread a second time, since their numbers don't tell.
pub fn lay(keys: Keys, pairs: &mut Vec<(Key, Value)>)
    ensures { AreLaid keys pairs.old.items pairs.new.items }
{
    if keys == Keys::AsTheyAre {
        return;
    }
    lay_each(keys, pairs);
    pairs.sort_unstable_by_key(|pair| pair.0.0);
}
