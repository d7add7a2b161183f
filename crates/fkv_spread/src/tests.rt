//! Keys that are spread, and back.
use crate::{Keys, spread, spread_back};
use fkv_base::Key;
use std::test::Fail;

#[test]
fn spreads_keys_and_tells_them_back(rt: HostRuntime) -> Result<(), Fail> {
    let word = spread(1);
    assert_eq!(rt; word, 11400714820970677676);
    assert_eq!(rt; spread_back(word), 1);
    assert!(rt; Keys::Spread.laid(Key(1)).0 == word);
    assert!(rt; Keys::AsTheyAre.told(Key(7)).0 == 7);
    Ok(())
}
