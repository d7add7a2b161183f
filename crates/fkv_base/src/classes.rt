//! The class of a store.
ghost use Rattle.std.specs.Prelude.{◌≡◌, ◌<◌};
ghost use Rattle.fkv_base.specs.Limits.{last_of};

use crate::numbers::Version;

/// The last version of a specified store.
const LAST_SPECIFIED: u64 = 8191;

/// Which limits the sizes of a store have, and which text begins its image.
#[derive(Clone, Copy, Debug, PartialEq, Eq)]
pub enum StoreClass {
    /// The small limits: a `shape` line, and the text `FKVSTOR1`.
    Specified,
    /// The large limits: a `large` line, and the text `FKVSTOR2`.
    Living,
}

impl StoreClass {
    /// The last version that a store of this class can have.
    #[inline]
    pub fn last_version(self) -> u64
        ensures is { result ≡ last_of self }
        ensures some { 0 < result }
    {
        match self {
            StoreClass::Specified => LAST_SPECIFIED,
            StoreClass::Living => Version::LAST,
        }
    }
}
