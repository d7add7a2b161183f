//! What an image says of its newest commit.
ghost use Rattle.std.specs.Prelude.{◌≡◌};
ghost use Rattle.std.specs.Option.{is_some};
ghost use Rattle.fkv_newest.specs.Manifest.{Suits};

use fkv_base::Shape;
use fkv_record::{Format, ManifestSlot};

/// The shape of a store, and what its newest manifest slot says.
#[derive(Drop)]
pub struct Newest {
    pub shape: Shape,
    /// Which of the two slots is the newest, 0 or 1.
    pub index: u64,
    /// The format in which it stands.
    pub format: Format,
    /// What it says of its commit, in the words of the newest format.
    pub slot: ManifestSlot,
    /// Of slot 0 and of slot 1 the number of the commit that it names, where its gate is open. What else stands in the
    /// older one isn't looked at.
    pub open_numbers: (Option<u64>, Option<u64>),
    pub ghost fits: { Suits shape index format slot },
}

impl Newest {
    /// Whether the gate of slot 0 and that of slot 1 are open.
    pub fn gates(&self) -> (bool, bool)
        ensures gate_0 { result.0 ≡ is_some self.now.open_numbers.0 }
        ensures gate_1 { result.1 ≡ is_some self.now.open_numbers.1 }
    {
        (self.open_numbers.0.is_some(), self.open_numbers.1.is_some())
    }
}
