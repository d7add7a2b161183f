//! Laws of the newest slot.
ghost use Rattle.std.specs.Prelude.{◌≡◌, ℕ, List};
ghost use Rattle.fkv_base.specs.declared.faults.Fault.{Fault};
ghost use Rattle.fkv_newest.specs.declared.newest_slots.Newest.{Newest};
ghost use Rattle.fkv_newest.specs.Newest.{IsNewestOf, IsNewestFault, ShowSame};

use fkv_record::law_spellings_apart;

/// Where an image tells of its newest slot, none of the two stages finds a fault.
pub fn law_no_fault()
    ensures { (image : List ℕ) (n : Newest) (fault : Fault) → IsNewestOf image n → IsNewestFault image fault → ⊥ }
{
    law_spellings_apart();
}

/// No image has two faults that the two stages find.
pub fn law_one_fault()
    ensures { (image : List ℕ) (fault other : Fault) → IsNewestFault image fault → IsNewestFault image other → fault ≡ other }
{}

/// Two images that show the two stages the same tell the same, and have the same faults.
pub fn law_read_alike()
    ensures told { (image other : List ℕ) (n : Newest) → ShowSame image other → IsNewestOf image n → IsNewestOf other n }
    ensures faults { (image other : List ℕ) (fault : Fault) → ShowSame image other → IsNewestFault image fault → IsNewestFault other fault }
{}
