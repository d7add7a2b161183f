//! Laws of what an image holds.
ghost use Rattle.std.specs.Prelude.{◌≡◌, ℕ, List};
ghost use Rattle.fkv_base.specs.declared.faults.Fault.{Fault};
ghost use Rattle.fkv_scan.specs.Checkpoint.{Checkpoint, IsTripleFault};
ghost use Rattle.fkv_scan.specs.Log.{Log};
ghost use Rattle.fkv_scan.specs.Scan.{IsScanFault};
ghost use Rattle.fkv_opening.specs.declared.opened_store.Opened.{Opened};
ghost use Rattle.fkv_opening.specs.Alike.{Agree, AreOne};
ghost use Rattle.fkv_opening.specs.Faults.{IsFaultOf};
ghost use Rattle.fkv_opening.specs.Opened.{IsStoreOf};

use fkv_record::{law_formats_apart, law_spellings_apart};

/// Two images that agree on what recovery reads hold the same store, or have the same fault; where that is of the chains,
/// the other image has one of the chains too.
pub fn law_opens_alike()
    ensures store { (image other : List ℕ) (opened : Opened) → Agree image other → IsStoreOf image opened → IsStoreOf other opened }
    ensures fault { (image other : List ℕ) (fault : Fault) → Agree image other → IsFaultOf image fault → (found : Fault) × IsFaultOf other found × AreOne image fault other found }
    ensures turned { (image other : List ℕ) → Agree image other → Agree other image }
{
    law_spellings_apart();
}

/// No image has two faults, unless both are of its chains, and none that holds a store has one. Two faults of the triples
/// alone, or of the scan alone, are the same.
pub fn law_one_fault()
    ensures one { (image : List ℕ) (fault other : Fault) → IsFaultOf image fault → IsFaultOf image other → AreOne image fault image other }
    ensures none { (image : List ℕ) (opened : Opened) (fault : Fault) → IsStoreOf image opened → IsFaultOf image fault → ⊥ }
    ensures triple { (at : Checkpoint) (place other : ℕ) → IsTripleFault at place → IsTripleFault at other → place ≡ other }
    ensures scan { (log : Log) (fault other : Fault) → IsScanFault log fault → IsScanFault log other → fault ≡ other }
{
    law_formats_apart();
    law_spellings_apart();
}
