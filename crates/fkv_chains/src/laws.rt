//! Laws of the chains.
ghost use Rattle.fkv_base.specs.declared.faults.Fault.{Fault};
ghost use Rattle.std.specs.Prelude.{ℕ, Option};
ghost use Rattle.fkv_base.specs.declared.numbers.Addr.{Addr};
ghost use Rattle.fkv_scan.specs.declared.scans.Scanned.{Scanned};
ghost use Rattle.fkv_scan.specs.Log.{Log, AreBelow};
ghost use Rattle.fkv_scan.specs.Scanned.{AreScanned, IsEntryOf};
ghost use Rattle.fkv_chains.specs.Chains.{HasChains, IsChainFault};
ghost use Rattle.fkv_chains.specs.Entries.{HasEntry};

use fkv_record::law_spellings_apart;

/// Where the chains have no fault, none stands.
pub fn law_no_fault()
    ensures { (log : Log) (fault : Fault) → HasChains log → IsChainFault log fault → ⊥ }
{
    law_spellings_apart();
}

/// Where the scan and the chains have no fault, the entry of each home that the scan tells is the greatest of the home's
/// records that are reached and count.
pub fn law_entries()
    ensures { (log : Log) (told : Scanned) → AreBelow log.tail log.triples → AreScanned log told → HasChains log → (its_home : ℕ) (entry : Option Addr) → IsEntryOf log its_home entry → HasEntry log its_home entry }
{
    law_spellings_apart();
}
