//! Laws of the scan.
ghost use Rattle.fkv_base.specs.declared.faults.Fault.{Fault};
ghost use Rattle.fkv_scan.specs.Log.{Log};
ghost use Rattle.fkv_scan.specs.Scan.{HasScan, IsScanFault};

use fkv_record::law_spellings_apart;

/// Where the scan finds no fault, none stands.
pub fn law_no_fault()
    ensures { (log : Log) (fault : Fault) → HasScan log → IsScanFault log fault → ⊥ }
{
    law_spellings_apart();
}
