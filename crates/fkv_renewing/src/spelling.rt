//! The bytes of the log.
ghost use Rattle.std.specs.Prelude.{◌≡◌, ◌<◌, ◌^◌, IfOk, OnErr, Err, length};
ghost use Rattle.std.specs.List.{flat_map};
ghost use Rattle.fkv_base.specs.declared.faults.Fault.TheVariants.{Memory};
ghost use Rattle.fkv_record.specs.Layout.{record_bytes};

use fkv_base::Fault;
use fkv_record::{Record, write_record};
use std::alloc::Global;

/// The bytes of the records, one behind another.
pub(crate) fn log_bytes(alloc: Global, records: &[Record]) -> Result<Vec<u8>, Fault>
    requires { length records.now < 2 ^ 48 }
    ensures ok { IfOk result (λ bytes. bytes.items ≡ flat_map record_bytes records.now) }
    ensures err { OnErr result (result ≡ Err Memory) }
{
    let mut bytes = Vec::with_capacity(alloc, 24 * records.len())?;
    for i in 0..records.len() {
        bytes.extend_from_slice(&write_record(records[i]))?;
    }
    Ok(bytes)
}
