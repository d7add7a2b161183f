//! One chain.
ghost use Rattle.std.specs.Prelude.{◌≡◌, ℕ, ◌<◌, ◌≤◌, ◌^◌, ◌↔◌, List, OnOk, IfErr};
ghost use Rattle.fkv_record.specs.declared.triples.Triple.{Triple};
ghost use Rattle.fkv_scan.specs.Log.{log_in};
ghost use Rattle.fkv_disk.specs.Kinds.{OnlyReads};
ghost use Rattle.fkv_disk.specs.Quiet.{IsQuiet};
ghost use Rattle.fkv_chains.specs.Along.{IsFollowed, IsToFollow};
ghost use Rattle.fkv_chains.specs.Refused.{IsRefused};

use crate::readings::{record_at, record_home};
use fkv_base::{Addr, Damage, Fault, Shape};
use fkv_disk::Device;
use fkv_record::{ManifestSlot, from_or_none};

/// Follows the chain of a home from an address below the scan's start down to its end. The fault of the first record that
/// has one.
pub(crate) fn follow<D: Device>(
    d: &mut D,
    shape: Shape,
    slot: &ManifestSlot,
    home: u64,
    from: Addr,
) -> Result<(), Fault>
    requires below { from.0 ≤ slot.now.first.0 }
    requires short { slot.now.first.0 < 2 ^ 48 }
    ensures ok { (triples : List Triple) → D.honest d.old → OnOk result (IsFollowed (log_in (D.seen d.old) shape slot.now triples) home from.0) }
    ensures err { (triples : List Triple) → IfErr result (IsRefused (D.failed d.old) (D.failed d.new) (D.honest d.old × IsToFollow (log_in (D.seen d.old) shape slot.now triples) home from.0) (log_in (D.seen d.old) shape slot.now triples)) }
    ensures quiet { IsQuiet D.honest D.seen D.may_leave D.moment D.left_since D.failed d.old d.new }
    ensures reads { OnlyReads D.refuses D.expects d.old d.new }
{
    let mut addr = from;
    while addr.0 != 0 {
        let Some(found) = record_at(d, shape, addr)? else {
            return Err(Fault::Damaged(Damage::Record, addr.0));
        };
        let previous = from_or_none(slot.begin, found.header.previous);
        if found.header.version.0 > slot.number || previous.0 >= addr.0 {
            return Err(Fault::Damaged(Damage::Record, addr.0));
        }
        if found.header.invalid || record_home(&found, shape.bucket_bits) != home {
            return Err(Fault::Damaged(Damage::Link, addr.0));
        }
        addr = previous;
    }
    Ok(())
}
