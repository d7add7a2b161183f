//! The calls of the device that a machine tells before they are made.
ghost use Rattle.std.specs.Prelude.{◌≡◌, ◌≤◌, ◌↔◌, [], is_ok, true};
ghost use Rattle.fkv_disk.specs.Asks.{first_asked, kinds_by};
ghost use Rattle.fkv_disk.specs.Device.{Elapses, HasCause, MakesCalls};
ghost use Rattle.fkv_manifest.specs.Devices.{DoesNext, calls_told, next_made};
ghost use Rattle.fkv_manifest.specs.Made.{with_call};

use fkv_base::Fault;
use fkv_disk::Device;

/// The call of the device that comes next.
#[derive(Clone, Copy)]
pub enum NextCall<'a> {
    /// A write of these bytes from this offset on.
    Writes(u64, &'a [u8]),
    /// A sync.
    Syncs,
}

/// Makes the call that comes next, where there is one.
pub(crate) fn make_call<D: Device>(next: Option<NextCall>, d: &mut D) -> Result<(), Fault>
    ensures cause { HasCause (D.failed d.old) (D.failed d.new) result }
    ensures counted { MakesCalls (calls_told next.entry) (D.refuses d.old) (D.refuses d.new) result }
    ensures kind { D.expects d.new ≡ kinds_by (first_asked (with_call (next_made next.entry true) [])) (is_ok result) (D.expects d.old) }
    ensures honest { D.honest d.old ↔ D.honest d.new }
    ensures does { D.honest d.old → DoesNext (next_made next.entry (is_ok result)) (D.seen d.old) (D.seen d.new) (D.may_leave d.old) (D.may_leave d.new) }
    ensures time { D.honest d.old → Elapses (D.moment d.old) (D.moment d.new) (D.left_since d.old) (D.left_since d.new) (D.may_leave d.new) }
{
    match next {
        Some(NextCall::Writes(at, bytes)) => d.write(at, bytes),
        Some(NextCall::Syncs) => d.sync(),
        None => Ok(()),
    }
}
