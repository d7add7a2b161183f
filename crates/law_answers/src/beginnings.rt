//! A life begins where a store was opened.
ghost use Rattle.law_answers.specs.Answered.Beginnings as beginnings;

use fkv_disk::Device;
use law_opening::{law_device_opens, law_guard_opens};

/// With a world that `World::open` gives over this device begins a life of its store, in which nothing has happened yet, where the device is
/// honest and a crash leaves of it just what is read (`synced`). So it is where `recover` has answered `Ok` over a device that was honest
/// before, and where `create_opened` has: what is supposed then is what their contracts say, and `World::open`'s. Nothing is supposed of how
/// long the bytes are.
pub fn law_opening_begins_life<D: Device>(device: &D)
    ensures synced { beginnings.SyncedBeginsALife D.honest D.seen D.may_leave device.now }
    ensures recovered { beginnings.RecoveredBeginsALife D.honest D.seen D.may_leave D.moment D.left_since D.failed device.now }
    ensures created { beginnings.CreatedBeginsALife D.honest D.seen D.may_leave device.now }
{
    law_guard_opens();
    law_device_opens(device);
}
