//! The openings of which the laws of the engine's world speak.
ghost use Rattle.law_opening.specs.Lives.Laws as lives;

use fkv_disk::Device;
use fkv_record::law_spellings_apart;
use law_paper::law_forgotten_agree;

/// The world of an opened store is one with which the guard begins, its log's records ending at the opened tail: its words and places are
/// as the guard has them then, the drain slots are empty, each session and the keeper begin as their store was opened, and nothing has
/// been called of the device. So `law_world_is_guarded`, `law_world_seen`, `law_world_once` and `law_world_flushed_is_synced` hold of
/// each life of a world that `World::open` gives.
pub fn law_guard_opens()
    ensures { lives.GuardOpens }
{}

/// It is one with which the latches begin too: none is held, there is a session for each seat, and the keeper serves just these. So
/// `law_world_latched` holds of each life of it.
pub fn law_latches_open()
    ensures { lives.LatchesOpen }
{}

/// And one with which the index begins: each home of the store's entries has just that entry and every other none, each overflow bucket that
/// is taken follows one bucket, and each session's actor rests. So `law_world_one_entry` holds of each life of it.
pub fn law_index_opens()
    ensures opened { lives.IndexOpens }
    ensures entries { lives.IndexHasItsEntries }
{}

/// Behind recovery and `World::open` a life begins, and each step of the world leads it on. A device of which a crash leaves just what is read, as
/// `recover` and `create` leave an honest one, reads as and may leave what no calls give; and the world of an opened store begins over it as a life does.
/// Each of the steps that calls of `World::step` make of an honest device goes on with every life of such a store. And where each of any steps does,
/// all of them are events of the life that begins here: it shows each world, gives each answer, and its calls are what the device has of each step.
pub fn law_device_opens<D: Device>(device: &D)
    ensures world { lives.WorldBeginsALife }
    ensures device { lives.DeviceBeginsALife D.seen D.may_leave device.now }
    ensures made { lives.MadeStepsLeadOn D.honest D.seen D.may_leave D.failed D.refuses D.expects device.now }
    ensures steps { lives.StepsAreOfTheLife D.seen D.may_leave device.now }
{}

/// The keeper of a store that was opened is told the truth of the bytes that hold it: its newest commit is in force, at the place of its number, which
/// its slot names; each gate stands open where it is told so; and its checkpoint's triples fit into their area. That the bytes end behind these
/// triples and the two slots is a premise.
pub fn law_told_opens()
    ensures { lives.KeeperIsToldTheBytes }
{}

/// The bytes end so if they reach far: at or above the end of all that their newest slot names. Those of a new store do, as `create` leaves them. And so do bytes that
/// agree with such ones but at those that count for nothing.
pub fn law_long_opens()
    ensures behind { lives.FarBytesEndBehind }
    ensures created { lives.CreatedReachesFar }
    ensures forgotten { lives.ForgottenReachFar }
{
    law_spellings_apart();
    law_forgotten_agree();
}

/// So `law_world_one_commit_stands` speaks of each life of an opened store, as long as each commit that begins has the number behind the newest finished
/// one's. And behind any steps of its world one commit stands in each image that a crash leaves of the device: the newest finished one, or, while the
/// next one is written, that one; with the triples of the checkpoint that the newest finished commit uses.
pub fn law_opened_commit_stands<D: Device>(device: &D)
    ensures told { lives.KeeperIsToldItsLife }
    ensures stands { lives.OneCommitStandsBehindSteps D.seen D.may_leave device.now }
{}
