//! What a device meets of steps, and what a crash behind them takes.
ghost use Rattle.law_calls.specs.Calls.{StepsMakeOneCall};
ghost use Rattle.law_calls.specs.Crashes.{CrashesTakeWhatIsMet, CrashesTakeWhatStepsNote};
ghost use Rattle.law_calls.specs.Met.{StepsMakeWhatTheyNote};
ghost use Rattle.law_calls.specs.Stands.{FusesStandBehindCalls};

use fkv_disk::{Device, Fuse, MemDisk};

/// A step of the engine that writes or syncs makes this one call of its device, and no other. Any other step makes none or one, which is a read. So an
/// engine that syncs behind each write, or before it, is none of these, whatever its device is.
pub fn law_of_one_call<D: Device>()
    ensures { StepsMakeOneCall D.Device }
{}

/// Over any steps of the engine its device has met the writes and syncs that their past notes, and else reads. It has met each as it was noted: at its place,
/// with its bytes, and whether it came through.
pub fn law_of_noted_calls<D: Device>()
    ensures { StepsMakeWhatTheyNote D.Device }
{}

/// A crash in memory takes the image of the calls that its device has met, by the rule: each byte that was written and not synced since is torn, and each
/// other one is what was written last. If the fuse blew at a write, all of its range is torn. Behind steps of the engine these are the writes and syncs that
/// they note. The image is the one of a run's crash line. So a memory that notes another call than was made, or none, isn't proved.
pub fn law_of_crashes()
    ensures met { CrashesTakeWhatIsMet ⟦<Fuse<MemDisk> as Device>⟧ }
    ensures steps { CrashesTakeWhatStepsNote ⟦<Fuse<MemDisk> as Device>⟧ }
{}

/// A fuse around a device in memory stands as the calls have left it that it has met, if it has let each pass. So it is known how it stands where it is armed
/// between steps, and which image a crash takes behind the steps from there on.
pub fn law_of_standing_fuses()
    ensures { FusesStandBehindCalls ⟦<Fuse<MemDisk> as Device>⟧ }
{}
