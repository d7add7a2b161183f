//! The program's run, with what the laws add to its contract.
ghost use Rattle.std.specs.Prelude.{◌≡◌, ◌≢◌};
ghost use Rattle.fkv.specs.Said as said;

use fkv_disk::{Device, Fuse, MemDisk};
use fkv_files::StorePlaces;
use fkv_playing::Breaks;
use fkv_runs::Crashes;
use law_program::{
    law_all_lives, law_arming, law_arming_noted, law_arming_shown, law_crash_reports,
    law_each_life, law_each_line, law_lives_joined, law_new_files, law_played_calls,
    law_played_scripts,
};
use std::alloc::Global;
use std::io::{Read, Write};

/// Runs the program, as `fkv_cli::run` does.
///
/// With status 0, a script of operations alone for a new store, in memory (`replies`) or in a file (`file_replies`), of which none is interleaved with another,
/// prints what the plain map says: each reply is the map's on the operations so far, and each read gives its key's value. An operation that has to wait, or is
/// refused, says so and leaves the map.
///
/// Each line of an operation is answered so in every other script without a seed, by the map of the history so far, in a life that shows the world (`lines`,
/// `file_lines`). So over a file a life goes on by each line as in memory, if the devices of files are honest (`each_file_line`). The life of a new store is
/// such a one as it begins (`law_new_files`).
///
/// In memory a life goes on by each line of a call too, by the keeper's and by each finish, and shows the device behind it (`each_line`). What a poll has
/// finished is as the history says. A read gives a value that its key had since the read's call: in a life without a trim so far, the one at the call. Just
/// the commits finish that turns tell as finished. Each life begins so, the first one and each behind a crash (`lives`). A line by which a call of the
/// device is to fail, or a crash to strike, leaves it (`armed`). So the pieces of a script that are played in memory go on, each in the life in hand, or
/// behind a crash in the next one (`runs`). A script for a new store in memory, of which no call is interleaved with another, has printed so (`in_lives`).
///
/// The report of a crash is of the store that one current commit keeps of such a life, and no image of a crash is refused but by the device (`kept`).
///
/// Take a script for a new store in memory, with a seed or without. Each of its crashes reports what its points keep of all lives before. If the words ask for
/// checks, each of these reports ends in the line that says that the recovered store equals the replay (`all_lives`).
///
/// A script's lines are few, and so are the calls that begin in its lives.
pub fn run<S: StorePlaces, R: Read + Drop, W: Write, E: Write>(
    places: &S,
    alloc: Global,
    words: &[&str],
    input: R,
    output: &mut W,
    complaints: &mut E,
) -> u8
where
    S::Disk: Breaks,
    ensures whole { result ≢ 4 → said.Writes (said.IsOutputOf (said.devices_of
        (said.memory_of ⟦<Fuse<MemDisk> as Device>⟧ ⟦<Fuse<MemDisk> as Breaks>⟧.broken
        ⟦<Fuse<MemDisk> as Crashes>⟧.armed)
        (said.files_of S.Disk.Device S.Disk.broken (S.is_opened places.now) (S.is_made places.now)))
        (said.texts words.now) (R.remaining input) result) (W.contents output.old) (W.contents output.new) }
    ensures part { result ≡ 4 → said.BreaksOff (said.IsOutputOf (said.devices_of
        (said.memory_of ⟦<Fuse<MemDisk> as Device>⟧ ⟦<Fuse<MemDisk> as Breaks>⟧.broken
        ⟦<Fuse<MemDisk> as Crashes>⟧.armed)
        (said.files_of S.Disk.Device S.Disk.broken (S.is_opened places.now) (S.is_made places.now)))
        (said.texts words.now) (R.remaining input) 4) (W.contents output.old) (W.contents output.new) }
    ensures replies { result ≡ 0 → said.Writes (said.PrintsMapOfScript (said.texts words.now) (R.remaining input))
        (W.contents output.old) (W.contents output.new) }
    ensures file_replies { result ≡ 0 → said.Writes (said.PrintsMapOfFileScript (said.texts words.now) (R.remaining input))
        (W.contents output.old) (W.contents output.new) }
    ensures lines { said.ReplyLineByLine (said.step_of ⟦<Fuse<MemDisk> as Device>⟧ ⟦<Fuse<MemDisk> as Breaks>⟧.broken) }
    ensures each_line { said.EachLineGoesOn ⟦<Fuse<MemDisk> as Device>⟧.seen ⟦<Fuse<MemDisk> as Device>⟧.may_leave
        (said.step_of ⟦<Fuse<MemDisk> as Device>⟧ ⟦<Fuse<MemDisk> as Breaks>⟧.broken) }
    ensures lives { said.LivesGoOn ⟦<Fuse<MemDisk> as Device>⟧.seen ⟦<Fuse<MemDisk> as Device>⟧.may_leave (said.holds_of ⟦<Fuse<MemDisk> as Device>⟧) }
    ensures kept { said.CrashesTakeWhatIsKept ⟦<Fuse<MemDisk> as Device>⟧.seen
        (said.memory_of ⟦<Fuse<MemDisk> as Device>⟧ ⟦<Fuse<MemDisk> as Breaks>⟧.broken
        ⟦<Fuse<MemDisk> as Crashes>⟧.armed) }
    ensures armed { said.ArmingGoesOn ⟦<MemDisk as Device>⟧.seen ⟦<MemDisk as Device>⟧.may_leave }
    ensures runs { (settings : said.Settings) → said.RunsGoOn ⟦<Fuse<MemDisk> as Device>⟧.seen ⟦<Fuse<MemDisk> as Device>⟧.may_leave
        (said.memory_of ⟦<Fuse<MemDisk> as Device>⟧ ⟦<Fuse<MemDisk> as Breaks>⟧.broken
        ⟦<Fuse<MemDisk> as Crashes>⟧.armed) settings }
    ensures in_lives { result ≢ 4 → said.Writes (said.PrintsInLives ⟦<Fuse<MemDisk> as Device>⟧.seen ⟦<Fuse<MemDisk> as Device>⟧.may_leave
        (said.memory_of ⟦<Fuse<MemDisk> as Device>⟧ ⟦<Fuse<MemDisk> as Breaks>⟧.broken
        ⟦<Fuse<MemDisk> as Crashes>⟧.armed)
        (said.texts words.now) (R.remaining input) result) (W.contents output.old) (W.contents output.new) }
    ensures all_lives { result ≢ 4 → said.Writes (said.ReportsOfAllLives ⟦<Fuse<MemDisk> as Device>⟧.seen ⟦<Fuse<MemDisk> as Device>⟧.may_leave
        (said.memory_of ⟦<Fuse<MemDisk> as Device>⟧ ⟦<Fuse<MemDisk> as Breaks>⟧.broken
        ⟦<Fuse<MemDisk> as Crashes>⟧.armed)
        (said.texts words.now) (R.remaining input) result) (W.contents output.old) (W.contents output.new) }
    ensures file_lines { said.ReplyLineByLine (said.step_of S.Disk.Device S.Disk.broken) }
    ensures each_file_line { ((device : S.Disk) → S.Disk.honest device) → said.EachLineGoesOn S.Disk.seen S.Disk.may_leave
        (said.step_of S.Disk.Device S.Disk.broken) }
{
    law_played_scripts::<Fuse<MemDisk>, S::Disk>();
    law_new_files::<Fuse<MemDisk>, S::Disk>();
    law_played_calls::<Fuse<MemDisk>>();
    law_each_line::<Fuse<MemDisk>>();
    law_each_life::<Fuse<MemDisk>>();
    law_crash_reports::<Fuse<MemDisk>>();
    law_arming::<MemDisk>();
    law_lives_joined::<Fuse<MemDisk>>();
    law_all_lives::<Fuse<MemDisk>>();
    law_arming_shown::<MemDisk>();
    law_arming_noted::<MemDisk>();
    law_played_calls::<S::Disk>();
    law_each_line::<S::Disk>();
    fkv_cli::run(places, alloc, words, input, output, complaints)
}
