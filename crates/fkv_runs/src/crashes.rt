//! A crash: its image, the store that is recovered from it, and the report.
ghost use Rattle.std.specs.Prelude.{ℕ, List, IfOk, IfErr, MatchOption};
ghost use Rattle.std.specs.Io.KnownBytes.{Appends};
ghost use Rattle.fkv_playing.specs.InTurn.{Writes};
ghost use Rattle.fkv_map.specs.History as histories;
ghost use Rattle.fkv_runs.specs.Crashes.{Agrees, IsCause, IsCrash, IsRefusal, IsReplay, crash_text, kept_behind};
ghost use Rattle.fkv_runs.specs.Openings.{Begins, CrashesFrom, Holds, IsRecovered, RefusesNoCall, crash_image};

use crate::crashing::Crashes;
use crate::openings::{begin, granted};
use crate::settings::Settings;
use fkv_base::{Fault, Key, Value};
use fkv_map::{HistoryEntry, kept, replay};
use fkv_opening::{Opened, recover};
use fkv_pairs::content;
use fkv_playing::Player;
use fkv_texts::{Opening, write_check, write_refusal, write_report};
use std::alloc::Global;
use std::io::{self, Write};

/// The next life, and whether the report of the crash agrees with its check.
#[derive(Drop)]
pub(crate) struct NextLife<D: Crashes> {
    pub(crate) player: Player<D>,
    pub(crate) agrees: bool,
}

/// A store that was recovered, with its pairs, over the device that holds it.
#[derive(Drop)]
struct Recovered<D: Crashes> {
    opened: Opened,
    pairs: Vec<(Key, Value)>,
    device: D,
}

/// Takes the crash of a life: recovers the store from the image that it leaves, prints the report, and begins the next life. Where
/// the image is refused, it prints the refusal, and there is none.
pub(crate) fn take_crash<D: Crashes, W: Write>(
    alloc: Global,
    output: &mut W,
    player: Player<D>,
    settings: Settings,
) -> io::Result<Option<NextLife<D>>>
    ensures { IfOk result (λ next. D.may_leave player.world.device (crash_image D.expects player.world.device settings.torn) × MatchOption next
        (Writes (IsRefusal (crash_image D.expects player.world.device settings.torn)) (W.contents output.old) (W.contents output.new))
        (λ life. CrashesFrom D.expects (crash_image D.expects player.world.device settings.torn) life.player.world.device
        × Writes (IsCrash (Holds D.honest D.seen D.may_leave D.refuses) (crash_image D.expects player.world.device settings.torn) settings.checks player life.player life.agrees) (W.contents output.old) (W.contents output.new))) }
{
    let (device, history) = player.end();
    let image = granted(device.crash(settings.torn))?;
    match recover_image(alloc, image) {
        Ok(its) => Ok(Some(report(alloc, output, its, &history, settings)?)),
        Err(Fault::Memory) => Err(io::ErrorKind::OutOfMemory.into()),
        Err(fault) => {
            write_refusal(output, fault)?;
            Ok(None)
        }
    }
}

/// The store that this device holds.
fn recover_image<D: Crashes>(alloc: Global, device: D) -> Result<Recovered<D>, Fault>
    ensures store { D.honest device → IfOk result (λ its. IsRecovered (D.seen device) its.opened its.pairs.items) }
    ensures reads { D.honest device → RefusesNoCall D.refuses device → IfOk result (λ its. Holds D.honest D.seen D.may_leave D.refuses (D.seen device) its.device) }
    ensures crashes { (image : List ℕ) → CrashesFrom D.expects image device → IfOk result (λ its. CrashesFrom D.expects image its.device) }
    ensures cause { D.honest device → IfErr result (IsCause (D.seen device)) }
{
    let mut device = device;
    let opened = recover(alloc, &mut device)?;
    let pairs = content(alloc, &opened, &mut device)?;
    Ok(Recovered {
        opened,
        pairs,
        device,
    })
}

/// Prints the report of a recovered store, checks it, and begins the next life.
fn report<D: Crashes, W: Write>(
    alloc: Global,
    output: &mut W,
    its: Recovered<D>,
    history: &[HistoryEntry],
    settings: Settings,
) -> io::Result<NextLife<D>>
    ensures { IfOk result (λ life. Begins its.opened its.device (kept_behind settings.checks history.now its.opened) settings.checks life.player
        × Agrees settings.checks (histories.kept history.now its.opened.points.items) its.pairs.items life.agrees
        × Appends (W.contents output.old) (W.contents output.new) (crash_text settings.checks its.opened its.pairs.items life.agrees)) }
{
    let Recovered {
        opened,
        pairs,
        device,
    } = its;
    let (number, points) = (opened.number, opened.points.as_slice());
    write_report(output, Opening::Crash, number, points, pairs.as_slice())?;
    let (after, agrees) = if settings.checks {
        let after = granted(kept(alloc, history, points))?;
        let agrees = is_replay(alloc, &after, &pairs)?;
        write_check(output, agrees)?;
        (after, agrees)
    } else {
        (Vec::new(alloc), true)
    };
    let player = begin(alloc, opened, device, after, settings.checks)?;
    Ok(NextLife { player, agrees })
}

/// Whether these pairs are what a replay of the updates gives.
fn is_replay(alloc: Global, history: &[HistoryEntry], pairs: &[(Key, Value)]) -> io::Result<bool>
    ensures { IfOk result (IsReplay history.now pairs.now) }
{
    let map = granted(replay(alloc, history))?;
    let told = granted(map.pairs())?;
    Ok(told.as_slice() == pairs)
}
