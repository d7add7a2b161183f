//! The world of a store that was opened.
ghost use Rattle.std.specs.Prelude.{◌≡◌, ◌≤◌, length, IfOk, OnErr, Err};
ghost use Rattle.fkv_base.specs.Limits.{max_sessions};
ghost use Rattle.fkv_base.specs.declared.faults.Fault.TheVariants.{Memory};
ghost use Rattle.fkv_keeper.specs.KeeperRun.{IsOpened};
ghost use Rattle.fkv_keeper.specs.NewKeepers.{IsNewKeeper};
ghost use Rattle.fkv_core.specs.Openings.{AreOpeningSitters, IsOpeningSeen, IsOpeningWorld, area_numbered, beginning, newest_commit};
ghost use Rattle.fkv_world.specs.Opened.{IsOpenedWorld};

use crate::opening_words::opening_plane;
use crate::worlds::World;
use arrayvec::ArrayVec;
use fkv_base::{Fault, Serial};
use fkv_disk::Device;
use fkv_keeper::{Area, Checkpoint, Keeper, LastCommit, MAX_LOST_IN_HAND, MAX_POINTS};
use fkv_log::SeenOffsets;
use fkv_opening::Opened;
use fkv_ops::Seen;
use fkv_record::LostRange;
use fkv_session::Session;
use std::alloc::Global;

impl<D: Device + Drop> World<D> {
    /// The world of a store that was opened on this device: every session is awake, and nothing is in hand. `Memory`
    /// where memory was refused; then all that was handed in is dropped, the device too.
    pub fn open(alloc: Global, opened: Opened, device: D) -> Result<World<D>, Fault>
        ensures world { IfOk result (λ world. IsOpeningWorld opened world.now) }
        ensures opened { IfOk result (λ world. IsOpenedWorld (beginning world.now (D.seen device))) }
        ensures device { IfOk result (λ world. world.device ≡ device) }
        ensures err { OnErr result (result ≡ Err Memory) }
    {
        let words = opening_plane(alloc, &opened)?;
        let sessions = opening_sessions(alloc, &opened)?;
        let keeper = opening_keeper(alloc, &opened)?;
        Ok(World {
            words,
            sessions,
            keeper,
            device,
            crashed: false,
        })
    }
}

/// A session for each seat: each has seen what the words say, its point is its last serial, and its floor is the log's begin.
#[tactic(auto, using(crate::proofs::Sitters::none_sit))]
fn opening_sessions(alloc: Global, opened: &Opened) -> Result<Vec<Session>, Fault>
    ensures seats { IfOk result (λ sessions. length sessions.items ≡ opened.now.shape.sessions) }
    ensures made { IfOk result (λ sessions. AreOpeningSitters opened.now sessions.items) }
    ensures err { OnErr result (result ≡ Err Memory) }
{
    let seen = seen_at_opening(opened);
    let mut sessions = Vec::new(alloc);
    for (number, point) in opened.points.iter().enumerate() {
        sessions.push(Session::new(opened.shape, number, seen, *point, opened.begin))?;
    }
    Ok(sessions)
}

/// What the words show a session that loads them.
fn seen_at_opening(opened: &Opened) -> Seen
    ensures { IsOpeningSeen opened.now result }
{
    let words = opened.words();
    Seen {
        phase: words.phase.phase,
        version: words.phase.version,
        offsets: SeenOffsets {
            head: words.head,
            read_only: words.read_only,
        },
    }
}

/// The keeper, at the newest finished commit, with the lost ranges in hand.
fn opening_keeper(alloc: Global, opened: &Opened) -> Result<Keeper, Fault>
    ensures made { IfOk result (λ keeper. IsNewKeeper opened.now.shape (newest_commit opened.now) opened.now.lost.items keeper) }
    ensures opened { IfOk result (λ keeper. IsOpened keeper.state) }
    ensures err { OnErr result (result ≡ Err Memory) }
{
    Keeper::new(
        alloc,
        opened.shape,
        newest_commit(opened),
        ranges_listed(&opened.lost),
    )
}

/// The newest finished commit, with the checkpoint that it uses.
fn newest_commit(opened: &Opened) -> LastCommit
    ensures { record { number = result.number; begin = result.begin; points = result.points.items; checkpoint = result.checkpoint; gates = result.gates } ≡ newest_commit opened.now }
{
    let used = opened.checkpoint;
    LastCommit {
        number: opened.number,
        begin: opened.begin,
        points: points_listed(&opened.points),
        checkpoint: Checkpoint {
            number: used.number,
            first: used.first,
            triples: used.triples,
            area: area_numbered(used.area),
        },
        gates: opened.gates,
    }
}

/// The points, in the list that the keeper has.
fn points_listed(points: &[Serial]) -> ArrayVec<Serial, MAX_POINTS>
    requires { length points.now ≤ max_sessions }
    ensures { result.items ≡ points.now }
{
    let mut listed = ArrayVec::new();
    let _ = listed.try_extend_from_slice(points);
    listed
}

/// The lost ranges, in the list that the keeper has.
fn ranges_listed(ranges: &[LostRange]) -> ArrayVec<LostRange, MAX_LOST_IN_HAND>
    requires { length ranges.now ≤ 9 }
    ensures { result.items ≡ ranges.now }
{
    let mut listed = ArrayVec::new();
    let _ = listed.try_extend_from_slice(ranges);
    listed
}

/// The area of this number, 0 or 1.
fn area_numbered(number: u64) -> Area
    ensures { result ≡ area_numbered number }
{
    if number == 0 {
        Area::First
    } else {
        Area::Second
    }
}
