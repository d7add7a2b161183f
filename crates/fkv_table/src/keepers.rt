//! The keeper's calls at the table.
ghost use Rattle.std.specs.Prelude.{◌≡◌, ◌<◌, ◌≤◌, ◌↔◌, ℕ, Bool, Some, None, [], true, false, not, is_some, is_ok};
ghost use Rattle.fkv_table.specs.Said as said;

use crate::performing::perform;
use crate::positions::Part;
use crate::rule::{Knows, Place, Slot, Table, Words};
use crate::turns::Leave;
use atomic_table::Play;
use fkv_base::{Addr, CommitKind, Fault, Key, Version};
use fkv_checkpoint::CopyRoom;
use fkv_disk::Device;
use fkv_keeper::{KeeperAsk, KeeperTold, Turn};
use fkv_plane::Ask;
use fkv_seats::Held;
use std::marker::PhantomData;

/// The keeper of a store that threads share.
#[derive(Drop)]
pub struct Keeper {
    pub(crate) machine: fkv_keeper::Keeper,
    /// Its turns let a sweep of the log's front go on.
    pub(crate) sweeps: bool,
}

/// The right of the keeper to step at the table. It has no bytes.
#[derive(Drop)]
pub struct KeeperPass<D: Device> {
    pub(crate) seat: Place<D>,
}

/// An event of the keeper's.
pub(crate) trait OfKeeper {
    ghost use Rattle.fkv_table.specs.Said as said;

    ghost its: { said.Happening };
}

/// A turn begins.
pub(crate) struct Turning;

impl OfKeeper for Turning {
    ghost use Rattle.fkv_table.specs.Said as said;

    ghost its = { said.Turns };
}

/// A full commit begins.
pub(crate) struct FullCommit;

impl OfKeeper for FullCommit {
    ghost use Rattle.fkv_table.specs.Said as said;

    ghost its = { said.Commits said.Full };
}

/// A log commit begins.
pub(crate) struct LogCommit;

impl OfKeeper for LogCommit {
    ghost use Rattle.fkv_table.specs.Said as said;

    ghost its = { said.Commits said.Log };
}

/// A step of the keeper's, with memory for a copy, or with which what rests or a sweep goes on. A call of the device that has succeeded is one too.
pub(crate) struct Granted;

impl OfKeeper for Granted {
    ghost use Rattle.std.specs.Prelude.{true};
    ghost use Rattle.fkv_table.specs.Said as said;

    ghost its = { said.KeeperMoves true true };
}

/// A step of the keeper's, without it.
pub(crate) struct Ungranted;

impl OfKeeper for Ungranted {
    ghost use Rattle.std.specs.Prelude.{false, true};
    ghost use Rattle.fkv_table.specs.Said as said;

    ghost its = { said.KeeperMoves false true };
}

/// A call of the device that has failed.
pub(crate) struct Failed;

impl OfKeeper for Failed {
    ghost use Rattle.std.specs.Prelude.{false, true};
    ghost use Rattle.fkv_table.specs.Said as said;

    ghost its = { said.KeeperMoves true false };
}

/// What a step of the keeper tells.
pub(crate) struct Adding<E> {
    kind: PhantomData<E>,
}

impl<D: Device, E: OfKeeper> Play<Slot, Knows<D>> for Adding<E> {
    ghost use Rattle.fkv_table.specs.Said as said;

    ghost then = { said.adding (said.opening_of D.seen) E.its };
}

/// Adds an event of the keeper's that changes no word, by a load of the epoch's word.
pub(crate) fn note<D: Device, E: OfKeeper>(words: &Words<D>, seat: &mut Place<D>)
    requires table { (seat.old.table_id ≡ words.now.table_id) × said.IsTableOf (said.opening_of D.seen words.now.key) words.now.table_id }
    requires about { seat.old.me.0.about ≡ Some words.now.key }
    requires spares { said.Spares (said.opening_of D.seen) words.now.key seat.old.me E.its }
    requires hand { said.HandFits (said.plane (said.opening_of D.seen)) (said.opening_of D.seen words.now.key) seat.old.me.0.seen seat.old.me.0.hand
        seat.old.me.1 }
    ensures seat { (seat.new.table_id ≡ seat.old.table_id) × (seat.new.id ≡ seat.old.id) }
    ensures noted { said.IsNoted (said.opening_of D.seen) words.now.key seat.old.me E.its seat.new.me }
{
    let _ = words.load::<Adding<E>>(seat, 0);
}

/// Begins a turn, and adds that to the list.
pub(crate) fn begin_turn<D: Device>(
    words: &Words<D>,
    seat: &mut Place<D>,
    machine: &mut fkv_keeper::Keeper,
)
    requires table { (seat.old.table_id ≡ words.now.table_id) × said.IsTableOf (said.opening_of D.seen words.now.key) words.now.table_id }
    requires keeping { said.IsKeeping (said.opening_of D.seen) words.now.key seat.old.me machine.old }
    requires idle { said.is_in_hand machine.old.state.step ≡ false }
    ensures seat { (seat.new.table_id ≡ seat.old.table_id) × (seat.new.id ≡ seat.old.id) }
    ensures noted { said.IsNoted (said.opening_of D.seen) words.now.key seat.old.me said.Turns seat.new.me }
    ensures keeping { said.IsKeeping (said.opening_of D.seen) words.now.key seat.new.me machine.new }
    ensures by_device { said.ended_by_device machine.new.state.step ≡ false }
{
    machine.begin_turn();
    note::<D, Turning>(words, seat);
}

/// Begins a commit, and adds that to the list.
pub(crate) fn begin_commit<D: Device>(
    words: &Words<D>,
    seat: &mut Place<D>,
    machine: &mut fkv_keeper::Keeper,
    kind: CommitKind,
)
    requires table { (seat.old.table_id ≡ words.now.table_id) × said.IsTableOf (said.opening_of D.seen words.now.key) words.now.table_id }
    requires keeping { said.IsKeeping (said.opening_of D.seen) words.now.key seat.old.me machine.old }
    requires idle { said.is_in_hand machine.old.state.step ≡ false }
    ensures seat { (seat.new.table_id ≡ seat.old.table_id) × (seat.new.id ≡ seat.old.id) }
    ensures noted { said.IsNoted (said.opening_of D.seen) words.now.key seat.old.me (said.Commits kind) seat.new.me }
    ensures keeping { said.IsKeeping (said.opening_of D.seen) words.now.key seat.new.me machine.new }
    ensures beginning { said.IsBeginning machine.new.state.step }
{
    machine.begin_commit(kind);
    match kind {
        CommitKind::Full => note::<D, FullCommit>(words, seat),
        CommitKind::Log => note::<D, LogCommit>(words, seat),
    }
}

/// Makes the ask of a word that the machine stands at, and goes on with the reply and with what memory was got.
fn ask_word<D: Device, E: OfKeeper>(
    words: &Words<D>,
    seat: &mut Place<D>,
    machine: &mut fkv_keeper::Keeper,
    ask: &Ask<KeeperTold>,
    room: Option<CopyRoom>,
    goes_on: bool,
) -> Ask<KeeperTold>
    requires table { (seat.old.table_id ≡ words.now.table_id) × said.IsTableOf (said.opening_of D.seen words.now.key) words.now.table_id }
    requires event { E.its ≡ said.KeeperMoves (said.granted_for machine.old.state (is_some room) goes_on) true }
    requires room { said.IsRoomFor machine.old.places room }
    requires keeping { said.IsKeeping (said.opening_of D.seen) words.now.key seat.old.me machine.old }
    requires ask { ask.now ≡ said.keeper_ask machine.old.shape machine.old.places machine.old.state }
    requires word { (place : ℕ) × (said.asked_place ask.now ≡ Some place) }
    ensures seat { (seat.new.table_id ≡ seat.old.table_id) × (seat.new.id ≡ seat.old.id) }
    ensures replied { said.KeeperReplied (said.opening_of D.seen) words.now.key seat.old.me
        (said.granted_for machine.old.state (is_some room) goes_on) machine.old seat.new.me machine.new }
    ensures ask { result ≡ said.keeper_ask machine.new.shape machine.new.places machine.new.state }
{
    let reply = perform::<D, Adding<E>, KeeperTold>(words, seat, ask, Part::Any);
    machine.go_on_with(reply, room, goes_on)
}

/// Whether the step is granted what it may need: that what rests or a sweep goes on, and elsewhere memory for a copy.
fn is_granted(machine: &fkv_keeper::Keeper, room: &Option<CopyRoom>, goes_on: bool) -> bool
    ensures { result ≡ said.granted_for machine.now.state (is_some room.now) goes_on }
{
    if machine.goes_by_word() {
        goes_on
    } else {
        room.is_some()
    }
}

/// The same, where the event is by what is granted: memory that was got, or that what rests goes on.
fn ask_by_grant<D: Device>(
    words: &Words<D>,
    seat: &mut Place<D>,
    machine: &mut fkv_keeper::Keeper,
    ask: &Ask<KeeperTold>,
    room: Option<CopyRoom>,
    goes_on: bool,
) -> Ask<KeeperTold>
    requires table { (seat.old.table_id ≡ words.now.table_id) × said.IsTableOf (said.opening_of D.seen words.now.key) words.now.table_id }
    requires room { said.IsRoomFor machine.old.places room }
    requires keeping { said.IsKeeping (said.opening_of D.seen) words.now.key seat.old.me machine.old }
    requires ask { ask.now ≡ said.keeper_ask machine.old.shape machine.old.places machine.old.state }
    requires word { (place : ℕ) × (said.asked_place ask.now ≡ Some place) }
    ensures seat { (seat.new.table_id ≡ seat.old.table_id) × (seat.new.id ≡ seat.old.id) }
    ensures replied { said.KeeperReplied (said.opening_of D.seen) words.now.key seat.old.me
        (said.granted_for machine.old.state (is_some room) goes_on) machine.old seat.new.me machine.new }
    ensures ask { result ≡ said.keeper_ask machine.new.shape machine.new.places machine.new.state }
{
    if is_granted(machine, &room, goes_on) {
        ask_word::<D, Granted>(words, seat, machine, ask, room, goes_on)
    } else {
        ask_word::<D, Ungranted>(words, seat, machine, ask, room, goes_on)
    }
}

/// Moves the action that goes with the reply, if one does.
fn settle<D: Device>(
    words: &Words<D>,
    seat: &mut Place<D>,
    machine: &mut fkv_keeper::Keeper,
    next: Ask<KeeperTold>,
) -> Ask<KeeperTold>
    requires table { seat.old.table_id ≡ words.now.table_id }
    requires ask { next ≡ said.keeper_ask machine.old.shape machine.old.places machine.old.state }
    requires hand { said.KeeperIsAsked (said.opening_of D.seen) next seat.old.me }
    ensures seat { (seat.new.table_id ≡ seat.old.table_id) × (seat.new.id ≡ seat.old.id) }
    ensures settled { said.KeeperSettled (said.opening_of D.seen) next seat.old.me machine.old seat.new.me machine.new }
    ensures ask { result ≡ said.keeper_ask machine.new.shape machine.new.places machine.new.state }
{
    match next {
        Ask::Put(slot, action) => {
            let _ = words.exchange(seat, slot, Held::Drain(Some(action)));
            machine.go_on_with(0, None, false)
        }
        Ask::Take(slot) => match words.exchange(seat, slot, Held::Drain(None)) {
            Held::Drain(Some(action)) => machine.take(action),
            _ => Ask::Take(slot),
        },
        other => other,
    }
}

/// Makes the ask of a word that the machine stands at, with the action that goes with it: one step of the keeper. Memory for a copy that
/// the step may begin is asked for before.
fn step<D: Device>(
    words: &Words<D>,
    seat: &mut Place<D>,
    machine: &mut fkv_keeper::Keeper,
    ask: &Ask<KeeperTold>,
    leave: Leave,
) -> Ask<KeeperTold>
    requires table { (seat.old.table_id ≡ words.now.table_id) × said.IsTableOf (said.opening_of D.seen words.now.key) words.now.table_id }
    requires keeping { said.IsKeeping (said.opening_of D.seen) words.now.key seat.old.me machine.old }
    requires ask { ask.now ≡ said.keeper_ask machine.old.shape machine.old.places machine.old.state }
    requires word { (place : ℕ) × (said.asked_place ask.now ≡ Some place) }
    ensures seat { (seat.new.table_id ≡ seat.old.table_id) × (seat.new.id ≡ seat.old.id) }
    ensures keeping { said.IsKeeping (said.opening_of D.seen) words.now.key seat.new.me machine.new }
    ensures went { said.HasGoneOn seat.old.me.0.seen seat.new.me.0.seen }
    ensures calls { (said.led (said.plane (said.opening_of D.seen)) (said.opening_of D.seen words.now.key) seat.new.me.0.seen).past.calls ≡
        (said.led (said.plane (said.opening_of D.seen)) (said.opening_of D.seen words.now.key) seat.old.me.0.seen).past.calls }
    ensures by_device { said.ended_by_device machine.new.state.step ≡ said.ended_by_device machine.old.state.step }
    ensures fewer { said.keeper_asks_left machine.new.shape machine.new.places machine.new.state < said.keeper_asks_left machine.old.shape machine.old.places
        machine.old.state }
    ensures beginning { said.IsBeginning machine.old.state.step → said.IsBeginning machine.new.state.step }
    ensures ask { result ≡ said.keeper_ask machine.new.shape machine.new.places machine.new.state }
{
    let room = machine.room();
    let goes_on = if machine.is_resting() {
        leave.rests
    } else {
        leave.sweep
    };
    let next = ask_by_grant(words, seat, machine, ask, room, goes_on);
    settle(words, seat, machine, next)
}

/// Loads the word that a flush, a copy of the index or a sweep is at: one step of the keeper, which asks for no memory and moves no action.
#[inline(always)]
fn load_word<D: Device>(
    words: &Words<D>,
    seat: &mut Place<D>,
    machine: &mut fkv_keeper::Keeper,
    place: usize,
)
    requires table { (seat.old.table_id ≡ words.now.table_id) × said.IsTableOf (said.opening_of D.seen words.now.key) words.now.table_id }
    requires keeping { said.IsKeeping (said.opening_of D.seen) words.now.key seat.old.me machine.old }
    requires due { said.keeper_word_due machine.old.places machine.old.state ≡ Some place }
    ensures seat { (seat.new.table_id ≡ seat.old.table_id) × (seat.new.id ≡ seat.old.id) }
    ensures keeping { said.IsKeeping (said.opening_of D.seen) words.now.key seat.new.me machine.new }
    ensures went { said.HasGoneOn seat.old.me.0.seen seat.new.me.0.seen }
    ensures calls { (said.led (said.plane (said.opening_of D.seen)) (said.opening_of D.seen words.now.key) seat.new.me.0.seen).past.calls ≡
        (said.led (said.plane (said.opening_of D.seen)) (said.opening_of D.seen words.now.key) seat.old.me.0.seen).past.calls }
    ensures by_device { said.ended_by_device machine.new.state.step ≡ said.ended_by_device machine.old.state.step }
    ensures fewer { said.keeper_asks_left machine.new.shape machine.new.places machine.new.state < said.keeper_asks_left machine.old.shape machine.old.places
        machine.old.state }
    ensures beginning { said.IsBeginning machine.old.state.step → said.IsBeginning machine.new.state.step }
{
    let ask: Ask<KeeperTold> = Ask::Load(place);
    let word = perform::<D, Adding<Ungranted>, KeeperTold>(words, seat, &ask, Part::Any);
    machine.keep(word);
}

/// Loads such words, as long as one is due. The machine tells each place, and isn't asked between two of them.
fn load_words<D: Device>(words: &Words<D>, seat: &mut Place<D>, machine: &mut fkv_keeper::Keeper)
    requires table { (seat.old.table_id ≡ words.now.table_id) × said.IsTableOf (said.opening_of D.seen words.now.key) words.now.table_id }
    requires keeping { said.IsKeeping (said.opening_of D.seen) words.now.key seat.old.me machine.old }
    ensures seat { (seat.new.table_id ≡ seat.old.table_id) × (seat.new.id ≡ seat.old.id) }
    ensures keeping { said.IsKeeping (said.opening_of D.seen) words.now.key seat.new.me machine.new }
    ensures went { said.HasGoneOn seat.old.me.0.seen seat.new.me.0.seen }
    ensures calls { (said.led (said.plane (said.opening_of D.seen)) (said.opening_of D.seen words.now.key) seat.new.me.0.seen).past.calls ≡
        (said.led (said.plane (said.opening_of D.seen)) (said.opening_of D.seen words.now.key) seat.old.me.0.seen).past.calls }
    ensures by_device { said.ended_by_device machine.new.state.step ≡ said.ended_by_device machine.old.state.step }
    ensures left { said.keeper_asks_left machine.new.shape machine.new.places machine.new.state ≤ said.keeper_asks_left machine.old.shape machine.old.places
        machine.old.state }
    ensures over { said.keeper_word_due machine.new.places machine.new.state ≡ None }
    ensures beginning { said.IsBeginning machine.old.state.step → said.IsBeginning machine.new.state.step }
{
    'words: loop {
        let Some(place) = machine.word_due() else {
            return;
        };
        load_word(words, seat, machine, place);
    }
}

/// Makes the call of the device that the machine asks for, and adds that to the list. It ends the turn with `Device` only if the device itself has
/// counted a failure, and does so where the device refuses the call.
pub(crate) fn call_device<D: Device>(
    words: &Words<D>,
    seat: &mut Place<D>,
    machine: &mut fkv_keeper::Keeper,
    d: &mut D,
)
    requires table { (seat.old.table_id ≡ words.now.table_id) × said.IsTableOf (said.opening_of D.seen words.now.key) words.now.table_id }
    requires keeping { said.IsKeeping (said.opening_of D.seen) words.now.key seat.old.me machine.old }
    requires ask { said.keeper_ask machine.old.shape machine.old.places machine.old.state ≡ said.Done said.AtDevice }
    requires honest { D.honest d.old }
    requires after { said.IsAfterSeen (said.opening_of D.seen) words.now.key seat.old.me.0.seen (D.seen d.old) (D.may_leave d.old) }
    ensures seat { (seat.new.table_id ≡ seat.old.table_id) × (seat.new.id ≡ seat.old.id) }
    ensures keeping { said.IsKeeping (said.opening_of D.seen) words.now.key seat.new.me machine.new }
    ensures went { said.HasGoneOn seat.old.me.0.seen seat.new.me.0.seen }
    ensures honest { D.honest d.new }
    ensures after { said.IsAfterSeen (said.opening_of D.seen) words.now.key seat.new.me.0.seen (D.seen d.new) (D.may_leave d.new) }
    ensures moments { said.AtEachMoment D.moment D.left_since d.old d.new (said.IsLeftWithin (said.opening_of D.seen) words.now.key seat.old.me.0.seen
        seat.new.me.0.seen) }
    ensures due { D.expects d.new ≡ said.kinds_by (said.keeper_due machine.old) (not (said.ended_by_device machine.new.state.step)) (D.expects d.old) }
    ensures counted { said.IsCounted 1 (said.ended_by_device machine.new.state.step) (D.failed d.old) (D.failed d.new) (D.refuses d.old) (D.refuses d.new) }
    ensures fewer { said.keeper_asks_left machine.new.shape machine.new.places machine.new.state < said.keeper_asks_left machine.old.shape machine.old.places
        machine.old.state }
{
    match machine.call_device(d) {
        Ok(_) => note::<D, Granted>(words, seat),
        Err(_) => note::<D, Failed>(words, seat),
    }
}

/// Makes the steps of words up to the next call of the device, or to the end of the call in hand, and tells which. A commit's beginning asks
/// for no device.
pub(crate) fn word_steps<D: Device>(
    words: &Words<D>,
    seat: &mut Place<D>,
    machine: &mut fkv_keeper::Keeper,
    leave: Leave,
) -> KeeperTold
    requires table { (seat.old.table_id ≡ words.now.table_id) × said.IsTableOf (said.opening_of D.seen words.now.key) words.now.table_id }
    requires keeping { said.IsKeeping (said.opening_of D.seen) words.now.key seat.old.me machine.old }
    ensures seat { (seat.new.table_id ≡ seat.old.table_id) × (seat.new.id ≡ seat.old.id) }
    ensures keeping { said.IsKeeping (said.opening_of D.seen) words.now.key seat.new.me machine.new }
    ensures went { said.HasGoneOn seat.old.me.0.seen seat.new.me.0.seen }
    ensures calls { (said.led (said.plane (said.opening_of D.seen)) (said.opening_of D.seen words.now.key) seat.new.me.0.seen).past.calls ≡
        (said.led (said.plane (said.opening_of D.seen)) (said.opening_of D.seen words.now.key) seat.old.me.0.seen).past.calls }
    ensures by_device { said.ended_by_device machine.new.state.step ≡ said.ended_by_device machine.old.state.step }
    ensures told { said.keeper_ask machine.new.shape machine.new.places machine.new.state ≡ said.Done result }
    ensures left { said.keeper_asks_left machine.new.shape machine.new.places machine.new.state ≤ said.keeper_asks_left machine.old.shape machine.old.places
        machine.old.state }
    ensures beginning { said.IsBeginning machine.old.state.step → said.IsBeginning machine.new.state.step }
{
    let mut ask = machine.ask();
    'asks: loop {
        if let Ask::Done(told) = ask {
            return told;
        }
        ask = step(words, seat, machine, &ask, leave);
        if machine.word_due().is_some() {
            load_words(words, seat, machine);
            ask = machine.ask();
        }
    }
}

impl Keeper {
    /// Begins a commit of this kind and gives its number; later turns carry it through. Its refusals are those of the keeper's machine:
    /// `Broken`, `CommitRunning`, `VersionsSpent`, `LostFull`, `EpochsSpent` or `DrainFull`. The device isn't called.
    pub fn ask_commit<D: Device>(
        &mut self,
        table: &Table<D>,
        mut pass: KeeperPass<D>,
        kind: CommitKind,
    ) -> (KeeperPass<D>, Result<Version, Fault>)
        requires ready { said.IsKeeperReady (said.opening_of D.seen) table.now.table.shared.key table.now.table.shared.table_id pass.seat.table_id
            pass.seat.me self.old.machine }
        ensures ready { said.IsKeeperReady (said.opening_of D.seen) table.now.table.shared.key table.now.table.shared.table_id result.0.seat.table_id
            result.0.seat.me self.new.machine }
        ensures kept { said.HasKept (said.Commits kind) pass.seat.me.0.seen result.0.seat.me.0.seen }
        ensures device { said.LeavesDevice (said.opening_of D.seen) table.now.table.shared.key pass.seat.me.0.seen result.0.seat.me.0.seen }
        ensures told { said.IsBeginTold (said.keeper_ask self.new.machine.shape self.new.machine.places self.new.machine.state) result.1 }
    {
        let answer = self.start_commit(table, &mut pass, kind);
        (pass, answer)
    }

    /// Begins a commit, as `ask_commit` does. A sweep that is done was let for the last time then: no later one goes on before `let_sweep` says so.
    pub fn start_commit<D: Device>(
        &mut self,
        table: &Table<D>,
        pass: &mut KeeperPass<D>,
        kind: CommitKind,
    ) -> Result<Version, Fault>
        requires ready { said.IsKeeperReady (said.opening_of D.seen) table.now.table.shared.key table.now.table.shared.table_id pass.old.seat.table_id
            pass.old.seat.me self.old.machine }
        ensures ready { said.IsKeeperReady (said.opening_of D.seen) table.now.table.shared.key table.now.table.shared.table_id pass.new.seat.table_id
            pass.new.seat.me self.new.machine }
        ensures kept { said.HasKept (said.Commits kind) pass.old.seat.me.0.seen pass.new.seat.me.0.seen }
        ensures device { said.LeavesDevice (said.opening_of D.seen) table.now.table.shared.key pass.old.seat.me.0.seen pass.new.seat.me.0.seen }
        ensures told { said.IsBeginTold (said.keeper_ask self.new.machine.shape self.new.machine.places self.new.machine.state) result }
    {
        let words = &table.table.shared;
        self.sweeps = self.sweeps && self.machine.is_sweeping();
        begin_commit(words, &mut pass.seat, &mut self.machine, kind);
        let leave = Leave {
            rests: false,
            sweep: false,
        };
        word_steps(words, &mut pass.seat, &mut self.machine, leave);
        begin_told(&mut self.machine)
    }
}

impl Keeper {
    /// From now on its turns let a sweep of the log's front go on, or no more.
    pub fn let_sweep(&mut self, sweeps: bool)
        ensures { self.new.machine ≡ self.old.machine }
    {
        self.sweeps = sweeps;
    }

    /// Whether a sweep of the log's front isn't done.
    pub fn is_sweeping(&self) -> bool
        ensures { result ≡ said.is_sweeping self.now.machine.state.sweep }
    {
        self.machine.is_sweeping()
    }

    /// The keys that the sweep's last turn has found wanted, 16 at most.
    pub fn wanted(&self) -> &[Key]
        ensures { result.now ≡ self.now.machine.state.sweep.wanted }
    {
        self.machine.wanted()
    }

    /// The address at which the log of the newest finished commit begins.
    pub fn begin(&self) -> Addr
        ensures { result ≡ self.now.machine.state.last.begin }
    {
        self.machine.begin()
    }
}

/// How a commit's beginning has ended, told again in the same way.
#[tactic(auto, unfolding(fkv_keeper::specs::Keeping::keeping_next))]
fn begin_told(machine: &mut fkv_keeper::Keeper) -> Result<Version, Fault>
    requires over { said.is_busy (said.keeper_ask machine.old.shape machine.old.places machine.old.state) ≡ false }
    requires idle { said.is_in_hand machine.old.state.step ≡ false }
    ensures same { machine.new ≡ machine.old }
    ensures told { said.IsBeginTold (said.keeper_ask machine.old.shape machine.old.places machine.old.state) result }
{
    match machine.drive(0) {
        KeeperAsk::Begun(result) => result,
        _ => Err(Fault::CommitRunning),
    }
}
