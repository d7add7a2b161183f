//! A store that was opened becomes a table that threads share.
ghost use Rattle.std.specs.Prelude.{◌≡◌, ◌<◌, ◌≤◌, ◌+◌, ◌^◌, ℕ, [], length, map, replicate, IfOk, OnOk, OnErr, Err, None};
ghost use Rattle.fkv_table.specs.Said as said;

use crate::aside::Aside;
use crate::desks::{desk_slot, sit_down};
use crate::joining::Meeting;
use crate::keepers::{Keeper, KeeperPass};
use crate::rule::{Engine, Knows, Opening, Pass, Place, Slot, Table, Words};
use crate::sessions::Session;
use fkv_base::Fault;
use fkv_core::World;
use fkv_disk::Device;
use fkv_opening::Opened;
use fkv_plane::{Places, PlainWords};
use fkv_seats::Held;
use fkv_straight::StraightSession;
use std::alloc::Global;
use std::snapshot::Snapshot;

/// Positions of the table that have no word.
const GAPS: usize = 40;

/// What a table begins with.
#[derive(Drop)]
pub struct OpenTable<D: Device> {
    pub table: Table<D>,
    /// Each session with its pass, in the order of their numbers.
    pub sessions: Vec<(Session, Pass<D>)>,
    pub keeper: Keeper,
    pub pass: KeeperPass<D>,
    pub device: D,
}

impl<D: Device + Drop> Table<D> {
    /// The table of a store that was opened on this device. Each session has its pass, and so has the keeper; nothing has happened yet.
    /// The device comes back, since the keeper alone calls it. `Memory` where memory was refused; then all that was handed in is dropped,
    /// the device too.
    pub fn open(alloc: Global, opened: Opened, device: D) -> Result<OpenTable<D>, Fault>
        ensures world { IfOk result (λ t. said.IsOpeningWorld opened (said.opening_of D.seen t.table.table.shared.key).now) }
        ensures opened { IfOk result (λ t. said.IsOpenedWorld (said.opening_of D.seen t.table.table.shared.key)) }
        ensures bytes { IfOk result (λ t. said.opening_of D.seen t.table.table.shared.key
            ≡ said.beginning (said.opening_of D.seen t.table.table.shared.key).now (D.seen device)) }
        ensures count { IfOk result (λ t. length t.sessions.items ≡ opened.shape.sessions) }
        ensures sessions { IfOk result (λ t. said.EachAt t.sessions.items (λ i x. said.IsFresh
            (said.opening_of D.seen) t.table.table.shared.key t.table.table.shared.table_id i x.0.machine x.0.desk x.1.seat.table_id x.1.seat.me)) }
        ensures keeper { IfOk result (λ t. said.IsFreshKeeper (said.opening_of D.seen) t.table.table.shared.key
            t.table.table.shared.table_id t.keeper.machine t.pass.seat.table_id t.pass.seat.me) }
        ensures device { IfOk result (λ t. t.device ≡ device) }
        ensures err { OnErr result (result ≡ Err said.Memory) }
    {
        let places = Places::of(&opened.shape);
        let count = places.word_count();
        let world = World::open(alloc, opened, device)?;
        let about = Snapshot::of(&world);
        let (plane, machines, machine, device) = world.into_parts();
        let words = laid_words(alloc, &plane, count)?;
        // The table copies the words, so those of the plane go before it is made: memory has them twice, and not three times.
        drop(plane);
        let slots = empty_slots(alloc, desk_slot(machines.len() + 1))?;
        let (table, mut rest) = shared_table(alloc, &words, slots, &about)?;
        let sessions = seat_sessions(alloc, &table.shared, &mut rest, machines)?;
        Ok(OpenTable {
            table: Table { table, places },
            sessions,
            keeper: Keeper {
                machine,
                sweeps: false,
            },
            pass: KeeperPass { seat: rest },
            device,
        })
    }
}

/// The words at their positions. They take their memory once.
#[tactic(auto, using(crate::proofs::LaidWords::laid_more), unfolding(crate::specs::Positions::laid_from))]
fn laid_words(alloc: Global, plane: &PlainWords, count: usize) -> Result<Vec<u64>, Fault>
    requires count { count ≡ length plane.now.words }
    requires few { count < 2 ^ 62 }
    ensures words { IfOk result (λ words. words.items ≡ said.laid plane.now.words) }
    ensures err { OnErr result (result ≡ Err said.Memory) }
{
    let mut words = Vec::with_capacity(alloc, count + GAPS)?;
    for at in 0..count + GAPS {
        words.push(word_laid(plane, at))?;
    }
    Ok(words)
}

/// The word at a position; 0 where it is a gap.
fn word_laid(plane: &PlainWords, at: usize) -> u64
    ensures { result ≡ said.word_found plane.now.words (said.place_at at) }
{
    match place_at(at) {
        Some(place) => plane.word(place),
        None => 0,
    }
}

/// The place whose word lies at a position, if it is no gap.
fn place_at(at: usize) -> Option<usize>
    ensures { result ≡ said.place_at at }
{
    if at == 32 {
        Some(3)
    } else if at == 48 {
        Some(10)
    } else if at < 24 {
        low_place(at)
    } else if at < 64 {
        None
    } else {
        Some(at - GAPS)
    }
}

/// So of the first 24 positions.
fn low_place(at: usize) -> Option<usize>
    ensures { result ≡ said.low_place at }
{
    if at == 3 {
        None
    } else if at == 10 {
        None
    } else {
        Some(at)
    }
}

/// Slots with no action and no note.
#[tactic(auto, using(std::proofs::lemmas::List::replicate_more))]
fn empty_slots(alloc: Global, count: usize) -> Result<Vec<Slot>, Fault>
    ensures slots { IfOk result (λ slots. slots.items ≡ replicate count (said.Drain None)) }
    ensures err { OnErr result (result ≡ Err said.Memory) }
{
    let mut slots = Vec::new(alloc);
    for _ in 0..count {
        slots.push(Held::Drain(None))?;
    }
    Ok(slots)
}

/// The table over these words and slots, with the seat that speaks for all.
fn shared_table<D: Device>(
    alloc: Global,
    words: &[u64],
    slots: Vec<Slot>,
    about: &Opening<D>,
) -> Result<
    (
        atomic_table::Table<Slot, Knows<D>, Opening<D>, Engine<D>, Global>,
        Place<D>,
    ),
    Fault,
>
    requires { said.Ruled (said.plane (said.opening_of D.seen)) about.now (said.opening words.now slots.items
        (said.first_view (said.plane (said.opening_of D.seen)) about.now)) }
    ensures counts { IfOk result (λ t. (t.0.shared.table_id.words ≡ length words.now) × (t.0.shared.table_id.slots ≡ length slots.items)) }
    ensures seat { IfOk result (λ t. (t.1.table_id ≡ t.0.shared.table_id) × (t.1.me ≡ (said.rest_view about.now 0, []))) }
    ensures key { IfOk result (λ t. t.0.shared.key ≡ about.now) }
    ensures err { OnErr result (result ≡ Err said.Memory) }
{
    match atomic_table::Table::new(alloc, words, slots, about) {
        Ok(made) => Ok(made),
        Err(_) => Err(Fault::Memory),
    }
}

/// Each session gets its seat and sits down at its desk, in the order of their numbers. The keeper is left with the rest.
fn seat_sessions<D: Device>(
    alloc: Global,
    words: &Words<D>,
    rest: &mut Place<D>,
    machines: Vec<fkv_session::Session>,
) -> Result<Vec<(Session, Pass<D>)>, Fault>
    requires table { (rest.old.table_id ≡ words.now.table_id) × (0 < words.now.table_id.words) }
    requires rest { rest.old.me ≡ (said.rest_view words.now.key 0, []) }
    requires few { length machines.items < 2 ^ 32 }
    requires desks { said.desk_slot said.drain_slots (length machines.items) ≤ words.now.table_id.slots }
    ensures rest { OnOk result ((rest.new.table_id ≡ words.now.table_id) × (rest.new.me ≡ (said.rest_view words.now.key (length machines.items), []))) }
    ensures machines { IfOk result (λ seated. map (λ x. x.0.machine) seated.items ≡ machines.items) }
    ensures seats { IfOk result (λ seated. said.EachAt seated.items (λ i x. said.HasSeat words.now.key words.now.table_id i x.1.seat.table_id x.1.seat.me
        × (x.0.desk ≡ said.desk_slot said.drain_slots i))) }
    ensures err { OnErr result (result ≡ Err said.Memory) }
{
    let mut seated = Vec::new(alloc);
    for machine in machines {
        let desk = desk_slot(seated.len());
        let seat = seat_next(words, rest);
        let session = Session {
            machine: StraightSession::new(machine),
            desk,
            aside: Aside::none(),
        };
        seated.push((session, Pass { seat }))?;
    }
    Ok(seated)
}

/// The next session's seat is cut off, and sits down at its desk.
fn seat_next<D: Device>(words: &Words<D>, rest: &mut Place<D>) -> Place<D>
    requires table { (rest.old.table_id ≡ words.now.table_id) × (0 < words.now.table_id.words) }
    requires rest { (number : ℕ) × (rest.old.me ≡ (said.rest_view words.now.key number, []))
        × (said.desk_slot said.drain_slots number < words.now.table_id.slots) }
    ensures rest { (number : ℕ) → rest.old.me ≡ (said.rest_view words.now.key number, []) → rest.new.me ≡ (said.rest_view words.now.key (number + 1), []) }
    ensures table { rest.new.table_id ≡ rest.old.table_id }
    ensures seat { (number : ℕ) → rest.old.me ≡ (said.rest_view words.now.key number, [])
        → said.HasSeat words.now.key words.now.table_id number result.table_id result.me }
{
    let mut seat = words.split_seat::<Meeting>(rest);
    sit_down(words, &mut seat);
    seat
}
