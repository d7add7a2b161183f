//! A life that is played.
ghost use Rattle.std.specs.Prelude.{◌≡◌, IfOk, replicate, false};
ghost use Rattle.fkv_disk.specs.Fuse.{is_blown};
ghost use Rattle.fkv_disk.specs.Fuses.{fuse_state};
ghost use Rattle.fkv_playing.specs.Players.{IsArmed, PlayerState, is_struck, waits_for_crash};
ghost use Rattle.fkv_playing.specs.Seats.{first_seat};
ghost use Rattle.fkv_playing.specs.Texts.{phase_shown};

use crate::breaking::Breaks;
use crate::seats::{Seat, first_seats};
use crate::telling::phase_told;
use fkv_base::{Phase, Version};
use fkv_core::World;
use fkv_disk::{Device, Fuse};
use fkv_map::HistoryEntry;
use fkv_plane::SharedWord;
use std::alloc::Global;
use std::io;
use std::marker::Model;

/// What is to come of the device.
#[derive(Clone, Copy, PartialEq, Eq)]
pub enum Waits {
    /// Nothing.
    Nothing,
    /// A call of it fails, and each later one.
    Failure,
    /// A crash strikes at a call of it; at the end, where it isn't called so often.
    Crash,
    /// A crash is taken at the end: the device had failed for good when it was asked for.
    CrashAtEnd,
}

/// A life that is played: the engine's world, and what is kept beside it to print its answers.
#[derive(Drop)]
pub struct Player<D: Device> {
    pub(crate) world: World<D>,
    pub(crate) seats: Vec<Seat>,
    pub(crate) history: Vec<HistoryEntry>,
    pub(crate) keeps_history: bool,
    pub(crate) waits: Waits,
    /// Turns sweep the log's front: behind a trim, and up to the next other commit.
    pub(crate) sweeps: bool,
}

impl<D: Device> Model for Player<D> {
    ghost Value = { PlayerState D };

    ghost view = { λ m. record { world = m.world; seats = m.seats.items; history = m.history.items; keeps_history = m.keeps_history; waits = m.waits; sweeps = m.sweeps } };
}

impl<D: Breaks + Drop> Player<D> {
    /// A life that begins with this world, in which so many sessions sit, all awake. Behind these updates each that takes effect is kept,
    /// where updates are kept.
    pub fn new(
        alloc: Global,
        world: World<D>,
        sessions: usize,
        history: Vec<HistoryEntry>,
        keeps_history: bool,
    ) -> io::Result<Player<D>>
        ensures { IfOk result (λ player. player ≡ record { world = world; seats = replicate sessions first_seat; history = history.items; keeps_history = keeps_history; waits = Waits.Nothing; sweeps = false }) }
    {
        let seats = first_seats(alloc, sessions)?;
        Ok(Player {
            world,
            seats,
            history,
            keeps_history,
            waits: Waits::Nothing,
            sweeps: false,
        })
    }
}

impl<D: Breaks> Player<D> {
    /// What is to come of the device.
    pub fn waits(&self) -> Waits
        ensures { result ≡ self.now.waits }
    {
        let Player { waits, .. } = self;
        *waits
    }

    /// The device as the life has left it, and the updates that were kept.
    pub fn end(self) -> (D, Vec<HistoryEntry>)
        ensures device { result.0 ≡ self.world.device }
        ensures history { result.1.items ≡ self.history }
    {
        let Player { world, history, .. } = self;
        (world.end(), history)
    }

    /// Whether the crash that was waited for has struck.
    pub(crate) fn is_struck(&self) -> bool
        ensures { result ≡ is_struck self.now.waits (D.broken self.now.world.device) }
    {
        self.waits == Waits::Crash && D::is_broken(&self.world)
    }

    /// The phase and the version that the phase word says.
    pub(crate) fn phase(&self) -> (Phase, Version)
        ensures { result ≡ phase_shown self.now.world.now }
    {
        phase_told(self.world.word(SharedWord::Phase.place()))
    }
}

impl<D: Device> Player<Fuse<D>> {
    /// So many calls of the device pass from now on, and then each fails.
    pub fn fail_behind(&mut self, count: u64)
        ensures { IsArmed count Waits.Failure self.old self.new }
    {
        self.world.arm(count);
        self.waits = Waits::Failure;
    }

    /// So many calls of the device pass from now on, and at the next one a crash strikes.
    pub fn crash_behind(&mut self, count: u64)
        ensures { IsArmed count (waits_for_crash (is_blown (fuse_state self.old.world.device))) self.old self.new }
    {
        let has_failed = Fuse::<D>::is_broken(&self.world);
        self.world.arm(count);
        self.waits = if has_failed {
            Waits::CrashAtEnd
        } else {
            Waits::Crash
        };
    }
}
