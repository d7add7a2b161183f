//! The keeper's handle.
ghost use Rattle.std.specs.Prelude.{◌≡◌, None};
ghost use Rattle.fkv_handles.specs.Said as said;

use fkv_base::{Addr, CommitKind, Fault, Key, Version};
use fkv_disk::{Device, DeviceAsk};
use fkv_posted::{Posted, Told};
use fkv_threads::{KeeperSeat, Leave, TurnAsk};

/// The keeper's handle, until it is ended. It may go into any thread.
#[derive(Drop)]
pub struct Keeper {
    pub(crate) seat: Option<KeeperSeat<Posted<'static>>>,
}

impl Keeper {
    /// Begins a turn, and carries it on up to its next call of the device or to its end. Where a call is posted that wasn't told yet nothing
    /// changes, and `Device` is answered again. It ends early as `KeeperSeat::turn` does; `Broken` once the handle is ended. What rests and a sweep go on
    /// as the caller lets them.
    pub fn turn(&mut self, leave: Leave) -> TurnAsk
        ensures turned { said.IsTurnedBy ⟦<Posted<'static> as Device>⟧ (said.watch_of self.old) result (said.watch_of self.new) }
    {
        match &mut self.seat {
            Some(seat) => seat.drive(leave),
            None => TurnAsk::Over(Err(Fault::Broken)),
        }
    }

    /// Whether the next turn only serves: the writes of the commit in hand rest, or a flush does, and weren't let go on. (A hint: no clause speaks of it.)
    pub fn rests(&self) -> bool {
        match &self.seat {
            Some(seat) => seat.rests(),
            None => false,
        }
    }

    /// The call of the device that is posted, in the middle of a turn.
    pub fn posted(&self) -> Option<DeviceAsk<'_>>
        ensures { said.asked_call result ≡ said.due_of (said.watch_of self.now) }
    {
        match &self.seat {
            Some(seat) => seat.posted(),
            None => None,
        }
    }

    /// Tells how that call has gone, and carries the turn on. What is told of a read is what was last written there. Where no call is posted
    /// nothing is told, and this is `turn`.
    pub fn tell(&mut self, told: Told) -> TurnAsk
        requires honest { said.IsToldHonestly told (said.watch_of self.old) }
        ensures told { said.IsToldBy ⟦<Posted<'static> as Device>⟧ told (said.watch_of self.old) result (said.watch_of self.new) }
    {
        match &mut self.seat {
            Some(seat) => seat.told(told),
            None => TurnAsk::Over(Err(Fault::Broken)),
        }
    }

    /// Begins a commit of this kind, and tells its number; later turns carry it through. It is refused as `KeeperSeat::ask_commit` refuses it,
    /// with `CommitRunning` in the middle of a turn too, and with `Broken` once the handle is ended.
    pub fn ask_commit(&mut self, kind: CommitKind) -> Result<Version, Fault>
        ensures begun { said.IsAskedBy ⟦<Posted<'static> as Device>⟧ kind (said.watch_of self.old) result (said.watch_of self.new) }
    {
        match &mut self.seat {
            Some(seat) => seat.ask_commit(kind),
            None => Err(Fault::Broken),
        }
    }

    /// Begins a full commit behind which the log's front is swept, as `KeeperSeat::ask_trim` does. `Broken` once the handle is ended.
    pub fn ask_trim(&mut self) -> Result<Version, Fault>
        ensures begun { said.IsAskedBy ⟦<Posted<'static> as Device>⟧ said.Full (said.watch_of self.old) result (said.watch_of self.new) }
    {
        match &mut self.seat {
            Some(seat) => seat.ask_trim(),
            None => Err(Fault::Broken),
        }
    }

    /// The keys that the sweep's last turn has found wanted, 16 at most, as the store has them. None once the handle is ended.
    pub fn wanted(&self) -> &[Key]
        ensures { result.now ≡ said.wanted_of (said.watch_of self.now) }
    {
        match &self.seat {
            Some(seat) => seat.wanted(),
            None => &[],
        }
    }

    /// Where the log of the newest finished commit begins, if the handle isn't ended.
    pub fn begin(&self) -> Option<Addr>
        ensures { result ≡ said.begin_of (said.watch_of self.now) }
    {
        self.seat.as_ref().map(|seat| seat.begin())
    }

    /// Ends the handle, and gives its share of the table up.
    pub fn end(&mut self)
        ensures { said.watch_of self.new ≡ None }
    {
        self.seat = None;
    }
}
