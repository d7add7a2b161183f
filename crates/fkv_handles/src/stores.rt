//! A store with the handles that nobody has taken yet.
ghost use Rattle.std.specs.Prelude.{◌≡◌, [], None, true, false};
ghost use Rattle.fkv_handles.specs.Said as said;

use crate::keepers::Keeper;
use crate::opening::{opened_from, told_of, untaken};
use crate::refusals::Refusal;
use crate::sessions::Session;
use fkv_base::{Fault, Serial, Shape, Version};
use fkv_disk::Device;
use fkv_posted::Posted;
use fkv_spread::Keys;
use fkv_threads::{KeeperSeat, Offsets, OpenSeats, Seated, Table, open_seats};
use std::alloc::Global;
use std::sync::Arc;

/// A store, with the handles that nobody has taken yet.
#[derive(Drop)]
pub struct Store {
    pub(crate) keys: Keys,
    /// None once the store is closed.
    pub(crate) table: Option<Arc<Table<Posted<'static>>, Global>>,
    pub(crate) sessions: Vec<Option<Seated<Posted<'static>>>>,
    pub(crate) keeper: Option<KeeperSeat<Posted<'static>>>,
}

/// What an image has told, as a store is opened from it.
#[derive(Drop)]
pub struct Recovered {
    pub shape: Shape,
    /// The number of its newest commit.
    pub number: Version,
    /// The point of each session.
    pub points: Vec<Serial>,
    /// How many homes have an entry in the index.
    pub entries: u64,
}

impl Store {
    /// Opens the store of this image, as `recover` does, and gives memory its newest records, at most so many. The bytes are those of the file, all of
    /// them synced. They aren't needed behind the call. `NotAStore`, `Damaged` or `Memory`.
    pub fn open(
        alloc: Global,
        bytes: &[u8],
        keys: Keys,
        most: u64,
    ) -> Result<(Store, Recovered), Fault>
        ensures opened { said.IfOk result (λ r. said.IsOpenedFrom (said.opening ⟦<Posted<'static> as Device>⟧) bytes.now keys most r.0 r.1) }
        ensures refused { said.IfErr result (said.IsOpeningRefused bytes.now) }
    {
        let (opened, medium) = opened_from(alloc, bytes, most)?;
        let told = told_of(alloc, &opened)?;
        let OpenSeats {
            table,
            sessions,
            keeper,
        } = open_seats(alloc, opened, medium)?;
        let sessions = untaken(alloc, sessions)?;
        let store = Store {
            keys,
            table: Some(table),
            sessions,
            keeper: Some(keeper),
        };
        Ok((store, told))
    }

    /// Takes a session's handle. `NoSession` where the shape has none of this number, `HandleTaken` where it was taken before.
    pub fn take_session(&mut self, number: usize) -> Result<Session, Refusal>
        ensures given { said.IsGiven (said.store_keys self.old) (said.store_sessions self.old) number result (said.store_sessions self.new) }
        ensures keeper { said.store_keeper self.new ≡ said.store_keeper self.old }
        ensures keys { said.store_keys self.new ≡ said.store_keys self.old }
        ensures open { said.store_is_open self.new ≡ said.store_is_open self.old }
    {
        match self.sessions.get_mut(number) {
            None => Err(Refusal::Fault(Fault::NoSession)),
            Some(place) => match place.take() {
                None => Err(Refusal::HandleTaken),
                Some(seated) => Ok(Session {
                    keys: self.keys,
                    seated: Some(seated),
                }),
            },
        }
    }

    /// Takes the keeper's handle. `HandleTaken` where it was taken before.
    pub fn take_keeper(&mut self) -> Result<Keeper, Refusal>
        ensures given { said.IsKeeperGiven (said.store_keeper self.old) result (said.store_keeper self.new) }
        ensures sessions { said.store_sessions self.new ≡ said.store_sessions self.old }
        ensures keys { said.store_keys self.new ≡ said.store_keys self.old }
        ensures open { said.store_is_open self.new ≡ said.store_is_open self.old }
    {
        match self.keeper.take() {
            None => Err(Refusal::HandleTaken),
            Some(seat) => Ok(Keeper { seat: Some(seat) }),
        }
    }

    /// A hint at how far the log has come. None once the store is closed.
    pub fn offsets(&self) -> Option<Offsets>
        ensures some { said.is_some result ≡ said.store_is_open self.now }
    {
        match &self.table {
            Some(table) => Some(table.offsets()),
            None => None,
        }
    }

    /// Closes the store, and frees its table. While a handle is out this is refused with `HandleOut`; then what wasn't taken can't be taken any
    /// more. A store that is closed stays so.
    pub fn close(&mut self, alloc: Global) -> Result<(), Refusal>
        ensures closed { said.OnOk result (said.store_is_open self.new ≡ false) }
        ensures out { said.OnErr result (result ≡ said.Err said.HandleOut) }
        ensures still_open { said.OnErr result (said.store_is_open self.new ≡ true) }
        ensures again { said.store_is_open self.old ≡ false → result ≡ said.Ok tt }
        ensures dropped { (said.store_sessions self.new ≡ []) × (said.store_keeper self.new ≡ None) }
    {
        self.sessions = Vec::new(alloc);
        self.keeper = None;
        match self.table.take() {
            None => Ok(()),
            Some(table) => match Arc::try_unwrap(table) {
                Ok(table) => {
                    fkv_threads::close(table);
                    Ok(())
                }
                Err(shared) => {
                    self.table = Some(shared);
                    Err(Refusal::HandleOut)
                }
            },
        }
    }
}
