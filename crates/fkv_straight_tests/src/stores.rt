//! An opened store, taken apart, but for its sessions.
use crate::actors::step;
use crate::rivals::with_mark;
use fkv_base::{Addr, CommitKind, Fault, Shape};
use fkv_core::World;
use fkv_creating::create;
use fkv_disk::{Device, MemDisk};
use fkv_keeper::{Keeper, KeeperTold};
use fkv_opening::recover;
use fkv_plane::{Ask, Places, PlainWords, RecordWord, SessionWord, SharedWord};
use fkv_session::Session;
use std::alloc::Global;

/// The words, the keeper and the device of a store.
#[derive(Drop)]
pub(crate) struct Store {
    pub(crate) words: PlainWords,
    keeper: Keeper,
    device: MemDisk,
}

/// The states of a mailbox that has asked, and of one that is answered.
const ASKED: u64 = 1;

const READY: u64 = 2;

/// Where the first slot of a new store tells its commit, and that of its checkpoint.
const NUMBER_PLACES: [u64; 2] = [520, 824];

impl Store {
    /// A new store of this shape, and its sessions. Its commit gets this number, which is even: an odd one stands in the second slot.
    pub(crate) fn open(
        alloc: Global,
        shape: Shape,
        number: u64,
    ) -> Result<(Store, Vec<Session>), Fault> {
        let mut disk = MemDisk::new(alloc);
        create(&mut disk, shape)?;
        for place in &NUMBER_PLACES {
            disk.write(*place, &number.to_le_bytes())?;
        }
        let opened = recover(alloc, &mut disk)?;
        let (words, sessions, keeper, device) = World::open(alloc, opened, disk)?.into_parts();
        let store = Store {
            words,
            keeper,
            device,
        };
        Ok((store, sessions))
    }

    /// What a word holds.
    pub(crate) fn word(&self, word: SharedWord) -> u64 {
        self.words.word(word.place())
    }

    /// The records in memory that are on the device too get this mark, as if a version that has it had made them. Gives where they end.
    pub(crate) fn age(&mut self, places: &Places, mark: u64) -> Addr {
        let end = self.word(SharedWord::Flushed);
        for addr in self.word(SharedWord::Head)..end {
            let place = places.record(Addr(addr), RecordWord::Header);
            let header = with_mark(self.words.word(place), mark);
            let aged: Ask<KeeperTold> = Ask::Store(place, header);
            let _ = self.words.perform(&aged);
        }
        Addr(end)
    }

    /// Answers each mailbox that asks for a record below this begin of the log: it is gone. While a call of the keeper is in hand it answers none. Gives
    /// how many it has answered.
    pub(crate) fn lose_below(&mut self, places: &Places, begin: u64) -> u64 {
        if self.is_busy() {
            return 0;
        }
        let mut gone = 0_u64;
        for session in 0..places.sessions {
            let state = SessionWord::MailState.place(session);
            let asked = self.words.word(SessionWord::MailAddress.place(session));
            if self.words.word(state) == ASKED && asked < begin {
                self.put(SessionWord::MailHeader.place(session), 0);
                self.put(SessionWord::MailKey.place(session), begin);
                self.put(SessionWord::MailValue.place(session), 0);
                self.put(state, READY);
                gone = gone.wrapping_add(1);
            }
        }
        gone
    }

    fn put(&mut self, place: usize, word: u64) {
        let stores: Ask<KeeperTold> = Ask::Store(place, word);
        let _ = self.words.perform(&stores);
    }

    /// Whether a call of the keeper is in hand.
    pub(crate) fn is_busy(&self) -> bool {
        self.keeper.is_in_hand()
    }

    /// Begins a turn, where no call of the keeper is in hand.
    pub(crate) fn begin_turn(&mut self) {
        if !self.is_busy() {
            let _ = self.keeper.begin_turn();
        }
    }

    /// Begins a commit, where no call of the keeper is in hand.
    pub(crate) fn begin_commit(&mut self, kind: CommitKind) {
        if !self.is_busy() {
            let _ = self.keeper.begin_commit(kind);
        }
    }

    /// Moves the keeper one step. Whether its call goes on.
    fn move_once(&mut self) -> bool {
        match self.keeper.ask() {
            Ask::Done(KeeperTold::Device) => {
                let _ = self.keeper.device_step(&mut self.device);
                true
            }
            Ask::Done(_) => false,
            ask => {
                let _ = step(&mut self.words, &mut self.keeper, &ask);
                true
            }
        }
    }

    /// Moves the keeper so many steps, or to the end of its call.
    pub(crate) fn move_keeper(&mut self, steps: u64) {
        for _ in 0..steps {
            let goes_on = self.move_once();
            if !goes_on {
                return;
            }
        }
    }
}
