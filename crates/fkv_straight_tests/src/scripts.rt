//! Events that are drawn.
use fkv_base::{CommitKind, Key, Value};
use fkv_map::{Call, Merge, Op};

/// What happens next.
#[derive(Clone, Copy)]
pub(crate) enum Event {
    /// The session of this number makes a call. If there is a value, another session is quicker than the call, and leaves this value.
    Call(usize, Call, Option<Value>),
    /// The keeper begins a turn, and makes so many steps of it.
    Turn(u64),
    /// The keeper makes so many steps of its call.
    Move(u64),
    /// The keeper begins a commit, and makes all its steps.
    Commit(CommitKind),
}

/// The keys of a script: so many homes, and so many keys of each home. These lie so far apart.
#[derive(Clone, Copy)]
pub(crate) struct Keys {
    pub(crate) apart: u64,
    pub(crate) homes: u64,
    pub(crate) keys: u64,
}

/// So many homes have one bucket.
const TAGS: u64 = 1 << 15;

impl Keys {
    /// Those of so many homes, and so many of each, if the index has so many buckets.
    pub(crate) fn of(buckets: usize, homes: u64, keys: u64) -> Keys {
        Keys {
            apart: TAGS.wrapping_mul(buckets as u64),
            homes,
            keys,
        }
    }
}

/// Draws events, from a seed.
#[derive(Drop)]
pub(crate) struct Draws {
    state: u64,
    keys: Keys,
    sessions: u64,
    /// The session of the operation that came last, if that had a rival.
    slower: Option<usize>,
}

impl Draws {
    pub(crate) fn new(seed: u64, keys: Keys, sessions: u64) -> Draws {
        Draws {
            state: seed.wrapping_mul(0x9e37_79b9_7f4a_7c15),
            keys,
            sessions,
            slower: None,
        }
    }

    /// A number below a bound; 0 for the bound 0.
    fn below(&mut self, bound: u64) -> u64 {
        self.state = self
            .state
            .wrapping_mul(0x5851_f42d_4c95_7f2d)
            .wrapping_add(0x1405_7b7e_f767_814f);
        let drawn = self.state >> 33;
        match drawn.checked_rem(bound) {
            Some(rest) => rest,
            None => 0,
        }
    }

    /// What comes next. Behind an operation that had a rival its session polls, one time out of two.
    pub(crate) fn next(&mut self) -> Event {
        if let Some(session) = self.slower.take() {
            if self.below(2) == 0 {
                return Event::Call(session, Call::Poll, None);
            }
        }
        self.next_event()
    }

    /// Each call of a session, and what the keeper does.
    fn next_event(&mut self) -> Event {
        let session = self.below(self.sessions) as usize;
        match self.below(60) {
            0..3 => Event::Turn(u64::MAX),
            3..5 => Event::Turn(self.below(40)),
            5 => Event::Move(self.below(20)),
            6 => self.next_commit(),
            7..13 => Event::Call(session, Call::Poll, self.next_rival()),
            13 => Event::Call(session, Call::Sleep, None),
            14..18 => Event::Call(session, Call::Wake, None),
            18 => Event::Call(session, Call::Durable, None),
            19..26 => Event::Call(session, Call::Refresh, None),
            _ => self.next_operation(session),
        }
    }

    fn next_operation(&mut self, session: usize) -> Event {
        let call = Call::Op(self.next_op());
        let rival = self.next_rival();
        if rival.is_some() {
            self.slower = Some(session);
        }
        Event::Call(session, call, rival)
    }

    /// A commit one time out of three, and else a turn.
    fn next_commit(&mut self) -> Event {
        match self.below(6) {
            0 => Event::Commit(CommitKind::Full),
            1 => Event::Commit(CommitKind::Log),
            _ => Event::Turn(u64::MAX),
        }
    }

    /// What another session leaves that is quicker: one is, one time out of eight.
    fn next_rival(&mut self) -> Option<Value> {
        match self.below(8) {
            0 => Some(Value(self.below(1000))),
            _ => None,
        }
    }

    /// The first homes are drawn more often, and so are the first keys of a home.
    fn next_key(&mut self) -> Key {
        let homes = self.below(self.keys.homes);
        let keys = self.below(self.keys.keys);
        let home = self.below(homes.wrapping_add(1));
        let nth = self.below(keys.wrapping_add(1));
        Key(nth.wrapping_mul(self.keys.apart).wrapping_add(home))
    }

    fn next_op(&mut self) -> Op {
        let key = self.next_key();
        let number = self.below(1000);
        match self.below(7) {
            0 => Op::Read(key),
            1 => Op::Upsert(key, Value(number)),
            2 => Op::Delete(key),
            3 => Op::Add(key, number),
            4 => Op::Max(key, number),
            _ => Op::Merge(key, self.next_merge(), number),
        }
    }

    fn next_merge(&mut self) -> Merge {
        match self.below(6) {
            0 => Merge::Keep,
            1 => Merge::Min,
            2 => Merge::Sub,
            3 => Merge::And,
            4 => Merge::Or,
            _ => Merge::First,
        }
    }
}
