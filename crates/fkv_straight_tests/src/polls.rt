//! Polls of a living store whose calls have taken all records that are theirs, as bad as they can be: whenever a request is done, each other session has
//! just made a record whose entry it loses.
use crate::actors::step;
use crate::meetings::Parts;
use crate::stores::Store;
use fkv_base::{Fault, Key, Shape, Value};
use fkv_map::{Call, Op};
use fkv_plane::{Ask, Places, SharedWord};
use fkv_session::{Session, Told};
use std::alloc::Global;
use std::process::Abort;
use std::test::Fail;

const SESSIONS: usize = 3;

/// Requests of one session that wait at most. The last session has one less: it makes calls behind them.
const REQUESTS: usize = 64;

/// 64 buckets, and one page. Calls leave 585 of its 1,024 addresses.
const SIZES: [u64; 6] = [6, 1024, 2, 1, 195, 1];

const BOUND: u64 = 439;

/// As many records as 191 requests cost: three each, as long as each session has one left.
const MOST_RECORDS: u64 = 189 * 3 + 2 + 1;

/// Keys of one home lie so far apart.
const APART: u64 = 1 << 21;

/// More asks than a call makes.
const MOST_ASKS: u64 = 1 << 20;

/// More polls than come to no record one after another.
const MOST_POLLS: u64 = 4;

/// A session, and where its call stands.
#[derive(Drop)]
struct Racer {
    session: Session,
    ask: Ask<Told>,
}

/// Sessions over one store, which race to publish.
#[derive(Drop)]
struct Race {
    store: Store,
    parts: Parts,
    racers: Vec<Racer>,
    /// The next key of the home for which they race.
    next: u64,
}

/// Whether it is the Cas that publishes an entry.
fn publishes(parts: &Parts, ask: &Ask<Told>) -> bool {
    match ask {
        Ask::Cas(place, _, _) => parts.is_slot(*place),
        _ => false,
    }
}

/// What the call was told, if it has ended.
fn told(ask: &Ask<Told>) -> Option<Told> {
    match ask {
        Ask::Done(told) => Some(*told),
        _ => None,
    }
}

impl Racer {
    fn step(&mut self, store: &mut Store) {
        self.ask = step(&mut store.words, &mut self.session, &self.ask);
    }

    /// Goes on until it is about to publish, or its call has ended. Whether it is about to.
    fn approach(&mut self, store: &mut Store, parts: &Parts) -> bool {
        for _ in 0..MOST_ASKS {
            if publishes(parts, &self.ask) {
                return true;
            }
            if told(&self.ask).is_some() {
                return false;
            }
            self.step(store);
        }
        false
    }

    /// Goes on to the end of its call.
    fn finish(&mut self, store: &mut Store) -> Option<Told> {
        for _ in 0..MOST_ASKS {
            let answer = told(&self.ask);
            if answer.is_some() {
                return answer;
            }
            self.step(store);
        }
        None
    }

    /// Makes a whole call.
    fn call(&mut self, store: &mut Store, call: Call) -> Option<Told> {
        self.ask = self.session.begin(call);
        self.finish(store)
    }

    /// Polls until it is about to publish for a request, or has none left. Whether it is about to.
    fn polls(&mut self, store: &mut Store, parts: &Parts) -> bool {
        for _ in 0..MOST_POLLS {
            if self.approach(store, parts) {
                return true;
            }
            if let Some(Told::Polled(0)) = told(&self.ask) {
                return false;
            }
            self.ask = self.session.begin(Call::Poll);
        }
        false
    }
}

impl Race {
    fn open(alloc: Global) -> Result<Race, Fault> {
        let [bits, page, frames, mutable, overflow, pages] = SIZES;
        let shape = Shape::large(
            bits,
            page,
            frames,
            mutable,
            SESSIONS as u64,
            overflow,
            pages,
        )?;
        let (store, sessions) = Store::open(alloc, shape, 0)?;
        let mut racers = Vec::new(alloc);
        for session in sessions {
            let ask = Ask::Done(Told::Slept);
            if racers.push(Racer { session, ask }).is_err() {
                return Err(Fault::Memory);
            }
        }
        Ok(Race {
            store,
            parts: Parts::of(&Places::of(&shape), 0),
            racers,
            next: 0,
        })
    }

    /// An update of a key of the home that has no record.
    fn next_update(&mut self) -> Call {
        let key = Key(self.next.wrapping_mul(APART));
        self.next = self.next.wrapping_add(1);
        Call::Op(Op::Upsert(key, Value(self.next)))
    }

    /// The session makes such an update.
    fn update(&mut self, number: usize) {
        let call = self.next_update();
        if let Some(racer) = self.racers.get_mut(number) {
            let _ = racer.call(&mut self.store, call);
        }
    }

    /// These sessions come to publish an update each, and then the winner makes its own. So they lose. Whether theirs wait.
    fn lose(&mut self, losers: &[usize], winner: usize) -> bool {
        for number in losers {
            let call = self.next_update();
            if let Some(racer) = self.racers.get_mut(*number) {
                racer.ask = racer.session.begin(call);
                let _ = racer.approach(&mut self.store, &self.parts);
            }
        }
        self.update(winner);
        for number in losers {
            if let Some(racer) = self.racers.get_mut(*number) {
                let told = racer.finish(&mut self.store);
                if !matches!(told, Some(Told::Pending(_, _))) {
                    return false;
                }
            }
        }
        true
    }

    /// The session updates keys of other homes until one is refused.
    fn fill(&mut self, number: usize) -> Option<Fault> {
        let racer = self.racers.get_mut(number)?;
        for key in 1..BOUND {
            let call = Call::Op(Op::Upsert(Key(key), Value(key)));
            if let Some(Told::Refused(fault)) = racer.call(&mut self.store, call) {
                return Some(fault);
            }
        }
        None
    }

    /// How many sessions are about to publish for a request.
    fn poll(&mut self) -> u64 {
        let mut ready = 0u64;
        for racer in self.racers.iter_mut() {
            if racer.polls(&mut self.store, &self.parts) {
                ready = ready.wrapping_add(1);
            }
        }
        ready
    }

    /// All that are about to publish do so, from this session on: the first of them wins.
    fn publish(&mut self, first: usize) {
        for ahead in 0..SESSIONS {
            let number = first.wrapping_add(ahead) % SESSIONS;
            if let Some(racer) = self.racers.get_mut(number) {
                if publishes(&self.parts, &racer.ask) {
                    racer.step(&mut self.store);
                }
            }
        }
    }

    /// All poll until no request is left, and win in turn. How many records they make.
    fn run(&mut self) -> u64 {
        let mut records = 0u64;
        for turn in 0..SESSIONS * REQUESTS {
            records = records.wrapping_add(self.poll());
            self.publish(turn % SESSIONS);
        }
        records
    }
}

#[test]
fn polls_find_room_however_often_they_lose(rt: HostRuntime) -> Result<(), Fail> {
    let mut race = Race::open(rt.alloc())?;
    race.update(0);
    for _ in 1..REQUESTS {
        assert!(rt; race.lose(&[2], 0));
    }
    for _ in 0..REQUESTS {
        assert!(rt; race.lose(&[0, 1], 2));
    }
    assert!(rt; race.fill(2) == Some(Fault::LogFull));
    assert!(rt; race.store.word(SharedWord::Tail) == BOUND);
    assert!(rt; race.run() == MOST_RECORDS);
    assert!(rt; race.store.word(SharedWord::Tail) == BOUND + MOST_RECORDS);
    assert!(rt; race.poll() == 0);
    Ok(())
}
