//! What comes behind a crash, and what a life shows of itself.
use crate::beside_each_other::all_go;
use crate::lines::Line::{Commit, Get, Turn, Up};
use crate::lines::{Line, beginning};
use crate::stores::{Sizes, Store, WIDE, WIDE_FOR_TWO, begin, crash, hold, new_store, steps};
use fkv_base::{Fault, Value};
use fkv_core::{Actor, Event, Told};
use fkv_disk::FuseState;
use fkv_plane::SharedWord;
use fkv_session::Answer;
use std::alloc::Global;
use std::process::Abort;
use std::test::Fail;

/// More steps than the calls of these tests have.
const ENOUGH: u64 = 200;

/// The words that calls of sessions and of the keeper change.
fn shared_words(store: &Store) -> [u64; 5] {
    [
        store.word(SharedWord::Epoch.place()),
        store.word(SharedWord::SafeEpoch.place()),
        store.word(SharedWord::Phase.place()),
        store.word(SharedWord::Tail.place()),
        store.word(SharedWord::Flushed.place()),
    ]
}

/// Whether a call can't be begun and moved, and leaves the words.
fn is_nothing(store: &mut Store, line: Line) -> bool {
    let before = shared_words(store);
    let told = begin(store, beginning(line), ENOUGH);
    told.is_none() && shared_words(store) == before
}

/// Whether the life ends here, and the call that session 0 has in hand with it: nothing moves it any more.
fn ends_in_hand(store: &mut Store) -> bool {
    let before = shared_words(store);
    let was_in_hand = store.is_in_hand(Actor::Session(0));
    let told = store.step(Event::Crash);
    let moved = steps(store, Event::Move(0), ENOUGH);
    was_in_hand
        && !store.is_in_hand(Actor::Session(0))
        && told.is_none()
        && moved.is_none()
        && shared_words(store) == before
}

/// An update has reserved its address when the life ends: it is never answered, and neither another call nor the keeper does anything.
fn nothing_happens_behind_a_crash(rt: &impl Abort, store: &mut Store) {
    hold!(rt; begin(store, beginning(Up(0, 1, 10)), 4).is_none());
    hold!(rt; ends_in_hand(store));
    for line in [Get(0, 1), Commit, Turn] {
        hold!(rt; is_nothing(store, line));
    }
}

/// The effects that session 0 shows up to the end of its call, each behind one of its asks; none where it doesn't end.
fn effects_of_a_call(store: &mut Store) -> Option<u64> {
    let mut effects = 0u64;
    for _ in 0..ENOUGH {
        let told = store.step(Event::Move(0));
        effects = effects.saturating_add(store.effect(0).is_some() as u64);
        if told.is_some() {
            return Some(effects);
        }
    }
    None
}

/// Of the asks of an update one makes its effect, and the world shows it behind that one alone.
fn an_effect_is_shown(rt: &impl Abort, store: &mut Store) {
    hold!(rt; store.step(beginning(Up(0, 1, 10))).is_none());
    hold!(rt; effects_of_a_call(store) == Some(1));
    hold!(rt; store.effect(1).is_none());
}

/// A fuse shows how far it is from blowing.
fn a_fuse_is_shown(rt: &impl Abort, store: &mut Store) {
    hold!(rt; store.fuse() == FuseState::Sound);
    store.arm(3);
    hold!(rt; store.fuse() == FuseState::Armed(3));
}

/// How many events begin and move session 0's read of this key up to the one in which it ends.
fn events_of_a_read(store: &mut Store, key: u64) -> Option<u64> {
    if store.advance(beginning(Get(0, key))) {
        return Some(1);
    }
    for count in 0..ENOUGH {
        if store.advance(Event::Move(0)) {
            return Some(count.saturating_add(2));
        }
    }
    None
}

/// There is no answer before the call's end.
fn an_update_ends(rt: &impl Abort, store: &mut Store) {
    hold!(rt; !store.advance(beginning(Up(0, 1, 10))));
    hold!(rt; store.answer(Event::Move(0)).is_none());
    hold!(rt; effects_of_a_call(store) == Some(1));
}

/// The answer is there, and stays there.
fn a_read_ends(rt: &impl Abort, store: &mut Store) {
    hold!(rt; events_of_a_read(store, 1).is_some());
    let found = Some(Told::Session(0, Answer::Found(Value(10))));
    for _ in 0..2 {
        hold!(rt; store.answer(Event::Move(0)) == found);
    }
}

/// Nothing moves behind the end, and no other actor has an answer.
fn nothing_is_in_hand(rt: &impl Abort, store: &mut Store) {
    hold!(rt; !store.advance(Event::Move(0)));
    hold!(rt; store.answer(Event::Move(7)).is_none());
    hold!(rt; store.answer(Event::Crash).is_none());
}

/// Where a call ends in an event its answer is there, and stays there up to the next call.
fn an_answer_is_taken_behind_the_end(rt: &impl Abort, store: &mut Store) {
    an_update_ends(rt, store);
    a_read_ends(rt, store);
    nothing_is_in_hand(rt, store);
}

/// What is played over a new store.
#[derive(Clone, Copy)]
enum Scene {
    Crash,
    Shown,
    Answer,
    Middle,
}

fn plays(rt: &impl Abort, store: &mut Store, scene: Scene) {
    match scene {
        Scene::Crash => nothing_happens_behind_a_crash(rt, store),
        Scene::Shown => {
            an_effect_is_shown(rt, store);
            a_fuse_is_shown(rt, store);
        }
        Scene::Answer => an_answer_is_taken_behind_the_end(rt, store),
        Scene::Middle => all_go(rt, store),
    }
}

/// (The store ends, since its drop would be proved too.)
fn play(rt: &impl Abort, alloc: Global, scene: Scene, sizes: Sizes) -> Result<(), Fault> {
    let mut store = new_store(alloc, sizes)?;
    plays(rt, &mut store, scene);
    crash(store, 0)?;
    Ok(())
}

#[test]
fn scenes_are_played(rt: HostRuntime) -> Result<(), Fail> {
    for (scene, sizes) in [
        (Scene::Crash, WIDE),
        (Scene::Shown, WIDE),
        (Scene::Answer, WIDE),
        (Scene::Middle, WIDE_FOR_TWO),
    ] {
        play(&rt, rt.alloc(), scene, sizes)?;
    }
    Ok(())
}
