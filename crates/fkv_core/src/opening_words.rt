//! The shared words as a store opens.
ghost use Rattle.std.specs.Prelude.{◌≡◌, ◌^◌, ◌<◌, ◌≤◌, ◌++◌, drop, length, replicate, IfOk, OnErr, Err, None};
ghost use Rattle.fkv_base.specs.Limits.{drain_slots};
ghost use Rattle.fkv_base.specs.declared.faults.Fault.TheVariants.{Memory};
ghost use Rattle.fkv_core.specs.OpeningWords.{AreWordsOfOpened, laid_round, words_before_frames, words_of_session, words_once};

use fkv_base::Fault;
use fkv_filling::{IndexWords, index_words};
use fkv_opening::Opened;
use fkv_plane::{Ask, Places, PlainWords};
use std::alloc::Global;

/// The words and the empty slots of a store that opens. `Memory` where memory was refused.
#[tactic(auto, using(crate::proofs::Lengths::words_whole))]
pub(crate) fn opening_plane(alloc: Global, opened: &Opened) -> Result<PlainWords, Fault>
    ensures words { IfOk result (λ plane. AreWordsOfOpened opened.now plane.words) }
    ensures slots { IfOk result (λ plane. plane.actions ≡ replicate drain_slots None) }
    ensures err { OnErr result (result ≡ Err Memory) }
{
    let index = index_words(alloc, &opened.shape, &opened.entries)?;
    let words = words_in_order(alloc, opened, &index)?;
    let places = Places::of(&opened.shape);
    let mut plane = PlainWords::new(alloc, places.word_count())?;
    write_words(&mut plane, &words);
    let first = 3 * (opened.warm.0 as usize % places.ring);
    write_round(
        &mut plane,
        words.len(),
        3 * places.ring,
        first,
        &opened.frames,
    );
    Ok(plane)
}

/// Writes the words from the first place on.
#[tactic(auto, using(crate::proofs::Written::written_step, crate::proofs::Written::written_whole))]
fn write_words(plane: &mut PlainWords, words: &[u64])
    requires { length words.now ≤ length plane.old.words }
    ensures { plane.new ≡ record plane.old { words = words.now ++ drop (length words.now) plane.old.words } }
{
    for (place, word) in words.iter().enumerate() {
        plane.perform::<()>(&Ask::Store(place, *word));
    }
}

/// Writes the words one after another round a ring of so many words, which begins at a place, from one of its words on.
#[tactic(auto, using(crate::proofs::Written::laid_start, crate::proofs::Written::laid_step))]
fn write_round(plane: &mut PlainWords, base: usize, size: usize, first: usize, words: &[u64])
    requires low { base < 2 ^ 63 }
    requires some { 0 < size }
    requires small { size ≤ 2 ^ 32 }
    requires inside { first < size }
    ensures { plane.new ≡ record plane.old { words = laid_round base size first words.now plane.old.words (length words.now) } }
{
    for (i, word) in words.iter().enumerate() {
        plane.perform::<()>(&Ask::Store(base + (first + i) % size, *word));
    }
}

/// All words before the frames, in the order of their places.
fn words_in_order(alloc: Global, opened: &Opened, index: &IndexWords) -> Result<Vec<u64>, Fault>
    ensures ok { IfOk result (λ words. words.items ≡ words_before_frames opened.now index.now.words.items index.now.taken) }
    ensures err { OnErr result (result ≡ Err Memory) }
{
    let mut words = Vec::new(alloc);
    words.extend_from_slice(&words_once(opened, index.taken))?;
    for session in 0..opened.shape.sessions as usize {
        words.extend_from_slice(&words_of_session(opened, session))?;
    }
    words.extend_from_slice(&index.words)?;
    Ok(words)
}

/// The words that the store has once, and those of the drain slots.
#[tactic(auto, using(crate::proofs::Named::once_so))]
fn words_once(opened: &Opened, taken: u64) -> [u64; 24]
    ensures { result ≡ words_once opened.now taken }
{
    let its = opened.words();
    let drain = its.drain;
    [
        its.epoch,
        its.safe_epoch,
        its.phase.pack(),
        its.tail.0,
        its.limit.0,
        its.read_only.0,
        its.safe_read_only.0,
        its.flushed.0,
        its.head.0,
        its.closed.0,
        taken,
        0,
        0,
        0,
        0,
        0,
        drain,
        drain,
        drain,
        drain,
        drain,
        drain,
        drain,
        drain,
    ]
}

/// The words of one session.
#[tactic(auto, using(crate::proofs::Named::own_so))]
fn words_of_session(opened: &Opened, session: usize) -> [u64; 16]
    requires { session < opened.now.shape.sessions }
    ensures { result ≡ words_of_session opened.now session }
{
    let its = opened.session(session);
    [
        its.epoch,
        its.even_cut.pack(),
        its.odd_cut.pack(),
        its.owing,
        its.durable.0,
        its.mail_state,
        its.mail_address,
        its.mail_header,
        its.mail_key,
        its.mail_value,
        0,
        0,
        0,
        0,
        0,
        0,
    ]
}
