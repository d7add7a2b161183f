//! The words as a plain list, for one actor's step at a time.
ghost use Rattle.std.specs.Prelude.{◌≡◌, ℕ, List, IfOk, OnErr, Err, Option, replicate, None, Some, slice_set};
ghost use Rattle.fkv_base.specs.Limits.{drain_slots};
ghost use Rattle.fkv_base.specs.declared.faults.Fault.TheVariants.{Memory};

use crate::actions::Action;
use crate::asks::Ask;
use fkv_base::Fault;
use std::alloc::Global;
use std::marker::Model;

/// The shared words and the eight drain slots, outside of any thread.
#[derive(Drop)]
pub struct PlainWords {
    words: Vec<u64>,
    actions: Vec<Option<Action>>,
}

impl Model for PlainWords {
    ghost use Rattle.fkv_plane.specs.Plane.{Plane};

    ghost Value = { Plane };

    ghost view = { λ p. record { words = p.words.items; actions = p.actions.items } };
}

impl PlainWords {
    ghost use Rattle.fkv_plane.specs.Asked.{word_at, words_after, reply_to};
    ghost use Rattle.fkv_plane.specs.Plane.{action_at, put_back};

    /// So many words, all 0, and eight empty slots.
    pub fn new(alloc: Global, count: usize) -> Result<PlainWords, Fault>
        ensures made { IfOk result (λ p. p ≡ record { words = replicate count 0; actions = replicate drain_slots None }) }
        ensures err { OnErr result (result ≡ Err Memory) }
    {
        let words = vec![in alloc; 0; count]?;
        let slots: [Option<Action>; 8] = [None, None, None, None, None, None, None, None];
        let actions = Vec::from_array(alloc, slots)?;
        Ok(PlainWords { words, actions })
    }

    /// The word at a place. Past the last word it is 0.
    pub fn word(&self, place: usize) -> u64
        ensures { result ≡ word_at self.now.words place }
    {
        match self.words.get(place) {
            Some(word) => *word,
            None => 0,
        }
    }

    /// Does what is asked, and gives the word as it was. Past the last word nothing changes and the reply is 0. `Put`,
    /// `Take` and `Done` change nothing here, and the reply is 0.
    pub fn perform<A>(&mut self, ask: &Ask<A>) -> u64
        ensures reply { result ≡ reply_to self.old.words ask.now }
        ensures after { self.new ≡ record self.old { words = words_after self.old.words ask.now } }
    {
        match ask {
            Ask::Load(place) => self.word(*place),
            Ask::Store(place, new) => self.exchange(*place, *new),
            Ask::Swap(place, new) => self.exchange(*place, *new),
            Ask::Cas(place, old, new) => {
                let word = self.word(*place);
                if word == *old {
                    self.exchange(*place, *new);
                }
                word
            }
            Ask::Add(place, number) => {
                let word = self.word(*place);
                self.exchange(*place, word.wrapping_add(*number))
            }
            Ask::Max(place, number) => {
                let word = self.word(*place);
                self.exchange(*place, word.max(*number))
            }
            Ask::Put(_, _) | Ask::Take(_) | Ask::Done(_) => 0,
        }
    }

    /// The word becomes the number, where the place has a word; gives the word as it was.
    fn exchange(&mut self, place: usize, new: u64) -> u64
        ensures reply { result ≡ word_at self.old.words place }
        ensures after { self.new ≡ record self.old { words = slice_set self.old.words place new } }
    {
        if place >= self.words.len() {
            return 0;
        }
        let old = self.words[place];
        self.words[place] = new;
        old
    }

    /// Puts the action into a slot, 0 to 7, and gives back what the slot had. Where there is no such slot it gives the
    /// action back.
    pub fn put(&mut self, slot: usize, action: Action) -> Option<Action>
        ensures back { result ≡ put_back self.old.actions slot action }
        ensures after { self.new ≡ record self.old { actions = slice_set self.old.actions slot (Some action) } }
    {
        if slot >= self.actions.len() {
            return Some(action);
        }
        self.actions[slot].replace(action)
    }

    /// Moves the action out of a slot, if it has one.
    pub fn take(&mut self, slot: usize) -> Option<Action>
        ensures value { result ≡ action_at self.old.actions slot }
        ensures after { self.new ≡ record self.old { actions = slice_set self.old.actions slot None } }
    {
        if slot >= self.actions.len() {
            return None;
        }
        self.actions[slot].take()
    }
}
