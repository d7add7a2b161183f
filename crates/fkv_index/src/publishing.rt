//! How an entry is published.
ghost use Rattle.std.specs.Prelude.{◌≡◌, ◌<◌};
ghost use Rattle.fkv_words.specs.Layout.{entry_word};
ghost use Rattle.fkv_index.specs.Publishing.{publish_first, publish_ask, publish_next, publish_next_ask, published_where, publish_asks_left};
ghost use Rattle.fkv_index.specs.Counted.{IsCounted};

use fkv_plane::Ask;
use fkv_words::Entry;
use std::marker::Model;

/// How far the machine has come: the slot's place, the word that was found there, and the word of the new entry.
#[derive(Clone, Copy)]
pub(crate) enum Publishing {
    AtRest,
    SwapsEntry(usize, u64, u64),
}

/// What the machine has come to.
#[derive(Clone, Copy, Debug, PartialEq, Eq)]
pub enum PublishAnswer {
    /// The entry stands in its slot.
    Won,
    /// The slot had another word than the one that was found, or the machine is at rest.
    Lost,
}

/// Puts an entry into its slot, by one Cas that expects the word that was found there.
#[derive(Drop)]
pub struct Publish {
    step: Publishing,
}

impl Model for Publish {
    ghost use Rattle.fkv_index.specs.Publishing.{Publisher};

    ghost Value = { Publisher };

    ghost view = { λ m. record { step = m.step } };
}

impl Publish {
    ghost use Rattle.fkv_plane.specs.declared.asks.Ask.TheVariants.{Cas};
    ghost use Rattle.fkv_index.specs.declared.publishing.Publishing.TheVariants.{AtRest};

    /// The machine at rest.
    pub fn new() -> Publish
        ensures { result ≡ record { step = AtRest } }
    {
        Publish {
            step: Publishing::AtRest,
        }
    }

    /// The first ask: to publish the entry in the slot at this place, where this word was found.
    #[tactic(auto, unfolding(crate::specs::Publishing::publish_ask, crate::specs::Publishing::publish_asks_left))]
    pub fn start(&mut self, place: usize, word: u64, entry: Entry) -> Ask<PublishAnswer>
        ensures next { self.new ≡ record { step = publish_first place word (entry_word entry) } }
        ensures ask { result ≡ Cas place word (entry_word entry) }
        ensures bounded { publish_asks_left self.new.step ≡ 1 }
        ensures counted { IsCounted (publish_asks_left self.new.step) result }
    {
        self.step = Publishing::SwapsEntry(place, word, entry.pack());
        self.ask()
    }

    /// Goes on with the reply to its ask. At rest it stays where it is.
    #[tactic(auto, unfolding(crate::specs::Publishing::publish_next, crate::specs::Publishing::publish_next_ask, crate::specs::Publishing::publish_asks_left))]
    pub fn drive(&mut self, reply: u64) -> Ask<PublishAnswer>
        ensures next { self.new ≡ record { step = publish_next self.old.step reply } }
        ensures ask { result ≡ publish_next_ask self.old.step reply }
        ensures fewer { 0 < publish_asks_left self.old.step → publish_asks_left self.new.step < publish_asks_left self.old.step }
        ensures counted { IsCounted (publish_asks_left self.new.step) result }
    {
        let answer = match self.step {
            Publishing::AtRest => PublishAnswer::Lost,
            Publishing::SwapsEntry(_, word, _) => published_where(word, reply),
        };
        self.step = Publishing::AtRest;
        Ask::Done(answer)
    }

    /// What it asks now.
    #[tactic(auto, unfolding(crate::specs::Publishing::publish_ask, crate::specs::Publishing::publish_asks_left))]
    pub fn ask(&self) -> Ask<PublishAnswer>
        ensures ask { result ≡ publish_ask self.now.step }
        ensures counted { IsCounted (publish_asks_left self.now.step) result }
    {
        match self.step {
            Publishing::AtRest => Ask::Done(PublishAnswer::Lost),
            Publishing::SwapsEntry(place, word, entry) => Ask::Cas(place, word, entry),
        }
    }
}

/// What a Cas has come to that expected this word, and found this one.
fn published_where(word: u64, found: u64) -> PublishAnswer
    ensures { result ≡ published_where word found }
{
    if found == word {
        PublishAnswer::Won
    } else {
        PublishAnswer::Lost
    }
}
