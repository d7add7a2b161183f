//! Of each life of a store that was opened: what it begins with, and that it has one history, where the events of the log beside it keep to their rules.
ghost use Rattle.law_order.specs.Rules.InTime.{ReadsInTime};
ghost use Rattle.law_order.specs.Said as said;

use law_commit::{law_world_is_guarded, law_world_once};
use law_opening::{
    law_guard_opens, law_index_opens, law_log_above, law_log_begins, law_log_beside,
    law_log_counted, law_log_heads, law_log_opened, law_words_open,
};

/// The life of an opened store begins with the log of its image, from the store's map and in the version of its commit, and at rest in the version behind
/// that: the engine, the guard, the index and each mailbox are as such a store has them, the chains begin where the entries of the index lead, and the
/// image has each record of the log. None of them lies below the address at which the log begins, which is each session's floor.
pub fn law_life_begins()
    ensures { said.BeginsItsLife }
{
    law_guard_opens();
    law_index_opens();
    law_words_open();
    law_log_counted();
    law_log_above();
    law_log_opened();
    law_log_begins();
    law_log_heads();
}

/// The world of an opened store has all its words. The cut word of its commit's version shows each session's serial, no session owes an update, and the
/// durable words show the commit's points. So the laws of cuts and of durable words hold of each life of an opened store.
pub fn law_cuts_open()
    ensures words { said.OpensWithItsWords }
    ensures cuts { said.OpensItsCuts }
    ensures durable { said.OpensItsDurables }
{
    law_guard_opens();
    law_words_open();
}

/// Where each event of the log beside such a life keeps to its rule, and what a session changes in place is published, the life itself has one history: what
/// has taken effect so far is legal from the store's map on, with the replies that were given. It orders the calls: each update whose result was given took
/// effect once, with that reply, none took effect but those that were called, and one whose result was given before another was called took effect before it.
/// And each read is answered by its key's value at some moment between its call and its answer. The life is guarded. In each life, with commits or without,
/// each action is run once at most, and when each protected session goes by what it loaded since.
pub fn law_order_of_rules()
    ensures legal { said.OfEachKept said.HasLegalHistory }
    ensures ordered { said.OfEachKept said.OrdersItsCalls }
    ensures fresh { said.OfEachKept said.ReadsFreshly }
    ensures in_time { said.OfEachKept ReadsInTime }
    ensures guarded { said.OfEachKept said.IsGuarded }
    ensures once { said.InEachLife said.RunsActionsOnce }
{
    law_guard_opens();
    law_log_opened();
    law_log_begins();
    law_log_beside();
    law_world_is_guarded();
    law_world_once();
}
