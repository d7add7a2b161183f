//! What wrong tables lead to, computed.
ghost use Rattle.law_wrong_runs.specs.Said as said;

use fkv_creating::law_new_stores;
use fkv_manifest::{law_gates, law_slots_are_named};
use fkv_record::{law_formats_apart, law_spellings_apart};
use law_opening::law_log_opened;

/// Two sessions of a store with one bucket, whose key has 70 by one record. A table by which a record that is fixed is changed in place leads to a
/// history that isn't legal, as does one by which a record is copied while another session may still change it in place; the same events leave legal
/// histories by the right table. And a table by which a read is told what the store was opened with leads to a read that isn't fresh. An update that is
/// told as refused behind its effect leaves calls without an order. A call that asks what is durable, and is refused behind its ask, isn't answered
/// in its kind. A page that is opened without a look at the closed offset isn't flushed in its frame, a session that keeps its offsets as it wakes
/// writes a flushed record, and an action that is claimed one epoch early isn't seen by each session. Where the log's begin rises above a record that a read
/// waits for, the read is told that it is gone. If it takes that for a record of its key without a value, it isn't fresh; by the right table it is.
pub fn law_of_wrong_lives()
    ensures { (keeper : said.KeeperState) (one other : said.SessionState) → said.AreWrongLives keeper one other }
{}

/// Two sessions of the same store, of which nothing is kept yet. Session 0 has given a key a value. If it is told its last serial as durable, that is its point
/// in no commit. So no commit is current either, as one has to be that an image holds. By the right table it is told its point in the opening's commit. A
/// commit that keeps nothing has a point below what session 0 had given as the commit was asked for. An image of it has the value that was given, and that isn't
/// what its points keep. If a record is copied that another session may still
/// change, what is kept of the life isn't legal, so no life can begin with it.
pub fn law_of_wrong_commits()
    ensures { (keeper : said.KeeperState) (one other : said.SessionState) → said.AreWrongCommits keeper one other }
{}

/// Two sessions of the same store, whose opening's commit keeps one update. If each turn tells that it has finished a commit, what was told isn't what has finished; by the
/// right table it is. If a commit takes the number after the next one, the numbers aren't in turn. If a commit is written that keeps nothing, a point falls. If a
/// read is told what the store was opened with, its key had another value from the call to the answer; by the right table it is told that.
pub fn law_of_wrong_prefixes()
    ensures { (keeper : said.KeeperState) (one other : said.SessionState) → said.AreWrongPrefixes keeper one other }
{}

/// Two sessions of the same store. A commit is written by a slot that says the number after its own. So no image that the finished writes may leave names a
/// commit that has begun, and each has a fault: its newest slot has the number of the other slot's parity. So none holds a store. The bytes of a new store are
/// such as this life begins with, and there is an image.
pub fn law_of_wrong_images()
    ensures { (keeper : said.KeeperState) (one other : said.SessionState) → said.AreWrongImages keeper one other }
{
    law_gates();
    law_slots_are_named();
    law_new_stores();
}

/// Two sessions of a new store, whose file ends behind the slots. Session 0 gives a key a value, and a commit is written before its log is flushed. Its slot says
/// that the log ends behind the record, so no image that the finished writes may leave reaches far. All else that the law of prefixes asks of an image holds of
/// each. It names the commit, which is current, has no fault, and holds a store, which is what the commit keeps: nothing. There is an image.
pub fn law_of_short_images()
    ensures { (keeper : said.KeeperState) (one other : said.SessionState) → said.AreShortImages keeper one other }
{
    law_gates();
    law_slots_are_named();
    law_new_stores();
    law_spellings_apart();
    law_formats_apart();
    law_log_opened();
}
