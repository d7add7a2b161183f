//! What stands in the words by which a session tells where it has left a version, in every life of a store that was opened.
ghost use Rattle.law_commit.specs.Laws.Cuts as cuts;

use law_refine::law_world_cuts;

/// In every life of a store that was opened, whatever the other actors do, both cut words of a session and its owing word are at each moment what the session
/// has stored there last, by its own events; before its first store there, what stood there as the life began. So is its durable word what the keeper has
/// stored there last.
pub fn law_marks_stand()
    ensures session { cuts.MarksStand }
    ensures durable { cuts.DurableWordsStand }
{}

/// So the words themselves show what the law of cuts says that a session tells in them. Once a session has changed its version, and where no call is in hand,
/// the cut word of the version before shows the serial at which it has left that one, and its owing word how many updates of that version wait. If it
/// sleeps, but in a wake, and before it leaves for that, the cut word of its own version shows its serial. In the middle of a call all is shown but what
/// the session is about to store: first the cut word, and behind that the owing word, which a poll finds one too high at most. So it is from the first moment
/// on, if it was so as the life began: a session that has left no version yet counts as if it had left the version before its own then. If the
/// store opened at rest, as each does, the serial at which a session has left the version before is its point of that version. Neither cut word shows a
/// serial above the session's.
pub fn law_cuts_stand()
    ensures told { cuts.MarksAreTold }
    ensures asleep { cuts.SleepersShowTheirCut }
    ensures leaves { cuts.LeaversShowTheirCut }
    ensures in_order { cuts.MarksAreToldInOrder }
    ensures polls_owing { cuts.OwingIsOneTooHighAtMost }
    ensures always { cuts.MarksAreAlwaysTold }
    ensures serials { cuts.CutsSayNoLaterSerial }
    ensures left { cuts.LeftAtItsPoint }
{
    law_world_cuts();
}

/// In every life of a store that was opened, whatever the sessions do: if the durable words showed the points of the newest finished commit as the life began,
/// they do so at each moment. While a commit's words are stored, those that are stored already are its points.
pub fn law_durable_stands()
    ensures { cuts.DurableWordsShowPoints }
{}
