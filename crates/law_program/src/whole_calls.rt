//! Where a call is alone from its beginning to its answer, it is answered by the map on the history so far.
ghost use Rattle.law_program.specs.WholeCalls.Laws as calls;

/// Let a life have one legal history that orders its calls and answers its reads. From a moment at which the result of each update that has taken effect
/// was given, to one behind which all that has happened is an operation of one session, as its answer says: the answer is what the map of the earlier
/// moment replies, and the map of the later one is that with the operation applied, if it was an update that was done, and else the same.
pub fn law_answered_alone()
    ensures { calls.AnswersAlone }
{}

/// So it is with a call from a moment at which no session has one in hand, where the session that makes it alone moves until it is answered, in a life that has one legal history which
/// orders its calls and answers its reads: each reply is the map's on the history so far, and each read gives its key's value in its content.
pub fn law_whole_calls()
    ensures { calls.AnswersWholeCalls }
{}
