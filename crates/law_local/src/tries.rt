//! What walks and tries know of the log. These functions do nothing: what they promise holds of every log and every reply.
ghost use Rattle.law_local.specs.Tries.Laws.{WalkRowsStay, WalksLeadOn, WalksTell, WalksBeginAtHead, RequestsKnowLater, TriesBegin, TryRowsStay, TriesLeadOn, ReservesAreEnabled, SwapsAreEnabled, CasesAreEnabled, ReadsTell, TriesSeek, TriesGoFrom};
ghost use Rattle.law_local.specs.Tries.AttemptLaws.{PendingRowsStay, PendingsKnowLater, AttemptsBegin, AttemptRowsStay, AttemptRowsStayAtRest, AttemptsLeadOn, OwnChangesKeep, AttemptsTell, TriesAreToldTruly, AttemptsAreToldTruly, ReadsBegin, ReadsGoAlong};
ghost use Rattle.law_local.specs.Tries.FloorLaws.{AbsentStays, EndsByFloor, GoesOnSo, WalksBeginByFloor, WaysStayLive};

/// What a walk knows of the log stays, whatever others do there that keeps to the log's rules; each reply that is true of the log leads it on to what
/// it has to know then; and what it tells at its end is so. It goes down from where its chain began as its search ended.
pub fn law_walk_rows()
    ensures stay { WalkRowsStay }
    ensures leads_on { WalksLeadOn }
    ensures tells { WalksTell }
    ensures begins { WalksBeginAtHead }
{}

/// The same of a try: it begins with what it has to know, where its request knows what it has to; that stays, as long as a record of an older version
/// of which it is about to make one keeps its value, where it isn't fixed; and each true reply leads it on. One reply needs more than that. If it ends
/// the walk of an update at a record of the key, and the try passes its test for a later version, then its home has no record of one. If the session
/// may change that record in place, and its header has the mark of the request's version, then the record is of that version.
pub fn law_try_rows()
    ensures later { RequestsKnowLater }
    ensures begins { TriesBegin }
    ensures stay { TryRowsStay }
    ensures leads_on { TriesLeadOn }
{}

/// The log's events of its steps are enabled: the record for which an address is reserved is made as it has to be, and leads to a lower address; and a
/// change in place is one that may be made, where no copy overlaps it, and leaves the word of its value.
pub fn law_try_enabled()
    ensures reserves { ReservesAreEnabled }
    ensures swaps { SwapsAreEnabled }
    ensures cases { CasesAreEnabled }
{}

/// What it tells: the value that a read finds, or that it finds none, is that of the first record of its key from where its walk went down; and a record
/// of the device that is awaited lies on the way from there, below the head that the session has seen.
pub fn law_try_tells()
    ensures reads { ReadsTell }
    ensures seeks { TriesSeek }
    ensures goes { TriesGoFrom }
{}

/// What a request that waits knows of the log, by the record that it holds and the one that it seeks, and what an attempt for it knows: both stay, and as
/// the head rises that the session has seen; an attempt begins with it, and each true reply leads it on, where its try's walk ends as above. Behind a step
/// of its own that changes the log nothing has to be kept, and nor has it where all records of older versions are fixed.
pub fn law_attempt_rows()
    ensures waits { PendingRowsStay }
    ensures later { PendingsKnowLater }
    ensures begins { AttemptsBegin }
    ensures stay { AttemptRowsStay }
    ensures rest { AttemptRowsStayAtRest }
    ensures leads_on { AttemptsLeadOn }
    ensures own { OwnChangesKeep }
{}

/// What an attempt of a read tells: the value of the first record of its key from where the read goes down, or none; and where it goes on to wait it seeks a
/// record on the way from there.
pub fn law_attempt_tells()
    ensures { AttemptsTell }
{}

/// When replies are true of the log: where the frames of the records show them that the session may meet there, the safe read-only offset is what is fixed,
/// the tail lies above all records, a search ends where its chain begins, and the mailbox shows the record that is sought.
pub fn law_replies_true()
    ensures tries { TriesAreToldTruly }
    ensures attempts { AttemptsAreToldTruly }
{}

/// How far a read has come in the log goes along with its attempt: it has been called until its search has found where its chain begins, goes down from
/// there, and from the entry of the record that it seeks while it waits; and it has the value that it tells.
pub fn law_reads_go_along()
    ensures begins { ReadsBegin }
    ensures goes { ReadsGoAlong }
{}

/// A request goes by a floor: the log does without its records below that, and all there is fixed. Then a walk from the head of its chain does without them. If
/// its way comes below the floor, or a header says that it goes on there, the key reads as absent, and a new record is made of that. So it stays.
pub fn law_of_floors()
    ensures begins { WalksBeginByFloor }
    ensures ends { EndsByFloor }
    ensures goes { GoesOnSo }
    ensures absent { AbsentStays }
    ensures live { WaysStayLive }
{}
