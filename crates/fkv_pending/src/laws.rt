//! What goes through a mailbox, over every list of events.
ghost use Rattle.fkv_pending.specs.Attempts.{AnswersSo, AttemptsTrue, EffectsTold, HeldKept, PutsWhereFree, SpareKept, TriesKept};
ghost use Rattle.fkv_pending.specs.Mailbox.{AtEachMoment, NotesInTurn, ChangesAreKept, OthersStay, AnswersTrue, RestsBetweenTasks};

/// Whatever the order of the steps of a session that begins tasks with its mailbox, one after another, and of a keeper who serves
/// it, and whatever others do to other words: a record is asked for only when what was asked for before has been taken or let go;
/// it is served once, as the device gave it at the address that was asked for; and what the session takes is that record. The
/// session alone leaves the states empty and ready, and the keeper alone the one between; an address is stored while the mailbox is
/// empty, before the session asks. Each answer of a task says what the mailbox was, and what it is now.
pub fn law_mailbox()
    ensures turns { AtEachMoment NotesInTurn }
    ensures changes { AtEachMoment ChangesAreKept }
    ensures others { AtEachMoment OthersStay }
    ensures answers { AtEachMoment AnswersTrue }
    ensures rest { AtEachMoment RestsBetweenTasks }
{}

/// Over every list of replies to the asks of an attempt, of any request: mail is for nobody just where it was so before, or where the
/// request has finished while its mail is under way; a request that has asked in this attempt has asked for the record that it
/// seeks; one that waits for the device has its mail under way, or has met an occupied mailbox; and what a request holds it held
/// before, or it came by the mail that this attempt took, with the entry of the record that was sought. The effect that it tells is the
/// one that its try told at that step. Its try is one of the request that waits, at the attempt's own occasion and with the spare
/// bucket of the session, and whether the request shares its latch, and the spare bucket, stay as that try has left them; name,
/// operation and version stay; a read is not tried at a poll; and what is held where a record is awaited was read from the same entry.
/// A read at a poll is answered by the record that was taken, where that has its key or is the last of its chain, and else it waits and
/// seeks the record before. Any other request is answered what its try has come to, and seeks the record that its try awaits, but where
/// its mail is under way. An address is stored only where the attempt has found the mailbox empty, or has emptied it by taking a record.
/// A record that is held stays, but where the try awaits one and it was read from another entry than that: then it goes. The spare
/// bucket that the attempt leaves is the one that its asks tell.
pub fn law_attempts()
    ensures mail { AttemptsTrue }
    ensures effects { EffectsTold }
    ensures tries { TriesKept }
    ensures answers { AnswersSo }
    ensures puts { PutsWhereFree }
    ensures held { HeldKept }
    ensures spare { SpareKept }
{}
