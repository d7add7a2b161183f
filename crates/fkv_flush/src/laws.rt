//! What the machines keep together, over every list of their events.
ghost use Rattle.std.specs.Prelude.{◌≡◌, ◌≢◌, ◌<◌, ◌∷◌, ℕ, List, Some, slice_get};
ghost use Rattle.fkv_base.specs.declared.shapes.Shape.{Shape};
ghost use Rattle.fkv_plane.specs.declared.places.Places.{Places};
ghost use Rattle.fkv_plane.specs.declared.places.RecordWord.{RecordWord};
ghost use Rattle.fkv_plane.specs.Asked.{word_at};
ghost use Rattle.fkv_flush.specs.GuardCalm.{AreOther, IsCalm};
ghost use Rattle.fkv_flush.specs.GuardLevels.{AreInOrder};
ghost use Rattle.fkv_flush.specs.GuardLimit.{EndsPages};
ghost use Rattle.fkv_flush.specs.GuardPhase.{KeepsTails, phase_tails};
ghost use Rattle.fkv_flush.specs.GuardReserved.{UndecidedApart};
ghost use Rattle.fkv_flush.specs.GuardSeen.{SeenIsSafe};
ghost use Rattle.fkv_flush.specs.GuardSlots.{FindsSlots};
ghost use Rattle.fkv_flush.specs.GuardWorld.{GuardWorld, GuardEvent, Actor, Serves, guard_happens, guard_run, levels};
ghost use Rattle.fkv_flush.specs.GuardTurned.{GoesRound};
ghost use Rattle.fkv_flush.specs.GuardFlushed.{OneFlushes, IsSynced, SparesRecord, stands, calls_made};
ghost use Rattle.fkv_flush.specs.GuardMail.{AreEmpty, AreMailboxesKept, ReadyWasGiven, FindsAsked, ChangesMailbox, ReadsItsPlace, GivesWords, mailbox_of, mails_given};
ghost use Rattle.fkv_flush.specs.declared.serving.Serving.{Serving};
ghost use Rattle.fkv_flush.specs.Guarded.{IsOpened, opening, IsCovered, UndecidedIsFresh, GoesBy, seen_of, event_writes, IsPermittedEvent, ArePermittedEvents, GuardsWrites, GuardsLimit, KeepsSeen};

/// Whatever the order of the machines' steps, and whoever makes them: a permitted step that writes a word of a frame writes one of
/// an open address at or above the safe read-only offset and below the tail, where each step is permitted but a change in place that
/// its session may not make; a step that opens a page finds all flushed
/// that its frame held, and each protected session that isn't in the middle of protecting itself with a head at or above that; and
/// at every moment the offsets are in order, the frames hold all that may still be needed, and the limit is the end of
/// whole pages that the device has. What a step is said to write is all that it writes.
pub fn law_guarded()
    ensures writes { (shape : Shape) (places : Places) (actors : ℕ) (words : List ℕ) (start : ℕ) (events : List GuardEvent) (event : GuardEvent)
        → IsOpened shape places actors words start → IsPermittedEvent (guard_run (opening shape places actors words start) events).now event → GuardsWrites (guard_run (opening shape places actors words start) events) event }
    ensures limit { (shape : Shape) (places : Places) (actors : ℕ) (words : List ℕ) (start : ℕ) (events : List GuardEvent) (event : GuardEvent)
        → IsOpened shape places actors words start → GuardsLimit (guard_run (opening shape places actors words start) events) event }
    ensures order { (shape : Shape) (places : Places) (actors : ℕ) (words : List ℕ) (start : ℕ) (events : List GuardEvent)
        → IsOpened shape places actors words start → AreInOrder (levels (guard_run (opening shape places actors words start) events)) }
    ensures covered { (shape : Shape) (places : Places) (actors : ℕ) (words : List ℕ) (start : ℕ) (events : List GuardEvent)
        → IsOpened shape places actors words start → IsCovered (guard_run (opening shape places actors words start) events) }
    ensures paged { (shape : Shape) (places : Places) (actors : ℕ) (words : List ℕ) (start : ℕ) (events : List GuardEvent)
        → IsOpened shape places actors words start → EndsPages shape (levels (guard_run (opening shape places actors words start) events)).limit }
    ensures nothing_else { (w : GuardWorld) (event : GuardEvent) (place : ℕ) → event_writes w.now event ≢ Some place → word_at (guard_happens w event).now.words place ≡ word_at w.now.words place }
{}

/// At every moment what a session goes by is safe to go by; a reserved record that is undecided belongs to a protected
/// session that neither protects itself nor refreshes nor leaves, and to no other; it is at or above the tail that the session
/// found when it loaded the phase, and for each session that goes by its phase the safe read-only offset is no higher than that
/// tail. No event shows a session with an undecided record anything new.
pub fn law_seen()
    ensures safe { (shape : Shape) (places : Places) (actors : ℕ) (words : List ℕ) (start : ℕ) (events : List GuardEvent)
        → IsOpened shape places actors words start
        → SeenIsSafe (levels (guard_run (opening shape places actors words start) events)) (GoesBy (guard_run (opening shape places actors words start) events).now) (seen_of (guard_run (opening shape places actors words start) events).now.actors) }
    ensures fresh { (shape : Shape) (places : Places) (actors : ℕ) (words : List ℕ) (start : ℕ) (events : List GuardEvent)
        → IsOpened shape places actors words start → UndecidedIsFresh (guard_run (opening shape places actors words start) events) }
    ensures apart { (shape : Shape) (places : Places) (actors : ℕ) (words : List ℕ) (start : ℕ) (events : List GuardEvent)
        → IsOpened shape places actors words start → UndecidedApart (guard_run (opening shape places actors words start) events).now.actors }
    ensures tails { (shape : Shape) (places : Places) (actors : ℕ) (words : List ℕ) (start : ℕ) (events : List GuardEvent)
        → IsOpened shape places actors words start
        → KeepsTails (guard_run (opening shape places actors words start) events) (phase_tails (opening shape places actors words start) events) }
    ensures keeps { (shape : Shape) (places : Places) (actors : ℕ) (words : List ℕ) (start : ℕ) (events : List GuardEvent) (event : GuardEvent)
        → IsOpened shape places actors words start → KeepsSeen (guard_run (opening shape places actors words start) events) event }
{}

/// What is flushed is synced as the records stand, whatever calls of the device fail, where one actor alone flushes: at
/// every moment a device that was called so shows each record since the opening and below the flushed offset with the
/// words that stand for it, and so does all that a crash leaves of it; the log before the opening is as it was, as far as
/// the device reached then. That is so where all steps are permitted: where each change in place is one that its session may
/// make. No permitted step changes what stands for a record below the safe read-only offset, and below the tail only one that
/// writes a word of its frame does.
pub fn law_flushed_is_synced()
    ensures synced { (shape : Shape) (places : Places) (actors : ℕ) (words : List ℕ) (start keeper : ℕ) (events : List GuardEvent) (opened : List ℕ)
        → IsOpened shape places actors words start → OneFlushes keeper events → ArePermittedEvents (opening shape places actors words start) events
        → IsSynced shape opened (calls_made (opening shape places actors words start) events) (stands (opening shape places actors words start) events) start (levels (guard_run (opening shape places actors words start) events)).flushed }
    ensures steady { (shape : Shape) (places : Places) (actors : ℕ) (words : List ℕ) (start : ℕ) (events : List GuardEvent) (event : GuardEvent) (addr : ℕ) (word : RecordWord)
        → IsOpened shape places actors words start → IsPermittedEvent (guard_run (opening shape places actors words start) events).now event
        → addr < (levels (guard_run (opening shape places actors words start) events)).safe_read_only
        → stands (opening shape places actors words start) (event ∷ events) addr word ≡ stands (opening shape places actors words start) events addr word }
    ensures still { (shape : Shape) (places : Places) (actors : ℕ) (words : List ℕ) (start : ℕ) (events : List GuardEvent) (event : GuardEvent) (addr : ℕ) (word : RecordWord)
        → IsOpened shape places actors words start → addr < (levels (guard_run (opening shape places actors words start) events)).tail
        → SparesRecord (guard_run (opening shape places actors words start) events).now event addr word
        → stands (opening shape places actors words start) (event ∷ events) addr word ≡ stands (opening shape places actors words start) events addr word }
{}

/// A ring of two frames that goes round is one of the runs of which `law_guarded` and `law_flushed_is_synced` speak: a
/// record is written, flushed and closed, and the page that takes its frame is opened. It stands as it was written, and
/// the device was told one write of its bytes and one sync.
pub fn law_of_the_ring()
    ensures { GoesRound }
{}

/// From each moment to each later one no offset falls, nor the epoch, nor the safe epoch; and the epoch word of a session
/// that does nothing in between stays as it is.
pub fn law_nothing_falls()
    ensures { (shape : Shape) (places : Places) (actors : ℕ) (words : List ℕ) (start : ℕ) (events later : List GuardEvent)
        → IsOpened shape places actors words start
        → IsCalm places.sessions (AreOther later) (guard_run (opening shape places actors words start) events).now.words (guard_run (guard_run (opening shape places actors words start) events) later).now.words }
{}

/// Whatever the order of the steps: a slot that an event gives an action to is empty, and one that an event takes has the
/// action that was armed there; so no actor ever waits for one. An actor whose event moves the action of a slot holds the slot then,
/// and nobody else has held it.
pub fn law_finds_slots()
    ensures { (shape : Shape) (places : Places) (actors : ℕ) (words : List ℕ) (start : ℕ) (events : List GuardEvent) (event : GuardEvent)
        → IsOpened shape places actors words start → FindsSlots (guard_run (opening shape places actors words start) events) event }
{}

/// Where one actor alone serves the mailboxes, and each session alone changes its own, the address while it is empty, and
/// the state from empty to asked and from ready to empty: at every moment a mailbox that is ready has the words that were
/// given for its session last, of the address asked for: those that the device has read there, or that what lay below the log's
/// begin is gone; the actor that serves finds asked for what it has come to; and each event leaves a mailbox as it is, or is one of its session where it was empty or ready, or one of
/// the actor that serves where a record was asked for. A read at an address is one at that record's place in the image,
/// and the bytes of three words give these as header, key and value.
pub fn law_mail()
    ensures place { (shape : Shape) (session addr : ℕ) → ReadsItsPlace shape session addr }
    ensures words { (header key value : ℕ) → GivesWords header key value }
    ensures ready { (shape : Shape) (places : Places) (actors : ℕ) (words : List ℕ) (start keeper : ℕ) (events : List GuardEvent) (session : ℕ)
        → IsOpened shape places actors words start → AreEmpty places words → AreMailboxesKept keeper (opening shape places actors words start) events → session < places.sessions
        → ReadyWasGiven (mails_given (opening shape places actors words start) events) session (mailbox_of (guard_run (opening shape places actors words start) events).now.words session) }
    ensures asked { (shape : Shape) (places : Places) (actors : ℕ) (words : List ℕ) (start keeper : ℕ) (events : List GuardEvent) (actor : ℕ) (x : Actor) (begin : ℕ) (step : Serving)
        → IsOpened shape places actors words start → AreEmpty places words → AreMailboxesKept keeper (opening shape places actors words start) events
        → slice_get (guard_run (opening shape places actors words start) events).now.actors actor ≡ Some x → x.work ≡ Serves begin step
        → FindsAsked (mails_given (opening shape places actors words start) events) (mailbox_of (guard_run (opening shape places actors words start) events).now.words) step }
    ensures left { (shape : Shape) (places : Places) (actors : ℕ) (words : List ℕ) (start keeper : ℕ) (events : List GuardEvent) (event : GuardEvent) (session : ℕ)
        → IsOpened shape places actors words start → AreEmpty places words → AreMailboxesKept keeper (opening shape places actors words start) (event ∷ events) → session < places.sessions
        → ChangesMailbox keeper session event (mailbox_of (guard_run (opening shape places actors words start) events).now.words session) (mailbox_of (guard_run (opening shape places actors words start) (event ∷ events)).now.words session) }
{}
