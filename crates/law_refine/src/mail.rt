//! What goes through a session's mailbox in every life of the engine.
ghost use Rattle.std.specs.Prelude.{List, ℕ};
ghost use Rattle.law_world.specs.Below.fkv_pending.Mailbox.{AreInTurn, past_of};
ghost use Rattle.law_world.specs.Below.fkv_world.World.{Event};
ghost use Rattle.law_world.specs.Below.fkv_world.Runs.{World, run};
ghost use Rattle.law_refine.specs.Mail.MailEvents.{mapped};
ghost use Rattle.law_refine.specs.Mail.Reads.{EachChangesBy, GoneTellsBegin, TakesWhatWasRead};
ghost use Rattle.law_refine.specs.Mail.Shows.{ArePermitted, IsOpened, Shows, mail_opening, seen_by_mailbox};
ghost use Rattle.law_refine.specs.Mail.Stood.{ReadsWhatStood};

use law_world::{law_mailbox, law_world_begin, law_world_flushed_is_synced};

/// Over every life of the engine that begins as a store was opened, whatever its calls, commits, turns and the order of its steps: each
/// ask of another session, each of the mailbox's session where no task with the mailbox is under way, and each of the keeper where it
/// isn't at the mailbox, writes no word of it. So the words are those of a run of the mailbox's world, in which the session's machine is
/// as far as the engine's, and the keeper so far as it serves this session, up to where the device fails. So a record is asked for when
/// what was asked for before has been taken or let go; it is served once, as it was given for the address that was asked for; and
/// what the session takes is that record. And the session alone leaves the states empty and ready, and the keeper alone the one between.
pub fn law_world_mailbox()
    ensures permitted { (opening : World) (session : ℕ) (events : List Event) → IsOpened opening.now session
        → ArePermitted opening session events }
    ensures shows { (opening : World) (session : ℕ) (events : List Event) → IsOpened opening.now session
        → Shows (run opening events).now session (seen_by_mailbox opening session events) }
    ensures turns { (opening : World) (session : ℕ) (events : List Event) → IsOpened opening.now session
        → AreInTurn (past_of (mail_opening opening session) (mapped opening session events)).notes }
    ensures changes { EachChangesBy }
{
    law_mailbox();
}

/// In every such life, whatever its events: the record that a session takes from its mailbox is what the keeper read from the device for it,
/// at the place of the address that the session has asked for last, and at a moment since it asked; and it takes that record once. Or that address lay
/// below the log's begin at that moment, and the session is told that the record is gone, with that begin. This is no lower than the opening's, and no
/// higher than that of the commit which is the newest finished one now. What was read is the
/// record whose words stood there then, where each step of a session is permitted, the store was just opened, and the address is one since then and was
/// flushed by that moment.
pub fn law_world_taken()
    ensures takes { TakesWhatWasRead }
    ensures gone { GoneTellsBegin }
    ensures stood { ReadsWhatStood }
{
    law_world_begin();
    law_world_flushed_is_synced();
}
