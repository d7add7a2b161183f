//! What a keeper does over every list of turns, commits, replies, actions and calls of the device.
ghost use Rattle.std.specs.Prelude.{◌≡◌, ◌<◌, ◌∷◌, Bool, List, false, true, Some};
ghost use Rattle.fkv_base.specs.declared.faults.Fault.TheVariants.{DrainFull, Memory};
ghost use Rattle.fkv_base.specs.declared.shapes.Shape.{Shape};
ghost use Rattle.fkv_plane.specs.declared.places.Places.{Places};
ghost use Rattle.fkv_keeper.specs.declared.answers.KeeperTold.TheVariants.{CommitRefused, Turned, TurnRefused};
ghost use Rattle.fkv_keeper.specs.declared.keepers.Keeping.TheVariants.{Ended, Finishes, Waits, Writes};
ghost use Rattle.fkv_keeper.specs.CheckpointLaws.{AreWritesBegun, ChangesItsWords, CopiesOnce, DoesOneThing, HoldsCopy, IsBehindWait, IsBeingWritten, KeepsLists, SparesDurable, begun_with, copy_replies};
ghost use Rattle.fkv_keeper.specs.KeeperAsks.{keeper_asks_left};
ghost use Rattle.fkv_keeper.specs.Keeping.{KeeperState, come_to};
ghost use Rattle.fkv_keeper.specs.KeeperLaws.{CopiesAgain, IsBrokenForGood, IsFinishOfBegun, IsMemoryRefused, IsResting, IsWritten};
ghost use Rattle.fkv_keeper.specs.PartLaws.{HasFound, IsPartBegun, KnowsParts, points_found};
ghost use Rattle.fkv_keeper.specs.DrainLaws.{HasSoughtAll, call_told};
ghost use Rattle.fkv_keeper.specs.SweepLaws.{IsBeginAfter, IsSweepAfter};
ghost use Rattle.fkv_keeper.specs.SlotLaws.{CommitHasRoom, HasBegin, IsSlotWhole};
ghost use Rattle.fkv_keeper.specs.KeeperRun.{IsOpened, KeeperEvent, has_failed, is_calling, is_in_hand, keeper_happens, keeper_run, number_open, writing};

/// Whatever turns and commits are begun, and whatever the replies, the actions and the answers of the device are: once a call of the
/// device has failed, nothing is asked any more, and each turn and each commit is refused as broken. The durable words and rest are
/// stored only where all writes of the commit in hand have succeeded, to the last sync. Writes rest only in a living store, before a sync, and
/// a turn only serves there: what was written so far is the commit's. Where memory is refused the turn ends and
/// nothing else changes, so the commit isn't copied still; the next turn keeps it up to its part for it, where the copy begins again. Memory is refused only where no
/// copy rests: one that rests is taken up there as it is. A commit that is told as finished has the number that was told as begun last,
/// and no number is told as finished again without being told as begun again. With no asks left, in a store that has buckets, no call is in hand.
pub fn law_of_the_keeper()
    ensures broken { (shape : Shape) (p : Places) (opening : KeeperState) (events : List KeeperEvent) → IsOpened opening
        → has_failed shape p opening events ≡ true
        → IsBrokenForGood shape p (keeper_run shape p opening events) }
    ensures finished { (shape : Shape) (p : Places) (opening : KeeperState) (events : List KeeperEvent) → IsOpened opening
        → (keeper_run shape p opening events).step ≡ Finishes
        → IsWritten shape (keeper_run shape p opening events) (writing shape p opening events) }
    ensures rests { (shape : Shape) (p : Places) (opening : KeeperState) (events : List KeeperEvent) → IsOpened opening
        → (keeper_run shape p opening events).rests ≡ true
        → IsResting shape (keeper_run shape p opening events) (writing shape p opening events) }
    ensures memory { (shape : Shape) (p : Places) (opening : KeeperState) (events : List KeeperEvent) (event : KeeperEvent) → IsOpened opening
        → is_calling (keeper_run shape p opening events).step event ≡ true
        → (keeper_run shape p opening (event ∷ events)).step ≡ Ended (TurnRefused Memory)
        → IsMemoryRefused (keeper_run shape p opening events) (keeper_run shape p opening (event ∷ events)) }
    ensures again { (shape : Shape) (p : Places) (s : KeeperState) → CopiesAgain shape p s }
    ensures number { (shape : Shape) (p : Places) (opening : KeeperState) (events : List KeeperEvent) (event : KeeperEvent) (full : Bool) → IsOpened opening
        → is_calling (keeper_run shape p opening events).step event ≡ true
        → (keeper_run shape p opening (event ∷ events)).step ≡ Ended (Turned true full)
        → IsFinishOfBegun (number_open shape p opening events) (keeper_run shape p opening events) (keeper_run shape p opening (event ∷ events)) }
    ensures over { (shape : Shape) (p : Places) (opening : KeeperState) (events : List KeeperEvent) → IsOpened opening → 0 < p.buckets
        → keeper_asks_left shape p (keeper_run shape p opening events) ≡ 0
        → is_in_hand (keeper_run shape p opening events).step ≡ false }
{}

/// Whatever turns and commits are begun, and whatever the replies, the actions, the answers of the device and the grants of memory are:
/// where a full commit counts as copied, and its writes have not begun, the keeper holds the finished copy of the index, by the replies
/// that the copy had. What it writes is that copy, with the commit's own number and first address as its start has told them, in the area
/// that the newest finished commit's checkpoint doesn't use; a log commit uses that checkpoint and names the first eight lost ranges in
/// hand; and that is so until the commit is finished. At each step: a copy begins only where the phase says so, a commit in hand isn't copied and no copy rests; there one that rests
/// is taken up as it is. No commit begins with a copy in hand, and once it is copied it is so until it is finished; the newest finished commit and the lost ranges change at its finish alone; and in a turn at most one thing is done for
/// the commit in hand. A step changes no words but its own: the durable words and rest are stored by a finish alone, but that a turn
/// stores the phase that an action says which it has claimed.
pub fn law_of_checkpoints()
    ensures copied { (shape : Shape) (p : Places) (opening : KeeperState) (events : List KeeperEvent) → IsOpened opening
        → HoldsCopy p (copy_replies shape p opening events) (keeper_run shape p opening events) }
    ensures writes { (shape : Shape) (p : Places) (opening : KeeperState) (events : List KeeperEvent) (event : KeeperEvent) → IsOpened opening
        → (keeper_run shape p opening events).step ≡ Waits
        → (keeper_run shape p opening (event ∷ events)).step ≡ Writes
        → AreWritesBegun shape p (copy_replies shape p opening events) (begun_with shape p opening events) (keeper_run shape p opening events) (keeper_run shape p opening (event ∷ events)) }
    ensures used { (shape : Shape) (p : Places) (opening : KeeperState) (events : List KeeperEvent) → IsOpened opening
        → IsBehindWait (come_to (keeper_run shape p opening events))
        → IsBeingWritten p (copy_replies shape p opening events) (begun_with shape p opening events) (writing shape p opening events) (keeper_run shape p opening events) }
    ensures copies { (shape : Shape) (p : Places) (s : KeeperState) (event : KeeperEvent) → CopiesOnce p s event (keeper_happens shape p s event) }
    ensures lists { (shape : Shape) (p : Places) (s : KeeperState) (event : KeeperEvent) → KeepsLists s (keeper_happens shape p s event) }
    ensures parts { (shape : Shape) (p : Places) (s : KeeperState) (event : KeeperEvent) → DoesOneThing s event (keeper_happens shape p s event) }
    ensures stores { (shape : Shape) (p : Places) (opening : KeeperState) (events : List KeeperEvent) → IsOpened opening
        → ChangesItsWords shape p (keeper_run shape p opening events) }
    ensures durable { (shape : Shape) (p : Places) (opening : KeeperState) (events : List KeeperEvent) → IsOpened opening
        → SparesDurable shape p (keeper_run shape p opening events) }
{}

/// From whatever state and by whatever event: each part of a commit begins only where the phase calls for it, or the part before it has
/// come to it, and for the commit in hand: its number, and its end and epoch, go into the machine of the part. Wait-pending is deferred
/// once for a commit. Writes that rest go on where they are let. What is known of the commit in hand, that wait-pending is deferred, that
/// its points are taken, and its end and epoch, is what its parts have told; and where a search for points begins, none count as taken. So
/// in a run the points that count as taken, as they do in the wait, are those that the search has found that has begun last, for the
/// commit's own number, and its end and epoch are those that this search has told.
pub fn law_of_parts()
    ensures begins { (shape : Shape) (p : Places) (s : KeeperState) (event : KeeperEvent) → let a = keeper_happens shape p s event in IsPartBegun a.step s event a }
    ensures knows { (shape : Shape) (p : Places) (s : KeeperState) (event : KeeperEvent) → KnowsParts event s.step s (keeper_happens shape p s event) }
    ensures found { (shape : Shape) (p : Places) (opening : KeeperState) (events : List KeeperEvent) → IsOpened opening
        → HasFound (points_found shape p opening events) (keeper_run shape p opening events) }
    ensures waits { (shape : Shape) (p : Places) (opening : KeeperState) (events : List KeeperEvent) → IsOpened opening
        → (keeper_run shape p opening events).step ≡ Waits
        → (keeper_run shape p opening events).has_points ≡ true }
{}

/// Whatever turns and commits are begun, and whatever the replies, the actions, the answers of the device and the grants of memory are:
/// a log commit that is in hand has at most as many lost ranges as its slot has room for. So where the writes of a commit of either kind
/// begin, its slot leaves no lost range out that it has to name. It has a point for each session, and is read back as an open slot of the
/// commit's number.
///
/// Mailboxes are served of the log of the newest finished commit, and no read for one is below that log's begin. A commit's log begins
/// there too, or at the end of a sweep that is done and began there. That end is at or below the first addresses of the checkpoint in
/// force and of the commit itself. No begin goes back. It is chosen as the commit begins, and stays until that is finished.
/// A sweep goes on by its own replies and reads, with no commit in hand. A finished full commit sets how far the next one goes.
pub fn law_of_slots()
    ensures room { (shape : Shape) (p : Places) (opening : KeeperState) (events : List KeeperEvent) → IsOpened opening
        → CommitHasRoom (keeper_run shape p opening events) }
    ensures begins { (shape : Shape) (p : Places) (opening : KeeperState) (events : List KeeperEvent) → IsOpened opening
        → HasBegin (keeper_run shape p opening events) }
    ensures sweeps { (shape : Shape) (p : Places) (s : KeeperState) (event : KeeperEvent) → IsSweepAfter event s.step s (keeper_happens shape p s event) }
    ensures chooses { (shape : Shape) (p : Places) (s : KeeperState) (event : KeeperEvent) → IsBeginAfter s.commit s (keeper_happens shape p s event) }
    ensures whole { (shape : Shape) (p : Places) (opening : KeeperState) (events : List KeeperEvent) (event : KeeperEvent) → IsOpened opening
        → (keeper_run shape p opening events).step ≡ Waits
        → (keeper_run shape p opening (event ∷ events)).step ≡ Writes
        → IsSlotWhole shape (keeper_run shape p opening events) (keeper_run shape p opening (event ∷ events)) }
{}

/// Whatever turns and commits are begun, and whatever the replies, the actions, the answers of the device and the grants of memory are:
/// a turn that tells the drain full, and a commit that is refused so, has met each of the eight drain slots and found it not free, one
/// after another from slot 0 up, each once and nothing else in between, right behind an epoch that was below its last.
pub fn law_of_the_drain()
    ensures full { (shape : Shape) (p : Places) (opening : KeeperState) (events : List KeeperEvent) (event : KeeperEvent) (done : Bool) → IsOpened opening
        → is_calling (keeper_run shape p opening events).step event ≡ true
        → (keeper_run shape p opening (event ∷ events)).step ≡ Ended (Turned done true)
        → HasSoughtAll (call_told shape p opening (event ∷ events)) }
    ensures refused { (shape : Shape) (p : Places) (opening : KeeperState) (events : List KeeperEvent) (event : KeeperEvent) → IsOpened opening
        → is_calling (keeper_run shape p opening events).step event ≡ true
        → (keeper_run shape p opening (event ∷ events)).step ≡ Ended (CommitRefused DrainFull)
        → HasSoughtAll (call_told shape p opening (event ∷ events)) }
{}
