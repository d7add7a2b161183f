//! What holds of every turn, over every list of replies, actions and calls of the device.
ghost use Rattle.std.specs.Prelude.{◌≡◌, List};
ghost use Rattle.fkv_base.specs.declared.shapes.Shape.{Shape};
ghost use Rattle.fkv_plane.specs.declared.places.Places.{Places};
ghost use Rattle.fkv_maintain.specs.Maintaining.{MaintainState};
ghost use Rattle.fkv_maintain.specs.MaintainRun.{MaintainEvent, maintain_run, serving_run};
ghost use Rattle.fkv_maintain.specs.Parts.{AreInOrder, CallsInItsParts, DrivesItsParts, FollowsInOrder, KeepsBegin, ServesAlone, StaysAbove, has_lacked_slot, parts_of};

/// Whatever the state of a turn is, and whatever happens: a part is left only where its own machine is at its end, where the flush
/// rests before a living store's sync, or where a call of the device failed. The part that follows is the next one, from its machine's
/// first step on, but that a flush that rests is taken up there. Within a part its machine alone goes on, and the log's begin stays,
/// with each read for a mailbox at or above it. So over every run, a turn that is through has scanned, run what is armed, flushed up to
/// the end or a rest, shifted, turned a page and served the mailboxes, in this order and each once. It counts a part as left out just
/// where the shift or the turn of a page ended without a drain slot. The device is called by the flush and for the mailboxes alone. A
/// turn that only serves is never in another part, and writes and syncs nothing.
pub fn law_of_a_turn()
    ensures follows { FollowsInOrder }
    ensures drives { DrivesItsParts }
    ensures begin { KeepsBegin }
    ensures above { StaysAbove }
    ensures order { (shape : Shape) (p : Places) (s : MaintainState) (events : List MaintainEvent) → AreInOrder shape (maintain_run shape p s events).step (parts_of shape p s events) }
    ensures full { (shape : Shape) (p : Places) (s : MaintainState) (events : List MaintainEvent) → (maintain_run shape p s events).is_drain_full ≡ has_lacked_slot shape p s events }
    ensures serves { (shape : Shape) (p : Places) (s : MaintainState) (events : List MaintainEvent) → ServesAlone shape (serving_run shape p s events) }
    ensures calls { (shape : Shape) (p : Places) (s : MaintainState) → CallsInItsParts shape p s }
{}
