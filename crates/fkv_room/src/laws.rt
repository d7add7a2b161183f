//! Laws of the room.
ghost use Rattle.std.specs.Prelude.{◌≡◌, ℕ};
ghost use Rattle.fkv_base.specs.declared.faults.Fault.{Fault};
ghost use Rattle.fkv_scan.specs.Log.{Log};
ghost use Rattle.fkv_room.specs.Room.{HasRoom, IsFull, IsRoomFault};

/// Where all buckets find room, no fault of the room stands, and else one bucket alone is the first that finds none.
pub fn law_no_fault()
    ensures none { (log : Log) (fault : Fault) → HasRoom log → IsRoomFault log fault → ⊥ }
    ensures one { (log : Log) (bucket other : ℕ) → IsFull log bucket → IsFull log other → bucket ≡ other }
{}
