//! That one commit stands whole, whatever a crash leaves of the writes of the next one.
ghost use Rattle.std.specs.Prelude.{◌≡◌, ◌⊎◌, ◌++◌, ◌∷◌, [], ℕ, ◌+◌, ◌^◌, ◌<◌, ◌≤◌, List, length, Bool, Some, true, false, replicate};
ghost use Rattle.fkv_base.specs.declared.shapes.Shape.{Shape};
ghost use Rattle.fkv_record.specs.Layout.{slot_bytes};
ghost use Rattle.fkv_record.specs.Manifest.{SlotSaid, newest_bytes};
ghost use Rattle.fkv_record.specs.declared.slots.Slot.{Slot};
ghost use Rattle.fkv_disk.specs.Bytes.{byte_at};
ghost use Rattle.fkv_disk.specs.Calls.{Call, Write, MayLeave, reads_as};
ghost use Rattle.fkv_manifest.specs.Committing.{CommitWriter, commit_start, commit_call, commit_answer};
ghost use Rattle.fkv_manifest.specs.Gating.{gate_start, closed_gate, open_gate};
ghost use Rattle.fkv_manifest.specs.Kept.{Begins, SparesRest, LastStands, NewStands, LiesIn, SparesStore, IsFinished, IsSlotOf};
ghost use Rattle.fkv_manifest.specs.Made.{commit_run, commit_made, has_begun, whole_commit};

use crate::answers::WriteAnswer;

/// Whatever calls of the device fail, where all was synced when the writes of a commit began: at every moment each image that
/// a crash may leave has as its newest slot the last commit's, as it was, or the new one, whole and with its triples
/// whole; the new one only where the write that opens its gate was called, and it alone once the last sync has answered.
/// No byte of before changes but those of the new slot and of its triples: none of the shape block, of the other area, nor
/// of the log. A gate is closed only where it stands open.
pub fn law_gates()
    ensures one_stands { (w : CommitWriter) (opened : List ℕ) (before : List Call) (other : ℕ) (steps : List Bool) (image : List ℕ)
        → Begins w opened before other → MayLeave opened (commit_made w steps ++ before) image
        → LastStands (reads_as opened before) other image ⊎ NewStands w image }
    ensures begun { (w : CommitWriter) (opened : List ℕ) (before : List Call) (other : ℕ) (steps : List Bool) (image : List ℕ)
        → Begins w opened before other → MayLeave opened (commit_made w steps ++ before) image
        → has_begun w.gate.place (commit_made w steps) ≡ false → LastStands (reads_as opened before) other image }
    ensures written { (w : CommitWriter) (opened : List ℕ) (before : List Call) (other : ℕ) (steps : List Bool) (image : List ℕ)
        → Begins w opened before other → MayLeave opened (commit_made w steps ++ before) image
        → commit_answer (commit_run w steps) ≡ WriteAnswer.Written → NewStands w image }
    ensures spared { (w : CommitWriter) (opened : List ℕ) (before : List Call) (other : ℕ) (steps : List Bool) (image : List ℕ)
        → Begins w opened before other → MayLeave opened (commit_made w steps ++ before) image
        → SparesRest w (reads_as opened before) image }
    ensures store { (shape : Shape) (w : CommitWriter) (opened : List ℕ) (before : List Call) (other area other_area : ℕ) (steps : List Bool) (image : List ℕ)
        → Begins w opened before other → MayLeave opened (commit_made w steps ++ before) image
        → LiesIn shape w other area other_area → SparesStore shape other_area (reads_as opened before) image }
    ensures closes { (w : CommitWriter) (opened : List ℕ) (before : List Call) (other : ℕ) (steps : List Bool) (done : Bool)
        → Begins w opened before other
        → commit_call (commit_run w steps) done ≡ Some (Write w.gate.place (closed_gate ∷ []) done)
        → byte_at (reads_as opened (commit_made w steps ++ before)) w.gate.place ≡ open_gate }
{}

/// Where no call fails a commit makes these calls in this order: eight, or two fewer where the gate stood closed, and one
/// fewer where there are no triples. Then all is written, and no other call comes. Nor does one behind a call that failed.
pub fn law_order()
    ensures calls { (w : CommitWriter) (is_open : Bool) (more : ℕ) → w.step ≡ commit_start w.triples → w.gate.step ≡ gate_start is_open
        → commit_made w (replicate (more + 8) true) ≡ whole_commit w is_open }
    ensures written { (w : CommitWriter) (is_open : Bool) (more : ℕ) → w.step ≡ commit_start w.triples → w.gate.step ≡ gate_start is_open
        → commit_answer (commit_run w (replicate (more + 8) true)) ≡ WriteAnswer.Written }
    ensures failed { (w : CommitWriter) (before later : List Bool) → commit_made w (later ++ false ∷ before) ≡ commit_made w (false ∷ before) }
{}

/// Once all is written the next commit may begin: every call has succeeded and the newest was a sync, and what the device
/// reads as has the new commit in force, and reaches to the end of both slots.
pub fn law_commits_follow()
    ensures { (w : CommitWriter) (opened : List ℕ) (before : List Call) (other : ℕ) (steps : List Bool)
        → Begins w opened before other → commit_answer (commit_run w steps) ≡ WriteAnswer.Written
        → IsFinished w opened (commit_made w steps ++ before) }
{}

/// The bytes that spell a slot are 512, with an open gate, and name its commit's number, in the first format and in the newest,
/// which holds 32 points and eight lost ranges at most.
pub fn law_slots_are_named()
    ensures first { (slot : Slot) → IsSlotOf slot.number (slot_bytes slot) }
    ensures newest { (said : SlotSaid) → said.number < 2 ^ 64 → length said.points ≤ 32 → length said.lost ≤ 8 → IsSlotOf said.number (newest_bytes said) }
{}
