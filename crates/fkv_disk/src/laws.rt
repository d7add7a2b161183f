//! Laws of the definitions: each is the contract of a function with an empty body.
ghost use Rattle.std.specs.Prelude.{◌≡◌, ◌↔◌, ◌∷◌, ◌++◌, ℕ, List, Bool, length, true, false, not, ◌||◌};
ghost use Rattle.fkv_disk.specs.Bytes.{byte_at, bytes_at, covers};
ghost use Rattle.fkv_disk.specs.Calls.{Call, Write, Sync, AllDone, MayLeave, reads_as, torn_image};
ghost use Rattle.fkv_disk.specs.Forgotten.{since_sync, synced_bytes};
ghost use Rattle.fkv_disk.specs.Fuse.{fuse_refuses, passes};
ghost use Rattle.fkv_disk.specs.declared.fuses.FuseState.{FuseState};

/// The image that tears the most is one that a crash may leave.
pub fn law_torn()
    ensures { (opening : List ℕ) (calls : List Call) (torn : ℕ) → MayLeave opening calls (torn_image opening calls torn) }
{}

/// After a sync, where every call succeeded, a crash leaves what is read.
pub fn law_synced()
    ensures { (opening : List ℕ) (calls : List Call) (image : List ℕ) → AllDone calls → MayLeave opening (Sync true ∷ calls) image → image ≡ reads_as opening calls }
{}

/// What was written and then synced stands in each image, whatever failed before.
pub fn law_written_and_synced()
    ensures { (opening : List ℕ) (calls : List Call) (at : ℕ) (bytes image : List ℕ) → MayLeave opening (Sync true ∷ Write at bytes true ∷ calls) image → bytes_at image at (length bytes) ≡ bytes }
{}

/// In the range of a write that isn't synced, succeeded or failed, a crash may leave anything.
pub fn law_anything_in_range()
    ensures { (opening : List ℕ) (at : ℕ) (bytes : List ℕ) (done : Bool) (calls : List Call) (image other : List ℕ) → MayLeave opening (Write at bytes done ∷ calls) image → length other ≡ length image
        → ((i : ℕ) → covers at (length bytes) i ≡ false → byte_at other i ≡ byte_at image i) → MayLeave opening (Write at bytes done ∷ calls) other }
{}

/// A life in which every call succeeded, told from its newest sync on, reads as the whole life and may leave what it
/// may leave, also after whatever calls come later.
pub fn law_forgotten()
    ensures reads { (opening : List ℕ) (calls later : List Call) → AllDone calls → reads_as (synced_bytes opening calls) (later ++ since_sync calls) ≡ reads_as opening (later ++ calls) }
    ensures leaves { (opening : List ℕ) (calls later : List Call) (image : List ℕ) → AllDone calls → MayLeave opening (later ++ calls) image ↔ MayLeave (synced_bytes opening calls) (later ++ since_sync calls) image }
{}

/// A fuse says of the next call that it is refused just where it doesn't let it pass, or where its device says so.
pub fn law_fuse_says()
    ensures { (state : FuseState) (device : ℕ → Bool) → fuse_refuses state device 0 ≡ (not (passes state) || device 0) }
{}
