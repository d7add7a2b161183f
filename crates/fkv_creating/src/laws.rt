//! Laws of new stores.
ghost use Rattle.std.specs.Prelude.{◌≡◌, ◌↔◌, ℕ, List, [], length};
ghost use Rattle.fkv_base.specs.declared.shapes.Shape.{Shape};
ghost use Rattle.fkv_newest.specs.declared.newest_slots.Newest.{Newest};
ghost use Rattle.fkv_scan.specs.Checkpoint.{AreTriples, checkpoint_in};
ghost use Rattle.fkv_scan.specs.Log.{log_in};
ghost use Rattle.fkv_scan.specs.Scan.{HasScan};
ghost use Rattle.fkv_chains.specs.Chains.{HasChains};
ghost use Rattle.fkv_room.specs.Room.{HasRoom};
ghost use Rattle.fkv_creating.specs.Created.{IsCreated, IsNew, IsNewStore, created_bytes};
ghost use Rattle.fkv_opening.specs.Opened.{IsStoreOf};
ghost use Rattle.fkv_opening.specs.declared.opened_store.Opened.{Opened};

use fkv_record::law_spellings_apart;

/// No stage of recovery finds a fault in the image of a new store, whatever stands behind its slots: its checkpoint has no
/// triples, its scan meets nothing, nothing is reached below, and no home has an entry.
pub fn law_new_is_sound()
    ensures triples { (image : List ℕ) (shape : Shape) (n : Newest) → IsNew shape n → AreTriples (checkpoint_in image n.shape n.slot) [] }
    ensures scan { (image : List ℕ) (shape : Shape) (n : Newest) → IsNew shape n → HasScan (log_in image n.shape n.slot []) }
    ensures chains { (image : List ℕ) (shape : Shape) (n : Newest) → IsNew shape n → HasChains (log_in image n.shape n.slot []) }
    ensures room { (image : List ℕ) (shape : Shape) (n : Newest) → IsNew shape n → HasRoom (log_in image n.shape n.slot []) }
{}

/// There is a new store of each shape, and so are its bytes, whatever the device holds before: those that `create` leaves. An image as `create` leaves one
/// holds each new store of its shape, and no other. So `recover` answers a new store of it, or is refused by the device or for want of memory.
pub fn law_new_stores()
    ensures created { (old : List ℕ) (shape : Shape) → IsCreated shape (created_bytes old shape) }
    ensures opened { (shape : Shape) → (o : Opened) × IsNewStore shape o }
    ensures holds { (image : List ℕ) (shape : Shape) (o : Opened) → IsCreated shape image → IsStoreOf image o ↔ IsNewStore shape o }
{
    law_spellings_apart();
}
