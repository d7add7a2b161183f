//! What a manifest slot says, whichever of the two it is.
ghost use Rattle.std.specs.Prelude.{◌≡◌};
ghost use Rattle.fkv_looking.specs.Slots.{IsSlotLook, kind_of};

use fkv_record::{Format, ManifestSlot, open_number, read_manifest_slot};

/// How a commit keeps the index.
#[derive(Clone, Copy)]
pub enum CommitKind {
    /// It has a checkpoint of its own.
    Full,
    /// It uses an earlier commit's checkpoint.
    Log,
}

/// What a slot says of its commit.
#[derive(Drop)]
pub struct CommitLook {
    /// The format in which it stands.
    pub format: Format,
    /// Whether the checkpoint is its own.
    pub kind: CommitKind,
    /// What it says, in the words of the newest format. Whether a store can have such a slot isn't tested.
    pub slot: ManifestSlot,
}

/// A manifest slot.
#[derive(Drop)]
pub enum SlotLook {
    /// Its gate is closed, whatever else stands in it.
    Closed,
    /// Its gate is open and it names the commit of this number, but its bytes spell no slot.
    Unspelled(u64),
    /// Its bytes spell what a commit says.
    Commit(CommitLook),
}

/// The kind of the commit that says this.
fn kind_of(slot: &ManifestSlot) -> CommitKind
    ensures { result ≡ kind_of slot.now }
{
    if slot.checkpoint == slot.number {
        CommitKind::Full
    } else {
        CommitKind::Log
    }
}

/// What these bytes of a slot say.
pub(crate) fn slot_look(bytes: &[u8; 512]) -> SlotLook
    ensures { IsSlotLook bytes.now result }
{
    let Some(number) = open_number(bytes) else {
        return SlotLook::Closed;
    };
    match read_manifest_slot(bytes) {
        Some((format, slot)) => SlotLook::Commit(CommitLook {
            format,
            kind: kind_of(&slot),
            slot,
        }),
        None => SlotLook::Unspelled(number),
    }
}
