//! The word by which C holds it.
ghost use Rattle.std.specs.Prelude.{◌≡◌};
ghost use Rattle.fkv_face.specs.Holding as holds;

use fkv_handles::Keeper;
use std::marker::Model;

/// The pointer to the box that it lies in. It is untyped, so nothing of what the box holds crosses to C.
#[repr(C)]
pub struct HeldKeeper {
    at: *mut u8,
    ghost value: { holds.Keeper },
    ghost alloc: { holds.Global },
}

impl Model for HeldKeeper {
    ghost also_owns = { λ h. holds.box_owns (holds.ghosts.dealloc_token h.alloc) holds.keeper_row h.at h.value };
}

impl HeldKeeper {
    ghost use Rattle.fkv_face.specs.Lending.{LendsKeeper};

    /// What is held.
    #[inline(always)]
    pub fn lent(&mut self) -> &mut Keeper
        ensures* writes_back { holds.sem 𝓛 (LendsKeeper self.entry result) }
        ensures value { result.now ≡ self.old.value }
    {
        unsafe { &mut *self.at.cast::<Keeper>() }
    }
}
