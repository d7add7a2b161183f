//! A life that begins with a store that was opened.
ghost use Rattle.std.specs.Prelude.{◌≡◌, IfOk, Ok};
ghost use Rattle.fkv_runs.specs.Openings.{Begins};

use fkv_base::Fault;
use fkv_map::HistoryEntry;
use fkv_opening::Opened;
use fkv_playing::{Breaks, Player, World};
use std::alloc::Global;
use std::io;

/// The player of a life that begins with this store over this device.
pub(crate) fn begin<D: Breaks + Drop>(
    alloc: Global,
    opened: Opened,
    device: D,
    history: Vec<HistoryEntry>,
    keeps_history: bool,
) -> io::Result<Player<D>>
    ensures { IfOk result (Begins opened device history.items keeps_history) }
{
    let sessions = opened.shape.sessions as usize;
    let world = granted(World::open(alloc, opened, device))?;
    Player::new(alloc, world, sessions, history, keeps_history)
}

/// What was made, where nothing but memory can have been refused.
pub(crate) fn granted<T: Drop>(made: Result<T, Fault>) -> io::Result<T>
    ensures { IfOk result (λ its. made ≡ Ok its) }
{
    match made {
        Ok(its) => Ok(its),
        Err(_) => Err(io::ErrorKind::OutOfMemory.into()),
    }
}
