//! What a session's thread gives back.
use crate::players::SessionEnd;
use fkv_base::{Fault, Serial};
use fkv_disk::Device;
use fkv_lines::Line;
use fkv_threads::Table;
use std::thread::Promise;

/// The thread of the session of this number, which goes on from this point at the table, and plays its calls of these lines: its log is what that session
/// was told there. Where it gives nothing back, memory was refused.
#[derive(Drop)]
pub(crate) struct SessionLog<'t, D: Device> {
    pub(crate) table: &'t Table<D>,
    pub(crate) lines: &'t [Line],
    pub(crate) number: usize,
    pub(crate) point: Serial,
}

impl<'t, D: Device> Promise<Result<SessionEnd, Fault>> for SessionLog<'t, D> {
    ghost use Rattle.std.specs.Prelude.{◌≡◌};
    ghost use Rattle.fkv_threading.specs.Said as said;

    ghost kept_by = { λ its r. said.IfOk r (λ end. said.IsTold (said.opening D.Device) (said.part_of its.table.now.table.shared.key its.number its.point
        its.lines.now) end.is_whole end.log) × said.OnErr r (r ≡ said.Err said.Memory) };
}
