//! What a renewal saves.
ghost use Rattle.std.specs.Prelude.{◌≡◌, ◌*◌, ◌^◌, ◌<◌, ◌≤◌};
ghost use Rattle.fkv_renew.specs.Said as said;

use fkv_base::{Addr, Shape, Version};
use fkv_record::{area_place, record_place};
use std::io::{self, Write};

/// How much of its capacities a store takes.
#[derive(Clone, Copy)]
pub(crate) struct Taken {
    /// The addresses of its log that have a record.
    pub(crate) records: u64,
    /// The bytes of its image up to the log's end, or those before its areas where the log has no record.
    pub(crate) bytes: u64,
    /// How many commits it can make still.
    pub(crate) commits_left: u64,
}

/// What a renewal has saved.
#[derive(Clone, Copy)]
pub(crate) struct Saved {
    /// How many pairs the store has, before and after.
    pub(crate) pairs: usize,
    pub(crate) before: Taken,
    pub(crate) after: Taken,
}

impl Taken {
    /// What a store of this shape takes whose log ends at this address, and whose newest commit has this number.
    pub(crate) fn of(shape: Shape, tail: Addr, number: Version) -> Taken
        requires some { 1 ≤ tail.0 }
        requires on_disk { tail.0 ≤ shape.disk_pages * shape.page }
        ensures { result ≡ said.taken_of shape tail.0 number.0 }
    {
        Taken {
            records: tail.0 - 1,
            bytes: bytes_up_to(shape, tail),
            commits_left: (shape.class.last_version() - 1).saturating_sub(number.0),
        }
    }
}

/// The bytes of an image whose log ends at this address. Without records it has no area with triples either.
fn bytes_up_to(shape: Shape, tail: Addr) -> u64
    requires { tail.0 < 2 ^ 48 }
    ensures { result ≡ said.bytes_up_to shape tail.0 }
{
    if tail.0 > 1 {
        record_place(shape, tail)
    } else {
        area_place(shape, 0)
    }
}

/// The lines that say what a renewal has saved.
pub(crate) fn write_saved<W: Write>(output: &mut W, saved: Saved) -> io::Result<()>
    ensures { said.OnOk result (said.Appends (W.contents output.old) (W.contents output.new) (said.saved_text saved)) }
{
    let Saved {
        pairs,
        before,
        after,
    } = saved;
    writeln!(output, "renewed pairs {pairs}")?;
    write_change(output, "records", before.records, after.records)?;
    write_change(output, "bytes", before.bytes, after.bytes)?;
    write_change(
        output,
        "commits left",
        before.commits_left,
        after.commits_left,
    )
}

/// One line of them: `records 1047 now 3`.
fn write_change<W: Write>(output: &mut W, name: &str, before: u64, after: u64) -> io::Result<()>
    ensures { said.OnOk result (said.Appends (W.contents output.old) (W.contents output.new) (said.change_line name.now before after)) }
{
    writeln!(output, "{name} {before} now {after}")
}
