//! Runs of the program over a store that lies in memory.
ghost use Rattle.std.specs.Prelude.{◌≡◌, ◌≢◌};
ghost use Rattle.fkv_cli_tests.specs.Said as said;

use crate::shelves::Shelf;
use fkv_cli::run;
use fkv_disk::{Device, Fuse, MemDisk};
use fkv_runs::{Breaks, Crashes};
use std::alloc::Global;
use std::io::{Read, Write};

/// Runs the program, as `fkv_cli::run` does, over the store on this shelf as its file. Its devices are honest, so `law_of_a_shelf` says what
/// its output tells of the store.
pub fn run_on_shelf<R: Read + Drop, W: Write, E: Write>(
    shelf: &Shelf<'_>,
    alloc: Global,
    words: &[&str],
    input: R,
    output: &mut W,
    complaints: &mut E,
) -> u8
    ensures whole { result ≢ 4 → said.Writes (said.IsOutputOf (said.devices_of
        (said.memory_of ⟦<Fuse<MemDisk> as Device>⟧ ⟦<Fuse<MemDisk> as Breaks>⟧.broken
        ⟦<Fuse<MemDisk> as Crashes>⟧.armed)
        (said.shelf_files ⟦<Fuse<MemDisk> as Device>⟧ ⟦<Fuse<MemDisk> as Breaks>⟧.broken shelf.now))
        (said.texts words.now) (R.remaining input) result) (W.contents output.old) (W.contents output.new) }
    ensures part { result ≡ 4 → said.BreaksOff (said.IsOutputOf (said.devices_of
        (said.memory_of ⟦<Fuse<MemDisk> as Device>⟧ ⟦<Fuse<MemDisk> as Breaks>⟧.broken
        ⟦<Fuse<MemDisk> as Crashes>⟧.armed)
        (said.shelf_files ⟦<Fuse<MemDisk> as Device>⟧ ⟦<Fuse<MemDisk> as Breaks>⟧.broken shelf.now))
        (said.texts words.now) (R.remaining input) 4) (W.contents output.old) (W.contents output.new) }
{
    run(shelf, alloc, words, input, output, complaints)
}

/// What a run over a shelf tells, with no premise of a device. A report is of the store that the shelf's bytes hold, with just its pairs, and behind it stands
/// what a life over a device that holds this store prints, or nothing if the run breaks off. If the store isn't opened, the bytes have the fault. If a new
/// store was made, a device was given for it, and the output is what a life prints over a device that holds it.
pub fn law_of_a_shelf()
    ensures { (shelf : said.Shelf) → said.TellsOf (said.shelf_files ⟦<Fuse<MemDisk> as Device>⟧ ⟦<Fuse<MemDisk> as Breaks>⟧.broken shelf)
        (said.shelf_name shelf) (said.shelf_image shelf) }
{}
