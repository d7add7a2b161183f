//! Stores in memory.
ghost use Rattle.std.specs.Prelude.{◌⊎◌, IfOk, OnErr};
ghost use Rattle.fkv_base.specs.declared.faults.Fault.TheVariants.{Device};
ghost use Rattle.fkv_runs.specs.Below.fkv_playing.InTurn.{Writes};
ghost use Rattle.fkv_runs.specs.Beginnings.{BreaksOff};
ghost use Rattle.fkv_runs.specs.Openings.{CrashesFrom, RefusesNoCall, medium_of};
ghost use Rattle.fkv_cli.specs.Output.{IsRunInMemory, Refuses};

use crate::complaints::{Complaint, complain};
use crate::scripts::refuse;
use fkv_base::{Fault, Shape};
use fkv_creating::{create_opened, law_new_stores};
use fkv_options::Options;
use fkv_runs::{Crashes, Picks, Piece, Settings, play_lives};
use std::alloc::Global;
use std::io::{self, Write};

/// A new store over this honest device in memory, which refuses no call, and the pieces of its script over its lives. Crashes of the device go from what it reads
/// as on, and so those of the first life from the store's image.
pub(crate) fn play_memory<M: Crashes, W: Write, E: Write>(
    alloc: Global,
    options: &Options,
    memory: M,
    shape: Shape,
    pieces: &[Piece],
    picks: &mut Picks,
    output: &mut W,
    complaints: &mut E,
) -> io::Result<u8>
    requires honest { M.honest memory }
    requires sound { RefusesNoCall M.refuses memory }
    requires crashes { CrashesFrom M.expects (M.seen memory) memory }
    ensures whole { IfOk result (λ status. Writes (λ text. IsRunInMemory (medium_of M.honest M.seen M.may_leave M.failed M.refuses M.expects M.broken M.armed) options.now shape pieces.now status text ⊎ Refuses Device 3 status text) (W.contents output.old) (W.contents output.new)) }
    ensures part { OnErr result (BreaksOff (λ text. IsRunInMemory (medium_of M.honest M.seen M.may_leave M.failed M.refuses M.expects M.broken M.armed) options.now shape pieces.now 4 text ⊎ Refuses Device 3 4 text) (W.contents output.old) (W.contents output.new)) }
{
    let settings = Settings {
        torn: options.torn,
        checks: options.check,
    };
    let mut device = memory;
    law_new_stores();
    match create_opened(alloc, &mut device, shape) {
        Ok(opened) => {
            let ended = play_lives(alloc, output, opened, device, pieces, picks, settings);
            complain_of_end(complaints, &ended);
            ended
        }
        Err(fault) => {
            complain_of_fault(complaints, fault);
            refuse(alloc, output, fault, 3)
        }
    }
}

/// Tells what the status of lives means, where it is above 0.
fn complain_of_end<E: Write>(complaints: &mut E, ended: &io::Result<u8>) {
    match ended {
        Ok(1) => complain(complaints, Complaint::CheckDiffers),
        Ok(3) => complain(complaints, Complaint::NotRecovered),
        _ => {}
    }
}

/// Tells that no store could be made. Refused memory is told where it ends the run.
fn complain_of_fault<E: Write>(complaints: &mut E, fault: Fault) {
    if fault != Fault::Memory {
        complain(complaints, Complaint::NoStoreInMemory);
    }
}
