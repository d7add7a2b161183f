//! Stores in a file.
ghost use Rattle.std.specs.Prelude.{◌⊎◌, IfErr, IfOk, OnErr};
ghost use Rattle.fkv_base.specs.declared.faults.Fault.TheVariants.{Device};
ghost use Rattle.fkv_runs.specs.Below.fkv_playing.InTurn.{Writes};
ghost use Rattle.fkv_runs.specs.Beginnings.{BreaksOff};
ghost use Rattle.fkv_cli.specs.Output.{IsFound, IsRunInFile, IsRunInNewFile, IsUnread, Refuses, RefusesOld, places_of};

use crate::complaints::{Complaint, complain};
use crate::scripts::refuse;
use fkv_base::{Fault, Key, Shape, Value};
use fkv_creating::create_opened;
use fkv_disk::{Device, PageSize, Pages, ReadAhead};
use fkv_files::{StorePlaces, Trouble, pages_to_keep};
use fkv_opening::{Opened, recover};
use fkv_pairs::content;
use fkv_runs::{Breaks, Picks, Piece, play_life, write_text};
use fkv_texts::{Opening, write_report};
use std::alloc::Global;
use std::io::{self, Write};

/// A new store in the file of this path, and the pieces of its script.
pub(crate) fn play_new_file<S: StorePlaces, W: Write, E: Write>(
    places: &S,
    alloc: Global,
    path: &str,
    shape: Shape,
    pieces: &[Piece],
    picks: &mut Picks,
    output: &mut W,
    complaints: &mut E,
) -> io::Result<u8>
where
    S::Disk: Breaks,
    ensures whole { IfOk result (λ status. Writes (λ text. IsRunInNewFile (places_of S.Disk.honest S.Disk.seen S.Disk.may_leave S.Disk.failed S.Disk.refuses S.Disk.expects S.Disk.broken (S.is_opened places.now) (S.is_made places.now)) path.now shape pieces.now status text ⊎ Refuses Device 3 status text) (W.contents output.old) (W.contents output.new)) }
    ensures part { OnErr result (BreaksOff (λ text. IsRunInNewFile (places_of S.Disk.honest S.Disk.seen S.Disk.may_leave S.Disk.failed S.Disk.refuses S.Disk.expects S.Disk.broken (S.is_opened places.now) (S.is_made places.now)) path.now shape pieces.now 4 text ⊎ Refuses Device 3 4 text) (W.contents output.old) (W.contents output.new)) }
{
    let mut device = match places.make_alone(path) {
        Ok((device, _)) => device,
        Err(trouble) => {
            complain(complaints, Complaint::File { path, trouble });
            return refuse(alloc, output, Fault::Device, 3);
        }
    };
    match create_opened(alloc, &mut device, shape) {
        Ok(opened) => {
            play_life(alloc, output, opened, device, pieces, picks)?;
            Ok(0)
        }
        Err(fault) => {
            complain_of_fault(complaints, path, fault);
            refuse(alloc, output, fault, 3)
        }
    }
}

/// The store that the file of this path holds, its report, and the pieces of its script.
pub(crate) fn play_old_file<S: StorePlaces, W: Write, E: Write>(
    places: &S,
    alloc: Global,
    path: &str,
    pieces: &[Piece],
    picks: &mut Picks,
    output: &mut W,
    complaints: &mut E,
) -> io::Result<u8>
where
    S::Disk: Breaks,
    ensures whole { IfOk result (λ status. Writes (λ text. IsRunInFile (places_of S.Disk.honest S.Disk.seen S.Disk.may_leave S.Disk.failed S.Disk.refuses S.Disk.expects S.Disk.broken (S.is_opened places.now) (S.is_made places.now)) path.now pieces.now status text ⊎ RefusesOld (places_of S.Disk.honest S.Disk.seen S.Disk.may_leave S.Disk.failed S.Disk.refuses S.Disk.expects S.Disk.broken (S.is_opened places.now) (S.is_made places.now)) path.now status text) (W.contents output.old) (W.contents output.new)) }
    ensures part { OnErr result (BreaksOff (λ text. IsRunInFile (places_of S.Disk.honest S.Disk.seen S.Disk.may_leave S.Disk.failed S.Disk.refuses S.Disk.expects S.Disk.broken (S.is_opened places.now) (S.is_made places.now)) path.now pieces.now 4 text ⊎ RefusesOld (places_of S.Disk.honest S.Disk.seen S.Disk.may_leave S.Disk.failed S.Disk.refuses S.Disk.expects S.Disk.broken (S.is_opened places.now) (S.is_made places.now)) path.now 4 text) (W.contents output.old) (W.contents output.new)) }
{
    let (device, length) = match places.open_alone(path) {
        Ok(found) => found,
        Err(trouble) => {
            complain(complaints, Complaint::File { path, trouble });
            return refuse(alloc, output, Fault::Device, 3);
        }
    };
    match opened(alloc, device, length) {
        Ok((device, opened, pairs)) => {
            let mut report = Vec::new(alloc);
            write_report(
                &mut report,
                Opening::Open,
                opened.number,
                opened.points.as_slice(),
                &pairs,
            )?;
            write_text(output, report.as_slice())?;
            play_life(alloc, output, opened, device, pieces, picks)?;
            Ok(0)
        }
        Err(fault) => {
            complain_of_fault(complaints, path, fault);
            refuse(alloc, output, fault, 3)
        }
    }
}

/// Tells why the file of this path holds no store. Refused memory is told where it ends the run.
fn complain_of_fault<E: Write>(complaints: &mut E, path: &str, fault: Fault) {
    if fault != Fault::Memory {
        let trouble = Trouble::Fault(fault);
        complain(complaints, Complaint::File { path, trouble });
    }
}

/// The store that a device of so many bytes holds, with its pairs. The device is read page by page.
fn opened<D: Device + Drop>(
    alloc: Global,
    device: D,
    length: Option<u64>,
) -> Result<(D, Opened, Vec<(Key, Value)>), Fault>
    ensures found { IfOk result (λ found. IsFound D.honest D.seen D.may_leave device found.1 found.2.items found.0) }
    ensures refused { IfErr result (IsUnread (D.honest device) (D.seen device)) }
{
    let pages = Pages::new(alloc, PageSize::Kib4, pages_to_keep(length))?;
    let mut ahead = ReadAhead::new(device, pages);
    let opened = recover(alloc, &mut ahead)?;
    let pairs = content(alloc, &opened, &mut ahead)?;
    Ok((ahead.into_device(), opened, pairs))
}
