//! A script without a faulty line.
ghost use Rattle.std.specs.Prelude.{◌≡◌, IfErr, IfOk, OnErr, Some, is_some};
ghost use Rattle.fkv_base.specs.declared.faults.Fault.TheVariants.{BadShape, Memory};
ghost use Rattle.fkv_runs.specs.Below.fkv_playing.InTurn.{Writes};
ghost use Rattle.fkv_runs.specs.Beginnings.{BreaksOff};
ghost use Rattle.fkv_runs.specs.Openings.{CrashesFrom, RefusesNoCall, medium_of};
ghost use Rattle.fkv_cli.specs.Output.{AreSizes, HasSizes, IsRunOfOldStore, IsRunOfScript, IsRunOfStore, Refuses, path_in, places_of};

use crate::complaints::{Complaint, SizeFault, complain};
use crate::file_runs::{play_new_file, play_old_file};
use crate::memory_runs::play_memory;
use fkv_base::{Fault, Shape, StoreClass};
use fkv_files::StorePlaces;
use fkv_lines::{Opening, Script, Sizes};
use fkv_options::Options;
use fkv_runs::{Breaks, Crashes, Picks, Piece, pieces_of, write_text};
use fkv_texts::write_refusal;
use std::alloc::Global;
use std::io::{self, Write};

/// Runs a script: its store is created or opened, and its lines are played.
pub(crate) fn run_script<S: StorePlaces, M: Crashes, W: Write, E: Write>(
    places: &S,
    alloc: Global,
    options: &Options,
    memory: M,
    script: &Script,
    output: &mut W,
    complaints: &mut E,
) -> io::Result<u8>
where
    S::Disk: Breaks,
    requires honest { M.honest memory }
    requires sound { RefusesNoCall M.refuses memory }
    requires crashes { CrashesFrom M.expects (M.seen memory) memory }
    ensures whole { IfOk result (λ status. Writes (IsRunOfScript (record { memory = medium_of M.honest M.seen M.may_leave M.failed M.refuses M.expects M.broken M.armed; file = places_of S.Disk.honest S.Disk.seen S.Disk.may_leave S.Disk.failed S.Disk.refuses S.Disk.expects S.Disk.broken (S.is_opened places.now) (S.is_made places.now) }) options.now script.now.opening script.now.lines.items status) (W.contents output.old) (W.contents output.new)) }
    ensures part { OnErr result (BreaksOff (IsRunOfScript (record { memory = medium_of M.honest M.seen M.may_leave M.failed M.refuses M.expects M.broken M.armed; file = places_of S.Disk.honest S.Disk.seen S.Disk.may_leave S.Disk.failed S.Disk.refuses S.Disk.expects S.Disk.broken (S.is_opened places.now) (S.is_made places.now) }) options.now script.now.opening script.now.lines.items 4) (W.contents output.old) (W.contents output.new)) }
{
    let Some(opening) = script.opening else {
        return Ok(0);
    };
    let pieces = pieces_of(alloc, &script.lines, options.seed.is_some())?;
    match opening {
        Opening::Shape(sizes) => match shape_of(sizes) {
            Ok(shape) => run_new(
                places, alloc, options, memory, shape, &pieces, output, complaints,
            ),
            Err(fault) => {
                complain_of_sizes(complaints, sizes);
                refuse(alloc, output, fault, 2)
            }
        },
        Opening::Open => run_old(places, alloc, options, &pieces, output, complaints),
    }
}

/// A new store of this shape, in memory or in a file.
fn run_new<S: StorePlaces, M: Crashes, W: Write, E: Write>(
    places: &S,
    alloc: Global,
    options: &Options,
    memory: M,
    shape: Shape,
    pieces: &[Piece],
    output: &mut W,
    complaints: &mut E,
) -> io::Result<u8>
where
    S::Disk: Breaks,
    requires honest { M.honest memory }
    requires sound { RefusesNoCall M.refuses memory }
    requires crashes { CrashesFrom M.expects (M.seen memory) memory }
    ensures whole { IfOk result (λ status. Writes (λ text. IsRunOfStore (record { memory = medium_of M.honest M.seen M.may_leave M.failed M.refuses M.expects M.broken M.armed; file = places_of S.Disk.honest S.Disk.seen S.Disk.may_leave S.Disk.failed S.Disk.refuses S.Disk.expects S.Disk.broken (S.is_opened places.now) (S.is_made places.now) }) options.now (Some shape) pieces.now status text (is_some options.now.file)) (W.contents output.old) (W.contents output.new)) }
    ensures part { OnErr result (BreaksOff (λ text. IsRunOfStore (record { memory = medium_of M.honest M.seen M.may_leave M.failed M.refuses M.expects M.broken M.armed; file = places_of S.Disk.honest S.Disk.seen S.Disk.may_leave S.Disk.failed S.Disk.refuses S.Disk.expects S.Disk.broken (S.is_opened places.now) (S.is_made places.now) }) options.now (Some shape) pieces.now 4 text (is_some options.now.file)) (W.contents output.old) (W.contents output.new)) }
{
    let mut picks = Picks::new(options.seed);
    match &options.file {
        None => play_memory(
            alloc, options, memory, shape, pieces, &mut picks, output, complaints,
        ),
        Some(path) => play_new_file(
            places,
            alloc,
            path.as_str(),
            shape,
            pieces,
            &mut picks,
            output,
            complaints,
        ),
    }
}

/// The store that a file holds.
fn run_old<S: StorePlaces, W: Write, E: Write>(
    places: &S,
    alloc: Global,
    options: &Options,
    pieces: &[Piece],
    output: &mut W,
    complaints: &mut E,
) -> io::Result<u8>
where
    S::Disk: Breaks,
    ensures whole { IfOk result (λ status. Writes (λ text. IsRunOfOldStore (places_of S.Disk.honest S.Disk.seen S.Disk.may_leave S.Disk.failed S.Disk.refuses S.Disk.expects S.Disk.broken (S.is_opened places.now) (S.is_made places.now)) (path_in options.now.file) pieces.now status text (is_some options.now.file)) (W.contents output.old) (W.contents output.new)) }
    ensures part { OnErr result (BreaksOff (λ text. IsRunOfOldStore (places_of S.Disk.honest S.Disk.seen S.Disk.may_leave S.Disk.failed S.Disk.refuses S.Disk.expects S.Disk.broken (S.is_opened places.now) (S.is_made places.now)) (path_in options.now.file) pieces.now 4 text (is_some options.now.file)) (W.contents output.old) (W.contents output.new)) }
{
    let mut picks = Picks::new(options.seed);
    match &options.file {
        Some(path) => play_old_file(
            places,
            alloc,
            path.as_str(),
            pieces,
            &mut picks,
            output,
            complaints,
        ),
        None => Ok(0),
    }
}

/// The shape of these sizes.
fn shape_of(sizes: Sizes) -> Result<Shape, Fault>
    ensures sized { IfOk result (HasSizes sizes) }
    ensures refused { IfErr result (λ fault. (¬ (AreSizes sizes)) × (fault ≡ BadShape)) }
{
    match sizes.class {
        StoreClass::Specified => Shape::new(
            sizes.bucket_bits,
            sizes.page,
            sizes.frames,
            sizes.mutable,
            sizes.sessions,
            sizes.overflow,
            sizes.disk_pages,
        ),
        StoreClass::Living => Shape::large(
            sizes.bucket_bits,
            sizes.page,
            sizes.frames,
            sizes.mutable,
            sizes.sessions,
            sizes.overflow,
            sizes.disk_pages,
        ),
    }
}

/// Tells which of these sizes is none of a shape.
fn complain_of_sizes<E: Write>(complaints: &mut E, sizes: Sizes) {
    let complaint = match SizeFault::of(sizes) {
        Some(fault) => Complaint::SizeOutside(fault),
        None => Complaint::SizesRefused,
    };
    complain(complaints, complaint);
}

/// Prints the refusal that ends a run. Memory that was refused ends it without one.
pub(crate) fn refuse<W: Write>(
    alloc: Global,
    output: &mut W,
    fault: Fault,
    status: u8,
) -> io::Result<u8>
    ensures text { IfOk result (λ told. Writes (Refuses fault status told) (W.contents output.old) (W.contents output.new)) }
    ensures memory { IfOk result (λ told. ¬ (fault ≡ Memory)) }
    ensures part { OnErr result (BreaksOff (λ text. (¬ (fault ≡ Memory)) × Refuses fault status 4 text) (W.contents output.old) (W.contents output.new)) }
{
    if fault == Fault::Memory {
        return Err(io::ErrorKind::OutOfMemory.into());
    }
    let mut refusal = Vec::new(alloc);
    write_refusal(&mut refusal, fault)?;
    write_text(output, refusal.as_slice())?;
    Ok(status)
}
