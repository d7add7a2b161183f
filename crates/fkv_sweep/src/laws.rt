//! What holds of every sweep.
ghost use Rattle.fkv_sweep.specs.Swept.{AllSwept, LoadsAlone, ReadsAbove};

/// Whatever the order of its turns, replies and reads: where each reply tells what the log shows then, each record that the sweep has
/// passed deleted its key, or a record of its key stands at or above the sweep's end, in the chain of its home. It reads
/// no record of the device below where it began, and asks for no change of a word.
pub fn law_swept()
    ensures swept { AllSwept }
    ensures above { ReadsAbove }
    ensures loads { LoadsAlone }
{}
