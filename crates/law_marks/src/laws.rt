//! What words show of versions.
ghost use Rattle.law_marks.specs.Words.{CutsShowMarks, HeadersShowMarks, PhasesShowVersions};
ghost use Rattle.law_marks.specs.Telling.{MarksComeAgain, MarksStay, MarksTellInWindow, MarksTellNear, SpecifiedInWindow};

/// A new record's header has the mark of its request's version, and so has the cut word of a version that a session leaves. The phase
/// word says the version itself. Up to 8191 a version is its own mark. The marks come again each 8191 versions, so nearer ones are told
/// apart by them. Recovery reads each mark of a checkpoint's window as its version. All versions of a specified store are in one window.
pub fn law_marks()
    ensures headers { HeadersShowMarks }
    ensures cuts { CutsShowMarks }
    ensures phases { PhasesShowVersions }
    ensures stay { MarksStay }
    ensures again { MarksComeAgain }
    ensures near { MarksTellNear }
    ensures window { MarksTellInWindow }
    ensures specified { SpecifiedInWindow }
{}
