//! Scripts as they are read: the line that opens the store, and the lines after it.
ghost use Rattle.std.specs.Prelude.{◌≡◌};
ghost use Rattle.fkv_lines.specs.Calls.{opens_living};

use fkv_base::{CommitKind, StoreClass};
use fkv_map::Call;

/// Where the store of a run lies. A store in memory is crashed by its script, and one in a file is opened again.
#[derive(Clone, Copy)]
pub enum Mode {
    /// In memory: `open` is not served.
    Memory,
    /// In a file: `crash`, `crash J` and `fail J` are not served.
    File,
}

/// The sizes of a `shape` or a `large` line, in its order, each below 2^64 and not yet judged.
#[derive(Clone, Copy, Debug, PartialEq, Eq)]
pub struct Sizes {
    /// `Specified` behind `shape`, `Living` behind `large`.
    pub class: StoreClass,
    pub bucket_bits: u64,
    pub page: u64,
    pub frames: u64,
    pub mutable: u64,
    pub sessions: u64,
    pub overflow: u64,
    pub disk_pages: u64,
}

/// The first line of a script that says something: where its store comes from.
#[derive(Clone, Copy, Debug, PartialEq, Eq)]
pub enum Opening {
    /// `shape K P F M S O D` or `large K P F M S O D`: a new store of these sizes.
    Shape(Sizes),
    /// `open`: the store that the file holds.
    Open,
}

impl Opening {
    /// Whether the lines behind this one may be merges and trims: those behind a `large` line alone may.
    pub(crate) fn opens_living(self) -> bool
        ensures { result ≡ opens_living self }
    {
        match self {
            Opening::Shape(sizes) => matches!(sizes.class, StoreClass::Living),
            Opening::Open => false,
        }
    }
}

/// A line of a script after the one that opens the store.
#[derive(Clone, Copy, Debug, PartialEq, Eq)]
pub enum Line {
    /// A session's number and its call: `N up K V`, `N add K V`, `N max K V`, `N del K`, `N get K`, `N refresh`, `N poll`,
    /// `N sleep` or `N wake`; behind a `large` line also `N keep K`, `N min K V`, `N sub K V`, `N and K V`, `N or K V` and
    /// `N first K V`. The shape may have no session of this number, and a value may be a reserved one.
    Call(u64, Call),
    /// `k commit`, or `k commit log`.
    Commit(CommitKind),
    /// `k commit trim`, behind a `large` line alone: a full commit, behind which turns sweep the log's front.
    Trim,
    /// `k turn`
    Turn,
    /// `k finish`
    Finish,
    /// `crash`
    Crash,
    /// `crash J`: the crash comes at the J-th call of the device in the lines that follow, counted from 1.
    CrashAt(u64),
    /// `fail J`: the J-th call of the device in the lines that follow fails, counted from 1, and each later one.
    FailAt(u64),
}

/// A script without a faulty line.
#[derive(Drop)]
pub struct Script {
    /// The line that opens the store; none where no line says anything.
    pub opening: Option<Opening>,
    /// The lines after it that say something, in their order.
    pub lines: Vec<Line>,
}
