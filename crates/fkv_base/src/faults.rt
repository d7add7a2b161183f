//! Why a call is refused.
ghost use Rattle.std.specs.Prelude.{◌≡◌};
ghost use Rattle.fkv_base.specs.Fault.{number_of, name_of, damage_name, script_fault_name};
ghost use Rattle.fkv_base.specs.declared.faults.Fault.TheVariants.{Memory};

use std::alloc::{AllocError, AllocFailed};
use thiserror::Error;

/// Every refusal of the store and its program. The program prints its number and its name.
#[derive(Clone, Copy, Debug, PartialEq, Eq, Error)]
pub enum Fault {
    #[error("a size of the shape is outside its limits")]
    BadShape,
    #[error("2^64 - 1 is no value: it stands for an absent one")]
    ValueReserved,
    #[error("64 requests of the session are pending")]
    PendingFull,
    #[error("the index has no room for another home")]
    IndexFull,
    #[error("the log has no room for another record")]
    LogFull,
    #[error("the last version is reached")]
    VersionsSpent,
    #[error("the session has taken its last serial")]
    SerialsSpent,
    #[error("the last epoch is reached")]
    EpochsSpent,
    #[error("no drain slot is free")]
    DrainFull,
    #[error("a commit is running")]
    CommitRunning,
    #[error("the session has pending requests")]
    PendingLeft,
    #[error("the session sleeps")]
    Asleep,
    #[error("the device failed in an earlier call")]
    Broken,
    #[error("the device failed in this call")]
    Device,
    #[error("the image is not a store")]
    NotAStore,
    #[error("the image is damaged: {0} {1}")]
    Damaged(Damage, u64),
    #[error("line {0} of the script is faulty: {1}")]
    Script(u64, ScriptFault),
    #[error("memory was refused in this call")]
    Memory,
    #[error("the shape has no such session")]
    NoSession,
    #[error("the session is awake")]
    Awake,
    #[error("more than eight ranges of lost records are in hand, or the last full commit is too old")]
    LostFull,
}

/// What part of an image is damaged.
#[derive(Clone, Copy, Debug, PartialEq, Eq, Error)]
pub enum Damage {
    #[error("manifest slot")]
    Manifest,
    #[error("triple")]
    Triple,
    #[error("record")]
    Record,
    #[error("link of record")]
    Link,
    #[error("full bucket")]
    Full,
}

/// What is wrong with a line of a script, in the order in which it is tested.
#[derive(Clone, Copy, Debug, PartialEq, Eq, Error)]
pub enum ScriptFault {
    #[error("too long, or too many lines")]
    Size,
    #[error("a store is opened by the first line alone")]
    Order,
    #[error("unknown word")]
    Word,
    #[error("wrong number of words")]
    Count,
    #[error("not a number")]
    Number,
    #[error("not served in this mode")]
    Mode,
}

impl Fault {
    /// The number of the fault, 1 to 21, as the program prints it.
    pub fn number(self) -> u64
        ensures { result ≡ number_of self }
    {
        match self {
            Fault::BadShape => 1,
            Fault::ValueReserved => 2,
            Fault::PendingFull => 3,
            Fault::IndexFull => 4,
            Fault::LogFull => 5,
            Fault::VersionsSpent => 6,
            Fault::SerialsSpent => 7,
            Fault::EpochsSpent => 8,
            Fault::DrainFull => 9,
            Fault::CommitRunning => 10,
            Fault::PendingLeft => 11,
            Fault::Asleep => 12,
            Fault::Broken => 13,
            Fault::Device => 14,
            Fault::NotAStore => 15,
            Fault::Damaged(_, _) => 16,
            Fault::Script(_, _) => 17,
            Fault::Memory => 18,
            Fault::NoSession => 19,
            Fault::Awake => 20,
            Fault::LostFull => 21,
        }
    }

    /// The name of the fault without its data, as the program prints it.
    pub fn name(self) -> &'static str
        ensures { result.now ≡ name_of self }
    {
        match self {
            Fault::BadShape => "BadShape",
            Fault::ValueReserved => "ValueReserved",
            Fault::PendingFull => "PendingFull",
            Fault::IndexFull => "IndexFull",
            Fault::LogFull => "LogFull",
            Fault::VersionsSpent => "VersionsSpent",
            Fault::SerialsSpent => "SerialsSpent",
            Fault::EpochsSpent => "EpochsSpent",
            Fault::DrainFull => "DrainFull",
            Fault::CommitRunning => "CommitRunning",
            Fault::PendingLeft => "PendingLeft",
            Fault::Asleep => "Asleep",
            Fault::Broken => "Broken",
            Fault::Device => "Device",
            Fault::NotAStore => "NotAStore",
            Fault::Damaged(_, _) => "Damaged",
            Fault::Script(_, _) => "Script",
            Fault::Memory => "Memory",
            Fault::NoSession => "NoSession",
            Fault::Awake => "Awake",
            Fault::LostFull => "LostFull",
        }
    }
}

impl Damage {
    /// The part's name, as the program prints it.
    pub fn name(self) -> &'static str
        ensures { result.now ≡ damage_name self }
    {
        match self {
            Damage::Manifest => "Manifest",
            Damage::Triple => "Triple",
            Damage::Record => "Record",
            Damage::Link => "Link",
            Damage::Full => "Full",
        }
    }
}

impl ScriptFault {
    /// The kind's name, as the program prints it.
    pub fn name(self) -> &'static str
        ensures { result.now ≡ script_fault_name self }
    {
        match self {
            ScriptFault::Size => "Size",
            ScriptFault::Order => "Order",
            ScriptFault::Word => "Word",
            ScriptFault::Count => "Count",
            ScriptFault::Number => "Number",
            ScriptFault::Mode => "Mode",
        }
    }
}

impl From<AllocError> for Fault {
    ghost from_gives = { λ _ fault. fault ≡ Memory };

    fn from(_error: AllocError) -> Fault {
        Fault::Memory
    }
}

impl<T: Drop> From<AllocFailed<T>> for Fault {
    ghost from_gives = { λ _ fault. fault ≡ Memory };

    fn from(_error: AllocFailed<T>) -> Fault {
        Fault::Memory
    }
}
