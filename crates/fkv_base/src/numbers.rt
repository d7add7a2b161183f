//! Numbers with a meaning, one type for each.

/// A key. Every number is one.
#[derive(Clone, Copy, Debug, Default, PartialEq, Eq, PartialOrd, Ord, Hash)]
pub struct Key(pub u64);

/// A value of a key, 0 to 2^64 - 2. The number `ABSENT` stands for no value.
#[derive(Clone, Copy, Debug, Default, PartialEq, Eq, PartialOrd, Ord, Hash)]
pub struct Value(pub u64);

impl Value {
    /// The word that a record holds where its key was deleted.
    pub const ABSENT: u64 = 18446744073709551615;
}

/// The address of a record in the log, counted in records from 1. Address 0 names none.
#[derive(Clone, Copy, Debug, Default, PartialEq, Eq, PartialOrd, Ord, Hash)]
pub struct Addr(pub u64);

/// A version of the store, 1 to 2^45 - 1, and to 8191 of a specified one. A commit has the number of the version that it commits.
#[derive(Clone, Copy, Debug, Default, PartialEq, Eq, PartialOrd, Ord, Hash)]
pub struct Version(pub u64);

impl Version {
    /// The last version that there is. [`StoreClass::last_version`](crate::StoreClass::last_version) is that of a store.
    pub const LAST: u64 = 35184372088831;
}

/// The number of an update within its session, 1 to 2^48 - 1. As a point, 0 says that there is none yet.
#[derive(Clone, Copy, Debug, Default, PartialEq, Eq, PartialOrd, Ord, Hash)]
pub struct Serial(pub u64);

impl Serial {
    /// The last serial that a session can take.
    pub const LAST: u64 = 281474976710655;
}
