//! What a run is told beside its script.

/// How crashes are taken.
#[derive(Clone, Copy, PartialEq, Eq)]
pub struct Settings {
    /// The byte to which a crash sets each byte of the image that isn't synced.
    pub torn: u8,
    /// Whether each report of a crash is checked against a replay of the updates that it keeps.
    pub checks: bool,
}
