//! The file system of a run, which notes what the run's complaints tell of its files.
#![tactic(auto)]

mod noted;
mod noted_files;
mod notes;

pub use noted::Noted;
pub use noted_files::NotedFile;
pub use notes::Notes;
