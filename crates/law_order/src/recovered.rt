//! The law of prefixes: each image that a crash may leave holds what one current commit keeps of the life.

mod crashed;
mod holds;
mod points;
mod prefix;
mod shows;
mod uses;

pub use crashed::{law_crash_keeps_first, law_life_after_crash};
pub use holds::{law_images_hold, law_named_hold};
pub use points::law_points_keep;
pub use prefix::{law_forgotten, law_images_recovered, law_prefix};
pub use shows::{
    law_images_show_life, law_log_in_order, law_opened_log_stands, law_scans_start_above,
};
pub use uses::{law_images_keep_checkpoint, law_images_use_checkpoints};
