//! What a crash's image holds of a run: the records that were flushed, how far it reaches, its shape, which commit it names, and
//! what that commit says. The opened bytes are supposed to reach far: they end
//! behind all that their newest slot names (`ReachesFar`). Then each image does so too.

mod copied;
mod ends;
mod fits;
mod held;
mod lengths;
mod lost;
mod named;
mod opened;
mod read;
mod records;

pub use copied::law_commits_write_their_copy;
pub use ends::law_commits_end_flushed;
pub use fits::law_commits_fit;
pub use held::law_images_hold_triples;
pub use lengths::law_images_are_long;
pub use lost::law_commits_lose_the_rest;
pub use named::law_images_name_a_begun;
pub use opened::{law_images_keep_their_shape, law_images_name_their_commit};
pub use read::law_images_read_back;
pub use records::{law_images_keep_old, law_images_show_log};
