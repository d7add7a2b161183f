//! What an image has of the checkpoint that its commit uses.
ghost use Rattle.law_order.specs.Said as said;

use crate::{
    law_commits_fit, law_commits_in_turn, law_commits_lose_the_rest, law_cut_opens,
    law_images_hold_triples, law_images_keep_old, law_old_opens,
};

/// If an image that a crash may leave names a commit which uses the checkpoint with which the store was opened, its triples are those of then. For no commit of
/// the life has written to their area.
pub fn law_images_keep_checkpoint()
    ensures { said.OfEachLeft said.KeepsCheckpoint }
{
    law_commits_fit();
}

/// A commit of the life uses a checkpoint that the life has made, or the one with which the store was opened. In an image that names the commit the triples of
/// that checkpoint are read back. If the life has made it, they cover the chains of the log, and what is published below its first address is of no later
/// version. Else recovery meets again what it met at the opening, and the lost ranges lose just what was left out then.
pub fn law_images_use_checkpoints()
    ensures { said.OfEachNamed said.UsesItsCheckpoint }
{
    law_images_keep_old();
    law_commits_fit();
    law_commits_lose_the_rest();
    law_images_hold_triples();
    law_commits_in_turn();
    law_cut_opens();
    law_old_opens();
}
