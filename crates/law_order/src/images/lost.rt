//! What commits lose.
ghost use Rattle.law_order.specs.Images.Laws.Lost.{CommitsLoseTheRest};

use crate::images::fits::law_commits_fit;
use law_opening::law_lost_is_the_rest;

/// The lost ranges in a commit's slot lose none of the records of the life that has begun it. If the commit uses the checkpoint with which the store was opened,
/// they lose just what the opening left out: of the valid records that its scan met, those that the log doesn't have. Else its checkpoint is newer than the
/// opening's commit, and the slot names no range. It holds if the opened bytes reach far.
pub fn law_commits_lose_the_rest()
    ensures { CommitsLoseTheRest }
{
    law_lost_is_the_rest();
    law_commits_fit();
}
