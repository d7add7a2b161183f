//! The law of prefixes.
ghost use Rattle.law_order.specs.Said as said;

use crate::recovered::holds::law_images_hold;
use crate::recovered::points::law_points_keep;
use crate::{
    law_commits_in_turn, law_durable_is_sealed, law_finished_is_told, law_history_beside,
    law_lives, law_lives_keep_rules, law_order, law_points_are_fair, law_replays_kept,
};
use law_opening::{
    law_forgotten_agree, law_lives_change_published, law_long_opens, law_maps_alike,
    law_opens_alike,
};

/// Bytes below the begin of an image's newest slot don't count. If an image holds a prefix of a life, so does each that agrees with it but there: of the same commit,
/// with the same map. So the front of a file may be given back behind a commit that is finished.
pub fn law_forgotten()
    ensures { said.ForgottenHolds }
{
    law_forgotten_agree();
    law_opens_alike();
    law_maps_alike();
    law_long_opens();
}

/// If a life began with an image that reaches far, each image that may be found behind a crash of it holds a prefix of it. The image's newest slot names a commit. It has no
/// fault and holds a store, so recovery finds that commit. It is the newest finished one, or the one that is being finished. Its points are no less than what sessions were told as durable. The store's map is
/// the one with which the life began, behind a replay of just the updates up to each session's point. The replay is legal, with the replies that were given.
pub fn law_images_recovered()
    ensures { said.InEachLife said.RecoversPrefix }
{
    law_images_hold();
    law_points_keep();
    law_durable_is_sealed();
    law_lives_keep_rules();
    law_lives_change_published();
    law_history_beside();
    law_replays_kept();
    law_forgotten();
}

/// The law of prefixes, in every life of every opened store, with commits and crashes anywhere, and over lives that follow one another. Updates take effect in one
/// legal order, which all replies tell. What a crash leaves is what one commit keeps of that order, and no finished commit is newer. Commits are told as finished
/// with their numbers and points, and points are fair and never fall. What is told as durable is kept.
pub fn law_prefix()
    ensures { said.PrefixLaw }
{
    law_order();
    law_images_recovered();
    law_finished_is_told();
    law_commits_in_turn();
    law_points_are_fair();
    law_points_keep();
    law_durable_is_sealed();
    law_lives();
}
