//! Of each life of a store that was opened: it begins as the laws of phases, versions and points ask. So commits' numbers are in turn, views have their floor,
//! and one commit always stands.
ghost use Rattle.law_order.specs.Said as said;

use crate::rules::{law_cuts_open, law_life_begins};
use fkv_disk::Device;
use law_commit::{law_begun, law_floor_stands, law_views_see_tails};
use law_opening::{law_opened_commit_stands, law_told_opens};

/// An opened store opens at rest: its phase word says rest of the version behind its newest commit's number, and each session has seen that version. In each of
/// its lives, with commits, crashes and failing calls of the device, each commit that begins has the number behind the newest finished one's. So
/// `law_world_one_commit_stands` speaks of each, if the opened bytes end behind slots and triples.
pub fn law_phases_open()
    ensures rests { said.OpensItsStoreAtRest }
    ensures in_turn { said.NumbersItsCommitsInTurn }
    ensures told { said.TellsOfItsLife }
{
    law_life_begins();
    law_begun();
    law_told_opens();
}

/// In each life of an opened store, with commits, crashes and failing calls of the device, the view of each live session has its floor. So what a live session
/// has seen of the phases stays near the phase word. From in-progress on it has seen a tail at or above the first address of the commit in hand. As the
/// commit is written it has seen one at or above its end. So no two live sessions go by phases that exclude each other. The safe read-only offset is at or
/// below the tail that each live session has seen with its phase. It is at or below the tail of a view that is coming, too.
pub fn law_floor_opens()
    ensures floor { said.HasFloorInItsLife }
    ensures near { said.KeepsItsViewsNear }
    ensures safe { said.KeepsSafeBelowItsViews }
    ensures coming { said.KeepsSafeBelowItsComing }
{
    law_life_begins();
    law_floor_stands();
    law_views_see_tails();
}

/// The log of an opened store's image has no record of a later version than its phase word's, and none from its tail up. So the laws of versions hold of each
/// of its lives.
pub fn law_versions_open()
    ensures { said.OpensItsVersions }
{
    law_phases_open();
    law_life_begins();
}

/// The sessions of an opened store have seen that it rests, and its keeper seeks the points of all of them. So the laws of how a version ends hold of each of
/// its lives.
pub fn law_ends_open()
    ensures { said.OpensItsEnds }
{
    law_phases_open();
    law_life_begins();
}

/// The points of an opened store's newest commit are its sessions' serials, and its words show them. So the laws of the points that commits take hold of each of
/// its lives.
pub fn law_points_open()
    ensures { said.OpensItsPoints }
{
    law_ends_open();
    law_cuts_open();
}

/// And behind any steps of an opened store's world one commit stands in each image that a crash leaves of the device: the newest finished one, or, while
/// the next one is written, that one; with the triples of the checkpoint that the newest finished commit uses.
pub fn law_commit_always_stands<D: Device>(device: &D)
    ensures { said.OneCommitAlwaysStands D.seen D.may_leave device.now }
{
    law_phases_open();
    law_opened_commit_stands(device);
}
