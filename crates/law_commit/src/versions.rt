//! The versions of requests, records and effects of a life, and what its sessions have seen older.
ghost use Rattle.law_commit.specs.Said as said;

/// In each life of a store that opened at rest, as each does, with commits too: each update that a session has accepted, or attempts, is of a version from
/// the one with which the life began up to the session's. That of a call in hand is of the session's own. An address of the log is taken for a record of
/// the version of the request that is attempted. So no record is of a later version than the phase word's, and none of the life itself is of an earlier one
/// than the first; also between the events of the log that one event of the life is. A record below the tail keeps its version, and none is made there any
/// more. So what a session has seen older stays older: no record below the tail of a view, by which the session goes or which is coming, is of a later version
/// than the view.
pub fn law_versions_bounded()
    ensures requests { said.HasRequestsFrom }
    ensures reserves { said.ReservesItsVersion }
    ensures between { said.ReservesFromUpto }
    ensures cells { said.HasCellsUpto }
    ensures always { said.HasCellsUptoBetween }
    ensures from_first { said.HasCellsFrom }
    ensures keeps { said.KeepsItsVersions }
    ensures older { said.SeesOlder }
{}

/// In each such life an effect is of the version at which its session has accepted the update; or at which it is to accept it, if the update of a call in hand
/// has taken effect before the call is answered. So a session's point of a version that it has left splits its effects: just those have a serial up to the point
/// that are of this version or an earlier one. It does so at each later moment too.
pub fn law_points_split()
    ensures effects { said.HasEffectsOfVersions }
    ensures points { said.HasSplittingPoints }
{}
