//! What the manifest slot of a renewed store says.
ghost use Rattle.std.specs.Prelude.{◌≡◌, ◌<◌, ◌≤◌, ◌↔◌, ℕ, All, length, true};
ghost use Rattle.fkv_base.specs.Limits.{last_serial};
ghost use Rattle.fkv_renewing.specs.Images.{IsRenewed, IsRenewedSlot};
ghost use Rattle.fkv_renewing.specs.Room.{HasPlaces, HasSessions, point_at};

use arrayvec::ArrayVec;
use fkv_base::{Addr, Key, Serial, Shape, Value};
use fkv_newest::Newest;
use fkv_record::{Format, LostRanges, ManifestSlot, Points};

/// The point of a session, 0 where it has taken no serial.
fn point_of(points: &[Serial], session: usize) -> Serial
    requires { All (λ point. point.0 ≤ last_serial) points.now }
    ensures point { result.0 ≡ point_at points.now session }
    ensures small { result.0 ≤ last_serial }
{
    match points.get(session) {
        Some(point) => *point,
        None => Serial(0),
    }
}

/// Whether no session beyond those of the shape has taken a serial.
pub(crate) fn has_sessions(shape: Shape, points: &[Serial]) -> bool
    requires { All (λ point. point.0 ≤ last_serial) points.now }
    ensures { (result ≡ true) ↔ HasSessions shape points.now }
{
    for session in shape.sessions as usize..points.len() {
        let point = point_of(points, session);
        if point.0 != 0 {
            return false;
        }
    }
    true
}

/// A point for each session of the shape.
fn points_for(shape: Shape, points: &[Serial]) -> Points
    requires { All (λ point. point.0 ≤ last_serial) points.now }
    ensures many { length result.serials.items ≡ shape.sessions }
    ensures each { (session : ℕ) → session < shape.sessions → point_at result.serials.items session ≡ point_at points.now session }
{
    let mut serials = ArrayVec::new();
    for session in 0..shape.sessions as usize {
        serials.push(point_of(points, session));
    }
    Points { serials }
}

/// The slot of commit 1, whose log has a record for each pair.
fn renewed_slot(shape: Shape, points: &[Serial], pairs: &[(Key, Value)]) -> ManifestSlot
    requires small { All (λ point. point.0 ≤ last_serial) points.now }
    requires sessions { HasSessions shape points.now }
    ensures { IsRenewedSlot shape points.now pairs.now result }
{
    ManifestSlot {
        number: 1,
        first: Addr(1),
        end: Addr(pairs.len() as u64 + 1),
        triples: 0,
        area: 1,
        points: points_for(shape, points),
        checkpoint: 1,
        lost: LostRanges {
            ranges: ArrayVec::new(),
        },
        begin: Addr(1),
    }
}

/// What a renewed store of this shape tells of itself.
#[tactic(auto, using(crate::proofs::Suiting::suits_renewed))]
pub(crate) fn renewed_store(shape: Shape, points: &[Serial], pairs: &[(Key, Value)]) -> Newest
    requires small { All (λ point. point.0 ≤ last_serial) points.now }
    requires sessions { HasSessions shape points.now }
    requires places { HasPlaces shape pairs.now }
    ensures { IsRenewed shape points.now pairs.now result }
{
    Newest {
        shape,
        index: 1,
        format: Format::Third,
        slot: renewed_slot(shape, points, pairs),
        open_numbers: (None, Some(1)),
    }
}
