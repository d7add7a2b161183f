//! Points as numbers.
ghost use Rattle.std.specs.Prelude.{◌≡◌, ◌∷◌, ◌≤◌, All, length, replicate, IfSome, IfNone};
ghost use Rattle.fkv_base.specs.Limits.{max_sessions, last_serial};
ghost use Rattle.fkv_words.specs.Fields.{Reads};
ghost use Rattle.fkv_record.specs.Layout.{point_numbers};
ghost use Rattle.fkv_record.specs.Points.{serial_numbers};
ghost use Rattle.fkv_record.specs.Sections.{points_in};

use crate::numbers::are_zero;
use crate::points::{MAX_POINTS, Points};
use arrayvec::ArrayVec;
use fkv_base::{MAX_SESSIONS, Serial};

/// The points that stand in so many places, if there are as many as are said, and zeros after them.
pub(crate) fn points_of(sessions: u64, places: &[u64]) -> Option<Points>
    ensures { Reads (points_in (length places.now)) (sessions ∷ places.now) result }
{
    if sessions == 0 || sessions > MAX_SESSIONS || sessions > places.len() as u64 {
        return None;
    }
    let (used, unused) = places.split_at(sessions as usize);
    if !are_zero(unused) {
        return None;
    }
    let serials = serials_of(used)?;
    Some(Points { serials })
}

/// The serials with the numbers, if all of them are serials.
fn serials_of(numbers: &[u64]) -> Option<ArrayVec<Serial, MAX_POINTS>>
    requires { length numbers.now ≤ max_sessions }
    ensures fit { IfSome result (λ serials. All (λ serial. serial.0 ≤ last_serial) serials.items) }
    ensures same { IfSome result (λ serials. serial_numbers serials.items ≡ numbers.now) }
    ensures none { IfNone result (¬ All (λ number. number ≤ last_serial) numbers.now) }
{
    let mut serials = ArrayVec::new();
    for number in numbers {
        if *number > Serial::LAST {
            return None;
        }
        serials.push(Serial(*number));
    }
    Some(serials)
}

/// Writes how many points there are, and the points, over places that are zero.
#[tactic(auto, unfolding(crate::specs::Layout::point_numbers))]
pub(crate) fn put_points(places: &mut [u64], points: &Points)
    requires { places.old ≡ replicate 58 0 }
    ensures { places.new ≡ point_numbers points.now }
{
    places[0] = points.serials.len() as u64;
    for (i, serial) in points.serials.iter().enumerate() {
        places[i + 1] = serial.0;
    }
}
