//! Points of a commit.
ghost use Rattle.fkv_face.specs.Points.{ArePoints};

use fkv_base::Serial;

/// Tells the points, as many as there is room for.
pub(crate) fn tell_points(given: &[Serial], points: &mut [u64])
    ensures { ArePoints given.now points.old points.new }
{
    let count = given.len().min(points.len());
    for i in 0..count {
        points[i] = given[i].0;
    }
}
