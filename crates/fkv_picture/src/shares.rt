//! Sums, and how long they are drawn.
ghost use Rattle.std.specs.Prelude.{◌≡◌, ◌≤◌};
ghost use Rattle.fkv_picture.specs.Shares.{share, total};

/// The sum of the numbers; the greatest that there is, where it is above that.
pub(crate) fn total(numbers: &[u64]) -> u64
    ensures { result ≡ total numbers.now }
{
    let mut total = 0u64;
    for number in numbers {
        total = total.saturating_add(*number);
    }
    total
}

/// How long a part is drawn if the whole has this length: at least 2 where it isn't empty, so that it can be seen.
pub(crate) fn share(part: u64, whole: u64, length: u64) -> u64
    ensures exact { result ≡ share part whole length }
    ensures within { result ≤ length }
{
    if part == 0 {
        return 0;
    }
    let scaled = part.saturating_mul(length) / whole.max(1);
    scaled.max(2).min(length)
}
