//! How the buckets of an index are laid out as squares.
ghost use Rattle.std.specs.Prelude.{◌≡◌, ◌≤◌, ◌-◌, ◌^◌};
ghost use Rattle.fkv_picture.specs.SquareLayouts.{columns_bits, size_of, square_bits};

use fkv_base::Shape;

/// How the buckets are laid out.
#[derive(Clone, Copy)]
pub(crate) struct Layout {
    pub(crate) squares: u64,
    pub(crate) buckets_a_square: u64,
    /// Squares side by side.
    pub(crate) columns: u64,
    /// How large a square is, with the gap behind it.
    pub(crate) size: u64,
    ghost few_squares: { squares ≤ 1024 },
    ghost few_buckets: { buckets_a_square ≤ 2 ^ 24 },
    ghost some_columns: { 1 ≤ columns },
    ghost small: { size ≤ 160 },
}

/// 2 to so many.
#[tactic(auto, using(crate::proofs::Powers::power_some, crate::proofs::Powers::power_few, crate::proofs::Powers::squares_few))]
fn power(bits: u64) -> u64
    requires { bits ≤ 24 }
    ensures exact { result ≡ 2 ^ bits }
    ensures some { 1 ≤ result }
    ensures few { result ≤ 2 ^ 24 }
    ensures few_squares { bits ≤ 10 → result ≤ 1024 }
{
    1 << bits
}

/// How the buckets of this shape are laid out: at most 1024 squares, four times as wide as high where they are many.
pub(crate) fn layout_of(shape: Shape) -> Layout
    ensures squares { result.squares ≡ 2 ^ square_bits shape.bucket_bits }
    ensures buckets { result.buckets_a_square ≡ 2 ^ (shape.bucket_bits - square_bits shape.bucket_bits) }
    ensures columns { result.columns ≡ 2 ^ columns_bits (square_bits shape.bucket_bits) }
    ensures size { result.size ≡ size_of result.columns }
{
    let bits = shape.bucket_bits.min(10);
    let columns = power(bits.min((bits + 3) / 2));
    Layout {
        squares: power(bits),
        buckets_a_square: power(shape.bucket_bits - bits),
        columns,
        size: (640 / columns).min(160),
    }
}
