//! A bijection of 64-bit words, and its inverse. Each low bit of the result depends on high bits of the word too.
ghost use Rattle.std.specs.Prelude.{◌≡◌};
ghost use Rattle.fkv_spread.specs.Spreading.{folded, gathered_word, spread_word};

/// An odd number with its bits well mixed: the golden ratio's part of 2^64.
const FACTOR: u64 = 11400714819323198485;
/// The number by which the factor is 1 modulo 2^64.
const INVERSE: u64 = 17428512612931826493;

/// Lays the upper half over the lower one. To do so twice changes nothing.
#[inline(always)]
fn folded(word: u64) -> u64
    ensures { result ≡ folded word }
{
    word ^ (word >> 32)
}

/// The number under which a key lies that is spread. `spread_back` is its inverse.
#[inline(always)]
pub fn spread(key: u64) -> u64
    ensures word { result ≡ spread_word key }
    ensures back { gathered_word result ≡ key }
{
    folded(folded(key).wrapping_mul(FACTOR))
}

/// The key that lies under this number where keys are spread. `spread` is its inverse.
#[inline(always)]
pub fn spread_back(word: u64) -> u64
    ensures key { result ≡ gathered_word word }
    ensures back { spread_word result ≡ word }
{
    folded(folded(word).wrapping_mul(INVERSE))
}
