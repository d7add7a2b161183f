//! Numbers of eight bytes, the lowest first.
ghost use Rattle.std.specs.Prelude.{◌≡◌, ℕ, ◌+◌, ◌*◌, ◌^◌, ◌<◌, ◌≤◌, ◌++◌, ◌↔◌, IsTrue, length, replicate, slice_index, take, drop};
ghost use Rattle.std.specs.Int.{w64, to_le_bytes};
ghost use Rattle.fkv_record.specs.Numbers.{spelled};
ghost use Rattle.fkv_record.specs.Places.{number_at};

/// The number whose eight bytes begin at a place.
pub(crate) fn number_at(bytes: &[u8], at: usize) -> u64
    requires { (at + 8) ≤ length bytes.now }
    ensures value { result ≡ number_at bytes.now at }
    ensures bytes { to_le_bytes w64 result ≡ take 8 (drop at bytes.now) }
{
    u64::from_le_bytes([
        bytes[at],
        bytes[at + 1],
        bytes[at + 2],
        bytes[at + 3],
        bytes[at + 4],
        bytes[at + 5],
        bytes[at + 6],
        bytes[at + 7],
    ])
}

/// The numbers that the bytes spell.
pub(crate) fn numbers<const N: usize>(bytes: &[u8]) -> [u64; N]
    requires { length bytes.now ≡ 8 * N }
    ensures same { bytes.now ≡ spelled result }
    ensures words { (i : ℕ) → slice_index result i < 2 ^ 64 }
{
    let mut numbers = [0; N];
    for i in 0..N {
        numbers[i] = number_at(bytes, 8 * i);
    }
    numbers
}

/// Whether no number stands in the places.
pub(crate) fn are_zero(places: &[u64]) -> bool
    ensures { IsTrue result ↔ (places.now ≡ replicate (length places.now) 0) }
{
    places.iter().all(|place| *place == 0)
}

/// Writes a number at a place.
fn put_number(bytes: &mut [u8], at: usize, number: u64)
    requires { (at + 8) ≤ length bytes.old }
    ensures { bytes.new ≡ take at bytes.old ++ to_le_bytes w64 number ++ drop (at + 8) bytes.old }
{
    bytes[at..at + 8].copy_from_slice(&number.to_le_bytes());
}

/// Writes the numbers over the bytes.
fn put_numbers(bytes: &mut [u8], numbers: &[u64])
    requires { length bytes.old ≡ 8 * length numbers.now }
    ensures { bytes.new ≡ spelled numbers.now }
{
    for (i, number) in numbers.iter().enumerate() {
        put_number(bytes, 8 * i, *number);
    }
}

/// The bytes of the numbers.
pub(crate) fn spell<const B: usize>(numbers: &[u64]) -> [u8; B]
    requires { B ≡ 8 * length numbers.now }
    ensures { result ≡ spelled numbers.now }
{
    let mut bytes = [0; B];
    put_numbers(&mut bytes, numbers);
    bytes
}
