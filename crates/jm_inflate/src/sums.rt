//! The Adler-32 of bytes.
ghost use Rattle.std.specs.Prelude.{◌≡◌, ◌<◌, ◌≤◌, ◌+◌, ◌*◌, ◌%◌, length, sum};
ghost use Rattle.jm_inflate.specs.Adler.{adler, weighted};

/// The greatest prime below 2 ^ 16.
const PRIME: u32 = 65_521;

/// After so many bytes from a remainder on, both sums still fit 32 bits.
const MOST: usize = 5_552;

/// Both sums, modulo the prime.
#[derive(Clone, Copy)]
struct Sums {
    first: u32,
    second: u32,
}

/// The sums after more bytes.
fn after(sums: Sums, part: &[u8]) -> Sums
    requires few { length part.now ≤ 5552 }
    requires first { sums.first < 65521 }
    requires second { sums.second < 65521 }
    ensures first { result.first ≡ (sums.first + sum part.now) % 65521 }
    ensures second { result.second
        ≡ (sums.second + length part.now * sums.first + weighted part.now) % 65521 }
{
    let mut first = sums.first;
    let mut second = sums.second;
    for byte in part {
        first += u32::from(*byte);
        second += first;
    }
    Sums {
        first: first % PRIME,
        second: second % PRIME,
    }
}

/// The Adler-32 of bytes (RFC 1950, 2.2).
pub fn adler(bytes: &[u8]) -> u32
    ensures { result ≡ adler bytes.now }
{
    let mut sums = Sums {
        first: 1,
        second: 0,
    };
    let mut rest = bytes;
    while !rest.is_empty() {
        let (part, others) = rest.split_at(rest.len().min(MOST));
        sums = after(sums, part);
        rest = others;
    }
    sums.second * 65_536 + sums.first
}
