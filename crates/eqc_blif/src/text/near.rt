//! The search of a line for the first of two bytes, made to be fast where that is near.
ghost use Rattle.std.specs.Prelude.{◌≡◌, ◌≤◌, length};
ghost use Rattle.std.specs.List.{position_or_len};
ghost use Rattle.eqc_blif.specs.Steps.{is_either};

use memchr::memchr2;

/// How many bytes are looked at one by one before a search of many at a time.
pub(crate) const NEAR: usize = 8;

fn is_either(byte: u8, first: u8, second: u8) -> bool
    ensures { result ≡ is_either first second byte }
{
    byte == first || byte == second
}

/// Where the first of two bytes stands, or the length, by a search of many bytes at a time.
#[inline(never)]
fn find_far<const A: u8, const B: u8>(bytes: &[u8]) -> usize
    ensures first { result ≡ position_or_len (is_either A B) bytes.now }
    ensures within { result ≤ length bytes.now }
{
    match memchr2(A, B, bytes) {
        Some(i) => i,
        None => bytes.len(),
    }
}

/// Where the first of two bytes stands, or the length. It is often near, so that the first bytes
/// are looked at one by one. The two bytes are known where this is compiled, so that each pair has
/// a search of its own.
// It is inlined without being told so; with `inline(always)` reading takes 3 % longer.
pub(crate) fn find_either<const A: u8, const B: u8>(bytes: &[u8]) -> usize
    ensures first { result ≡ position_or_len (is_either A B) bytes.now }
    ensures within { result ≤ length bytes.now }
{
    let near = bytes.len().min(NEAR);
    for i in 0..near {
        if is_either(bytes[i], A, B) {
            return i;
        }
    }
    near + find_far::<A, B>(&bytes[near..])
}
