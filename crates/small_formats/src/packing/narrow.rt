//! Codes with few bits.

ghost use Rattle.std.specs.Prelude.{◌≡◌, ◌^◌, ◌<◌, ◌≤◌, true, false, All, Any};

/// Whether each code has only that many bits.
pub fn are_narrow(bits: u32, codes: &[u8]) -> bool
    requires { bits ≤ 8 }
    ensures yes { result ≡ true → All (λ code. code < 2 ^ bits) codes.now }
    ensures no { result ≡ false → Any (λ code. 2 ^ bits ≤ code) codes.now }
{
    for index in 0..codes.len() {
        if u32::from(codes[index]) >= 1 << bits {
            return false;
        }
    }
    true
}
