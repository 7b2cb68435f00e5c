// Scaling by a fraction.
ghost use Rattle.std.specs.Prelude.{◌≡◌, ℕ, ◌≤◌, ◌*◌, ◌^◌};
ghost use Rattle.std.specs.Int.{div_ceil};

/// The least whole number that is not below `x * num / den`. `x` is at most 2^32, `num` at most
/// 65,535, and `den` is not 0.
pub fn scale(x: u64, num: u32, den: u32) -> u64
    requires small { x ≤ 2 ^ 32 }
    requires times { num ≤ 65535 }
    requires divisor { 1 ≤ den }
    ensures value { result ≡ div_ceil (x * num) den }
    ensures enough { x * num ≤ result * den }
    ensures least { (n : ℕ) → x * num ≤ n * den → result ≤ n }
{
    (x * u64::from(num)).div_ceil(u64::from(den))
}
