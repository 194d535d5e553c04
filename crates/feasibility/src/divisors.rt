// The least common multiple of two numbers, by Euclid's greatest common divisor.
ghost use Rattle.std.specs.Prelude.{◌≡◌, ℕ, ◌+◌, ◌*◌, ◌/◌, ◌%◌, ◌<◌, ◌≤◌};
ghost use Rattle.feasibility.specs.Divisors.{GreatestCommonDivisor, LeastCommonMultiple};

// The greatest common divisor.
fn gcd(mut a: u32, mut b: u32) -> u32
    requires { 0 < b }
    ensures { GreatestCommonDivisor a b result }
{
    let mut rest = a % b;
    while rest != 0 {
        a = b;
        b = rest;
        rest = a % b;
    }
    b
}

// The least positive number that both divide.
#[tactic(auto, using(crate::proofs::Euclid::least_common))]
pub(crate) fn least_common_multiple(a: u32, b: u32) -> u64
    requires { (0 < a) × (0 < b) }
    ensures { LeastCommonMultiple a b result }
{
    u64::from(a / gcd(a, b)) * u64::from(b)
}
