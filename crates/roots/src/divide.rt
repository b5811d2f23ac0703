// Dividing one number out of another, and common divisors.
// That r is above 0 is asked as it stands and not by a NonZero: each caller would make one, of 2 or of an r that it has checked.
ghost use Rattle.std.specs.Prelude.{◌≡◌, ◌/◌, ◌^◌, ◌<◌, ◌≤◌};
ghost use Rattle.roots.specs.Checks.{parted_out as taken_out, gcd as common};
ghost use Rattle.roots.specs.State.{multiplicity, cofactor};

// n divided by r so many times in a row, where each division leaves 0 and there is one at least.
pub(crate) fn divided_out(r: u64, f: u16, n: u64) -> Option<u64>
    requires { 0 < r }
    ensures { result ≡ taken_out r f n }
{
    if f == 0 {
        return None;
    }
    (0..f).try_fold(n, |left, _| (left % r == 0).then(|| left / r))
}

// What is left of n once r is divided out as often as it goes in, and how often that is. For n above 0 and r above 1 it is below 64.
// A pair, and no struct: each caller takes it apart at once. A loop, since how often r goes in is wanted too.
pub(crate) fn parted(r: u64, n: u64) -> (u64, u16)
    requires { 0 < r }
    ensures left { result.0 ≡ cofactor r n }
    ensures times { result.1 ≡ multiplicity r n }
    ensures few { result.1 ≤ 64 }
{
    let mut left = n;
    for times in 0..64 {
        if left % r != 0 {
            return (left, times);
        }
        left /= r;
    }
    (left, 64)
}

// The greatest common divisor, by Euclid.
pub(crate) fn gcd(mut a: u64, mut b: u64) -> u64
    ensures { result ≡ common a b }
{
    while b != 0 {
        (a, b) = (b, a % b);
    }
    a
}

// n / r^f, by f divisions in a row.
pub(crate) fn by_power(n: u64, r: u64, f: u16) -> u64
    requires { 0 < r }
    ensures { result ≡ n / r ^ f }
{
    (0..f).fold(n, |left, _| left / r)
}
