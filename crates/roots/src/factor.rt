// A factor that a draft or a plan holds: an odd r, the power f of it that is divided out of the rest, and a number ζ of order exactly r.
#[derive(Clone, Copy, PartialEq, Eq, Debug, Default)]
pub struct Factor {
    pub r: u64,
    pub f: u16,
    pub zeta: u64,
}
