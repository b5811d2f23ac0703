// The calls that change a draft, as values: a list of them can be run.
#[derive(Clone, Copy, PartialEq, Eq, Debug)]
pub enum Call {
    Adopt { r: u64, f: u16, zeta: u64 },
    Seek { r: u64, f: u16 },
    Give { root: u64 },
    SeekFourth,
}
