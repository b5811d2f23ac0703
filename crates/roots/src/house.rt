// The house table: for each of seven moduli a plan that leaves the rest 1.
ghost use Rattle.std.specs.Prelude.{◌≡◌, true, IfSome};
ghost use Rattle.roots.specs.House.{house, row_of, row_calls, housed};
ghost use Rattle.roots.specs.Runs.{run};
ghost use Rattle.roots.specs.Worked.{Worked};

use crate::call::Call;
use crate::draft::Draft;
use ring::Field;

// A modulus, a fourth root of 1 modulo it, and a factor r^f with a ζ of order r; where there is no factor, r, f and ζ are 0.
// The rows are plain numbers, as the designers' table has them, and so no Option.
#[derive(Clone, Copy, PartialEq, Eq, Debug)]
pub struct Row {
    pub modulus: u64,
    pub fourth: u64,
    pub r: u64,
    pub f: u16,
    pub zeta: u64,
}

pub const HOUSE: [Row; 7] = [
    Row {
        modulus: 17,
        fourth: 4,
        r: 0,
        f: 0,
        zeta: 0,
    },
    Row {
        modulus: 41,
        fourth: 9,
        r: 5,
        f: 1,
        zeta: 16,
    },
    Row {
        modulus: 73,
        fourth: 27,
        r: 3,
        f: 2,
        zeta: 8,
    },
    Row {
        modulus: 89,
        fourth: 34,
        r: 11,
        f: 1,
        zeta: 2,
    },
    Row {
        modulus: 97,
        fourth: 22,
        r: 3,
        f: 1,
        zeta: 35,
    },
    Row {
        modulus: 113,
        fourth: 15,
        r: 7,
        f: 1,
        zeta: 16,
    },
    Row {
        modulus: 257,
        fourth: 16,
        r: 0,
        f: 0,
        zeta: 0,
    },
];

// The row of a modulus. Over the residues by it the row's calls are accepted, and leave the rest 1 and the row's fourth root.
// The marks worked by hand, most of them with plans of the table, come out as they should.
pub fn house_row(modulus: u64) -> Option<Row>
    ensures value { result ≡ row_of modulus house }
    ensures rule { IfSome result (λ row. housed row ≡ true) }
    ensures worked { Worked }
{
    row_in(&HOUSE, modulus)
}

// the first row of the modulus
fn row_in(rows: &[Row], modulus: u64) -> Option<Row>
    ensures { result ≡ row_of modulus rows.now }
{
    rows.iter().copied().find(|row| row.modulus == modulus)
}

impl Row {
    // The draft that the row's calls make over a field.
    pub fn draft<F: Field>(self, field: F) -> Draft<F>
        ensures value { result.held ≡ run (F.Ring.meaning field) (row_calls self) }
        ensures field { result.field ≡ field }
    {
        let give = Call::Give { root: self.fourth };
        if self.r == 0 {
            return Draft::replay(field, &[give]);
        }
        Draft::replay(
            field,
            &[
                Call::Adopt {
                    r: self.r,
                    f: self.f,
                    zeta: self.zeta,
                },
                give,
            ],
        )
    }
}
