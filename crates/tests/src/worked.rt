// Marks worked by hand.
use crate::case::{Ask, Case, all_run};
use fields::{Pairs, Residues};
use refusals::{Layer, Refusal};
use std::test::Fail;

const RESIDUES: [Case; 4] = [
    Case {
        modulus: 17,
        asks: &[(Ask::Give(4), Ok(4))],
        rest: 1,
        marks: &[
            (1, Ok(((1, 16), (3, 0)))),
            (2, Ok(((6, 11), (7, 0)))),
            (3, Err(Refusal::NoSquare)),
        ],
    },
    Case {
        modulus: 97,
        asks: &[(Ask::Adopt(3, 1, 35), Ok(35)), (Ask::Give(22), Ok(22))],
        rest: 1,
        marks: &[
            (2, Ok(((14, 83), (13, 0)))),
            (94, Ok(((26, 71), (16, 1)))),
            (5, Err(Refusal::NoSquare)),
        ],
    },
    // without its factor
    Case {
        modulus: 41,
        asks: &[(Ask::Give(9), Ok(9))],
        rest: 5,
        marks: &[(10, Ok(((16, 25), (19, 0))))],
    },
    // no field: 2 × 2 is 4, and yet 4 is refused
    Case {
        modulus: 65,
        asks: &[(Ask::Give(8), Ok(8))],
        rest: 1,
        marks: &[
            (4, Err(Refusal::NoSquare)),
            (
                14,
                Err(Refusal::Unlawful {
                    layer: Layer::Joining,
                    step: 3,
                    code: 1,
                }),
            ),
        ],
    },
];

const PAIRS: Case = Case {
    modulus: 3,
    asks: &[(Ask::Give(3), Ok(3))],
    rest: 1,
    marks: &[(2, Ok(((3, 6), (5, 0)))), (4, Err(Refusal::NoSquare))],
};

#[test]
fn marks_worked_by_hand(rt: HostRuntime) -> Result<(), Fail> {
    all_run(&rt, &RESIDUES, Residues::new)?;
    all_run(&rt, &[PAIRS], Pairs::new)
}
