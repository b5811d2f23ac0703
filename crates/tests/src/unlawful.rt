// Rings that are no fields, and how each shows it: by the layer, the step and the code in hand.
use crate::case::{Ask, Case, all_run};
use fields::Residues;
use refusals::{Layer, Refusal};
use std::test::Fail;

const RINGS: [Case; 5] = [
    // a ladder by 2 without rank
    Case {
        modulus: 25,
        asks: &[(Ask::Give(7), Ok(7))],
        rest: 3,
        marks: &[
            (
                7,
                Err(Refusal::Unlawful {
                    layer: Layer::Joining,
                    step: 3,
                    code: 1,
                }),
            ),
            (24, Ok(((7, 18), (11, 0)))),
        ],
    },
    // what is found does not square to the mark; and a number without inverse
    Case {
        modulus: 145,
        asks: &[(Ask::Give(12), Ok(12))],
        rest: 9,
        marks: &[
            (
                28,
                Err(Refusal::Unlawful {
                    layer: Layer::Search,
                    step: 6,
                    code: 1,
                }),
            ),
            (
                57,
                Err(Refusal::Unlawful {
                    layer: Layer::Ring,
                    step: 6,
                    code: 45,
                }),
            ),
        ],
    },
    // no inverse after a match
    Case {
        modulus: 10585,
        asks: &[
            (Ask::Adopt(3, 1, 1451), Ok(1451)),
            (Ask::Adopt(7, 2, 1096), Ok(1096)),
            (Ask::Give(1433), Ok(1433)),
        ],
        rest: 9,
        marks: &[(
            82,
            Err(Refusal::Unlawful {
                layer: Layer::Ring,
                step: 6,
                code: 9125,
            }),
        )],
    },
    // a factor serves, and no j of it matches
    Case {
        modulus: 11041,
        asks: &[
            (Ask::Adopt(3, 1, 5659), Ok(5659)),
            (Ask::Give(8307), Ok(8307)),
        ],
        rest: 115,
        marks: &[(
            9715,
            Err(Refusal::Unlawful {
                layer: Layer::Search,
                step: 5,
                code: 1,
            }),
        )],
    },
    // with a second factor that one answers, and the tests of both count
    Case {
        modulus: 11041,
        asks: &[
            (Ask::Adopt(3, 1, 5659), Ok(5659)),
            (Ask::Adopt(5, 1, 4584), Ok(4584)),
            (Ask::Give(8307), Ok(8307)),
        ],
        rest: 23,
        marks: &[(9715, Ok(((2375, 8666), (70, 2))))],
    },
];

#[test]
fn rings_that_are_no_fields(rt: HostRuntime) -> Result<(), Fail> {
    all_run(&rt, &RINGS, Residues::new)
}
