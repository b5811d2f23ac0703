// Every refusal at its edges. Where two hold of a call, the one with the smaller number is answered.
use crate::case::{Ask, Case, all_run};
use fields::{Pairs, Residues};
use refusals::{Layer, Refusal};
use std::test::Fail;

// Whatever else is wrong with a call.
const NOT_SERVED: &[(Ask, Result<u64, Refusal>)] = &[
    (Ask::Adopt(2, 0, 99), Err(Refusal::Size)),
    (Ask::Seek(2, 0), Err(Refusal::Size)),
    (Ask::Give(99), Err(Refusal::Size)),
    (Ask::SeekFourth, Err(Refusal::Size)),
];

const SIZES: [Case; 5] = [
    Case {
        modulus: 2,
        asks: NOT_SERVED,
        rest: 1,
        marks: &[(0, Err(Refusal::Size))],
    },
    Case {
        modulus: 7,
        asks: NOT_SERVED,
        rest: 3,
        marks: &[(8, Err(Refusal::Size))],
    },
    Case {
        modulus: 13,
        asks: NOT_SERVED,
        rest: 3,
        marks: &[(1, Err(Refusal::Size))],
    },
    Case {
        modulus: 16,
        asks: NOT_SERVED,
        rest: 15,
        marks: &[(1, Err(Refusal::Size))],
    },
    Case {
        modulus: 25,
        asks: &[
            (Ask::Adopt(2, 0, 99), Err(Refusal::Base)),
            (Ask::Give(18), Ok(18)),
        ],
        rest: 3,
        marks: &[(0, Err(Refusal::Zero))],
    },
];

// Eight factors, and a ninth.
const FULL: Case = Case {
    modulus: 892371481,
    asks: &[
        (Ask::Seek(3, 1), Ok(312174014)),
        (Ask::Seek(5, 1), Ok(807950119)),
        (Ask::Seek(7, 1), Ok(789086788)),
        (Ask::Seek(11, 1), Ok(520341109)),
        (Ask::Seek(13, 1), Ok(420879082)),
        (Ask::Seek(17, 1), Ok(361100867)),
        (Ask::Seek(19, 1), Ok(720037951)),
        (Ask::Seek(23, 1), Ok(804595000)),
        (Ask::Adopt(2, 0, 0), Err(Refusal::Full)),
        (Ask::Seek(29, 1), Err(Refusal::Full)),
        (Ask::SeekFourth, Ok(17808798)),
    ],
    rest: 1,
    marks: &[
        (4, Ok(((2, 892371479), (156, 2)))),
        (2, Ok(((18202238, 874169243), (115, 1)))),
    ],
};

const BASES: [Case; 2] = [
    // 32,776 is 8 × 4,097
    Case {
        modulus: 32777,
        asks: &[
            (Ask::Adopt(0, 1, 1), Err(Refusal::Base)),
            (Ask::Adopt(1, 1, 1), Err(Refusal::Base)),
            (Ask::Adopt(2, 0, 1), Err(Refusal::Base)),
            (Ask::Seek(4094, 0), Err(Refusal::Base)),
            (Ask::Seek(4096, 1), Err(Refusal::Base)),
            (Ask::Seek(4097, 1), Err(Refusal::Base)),
            (Ask::Seek(4294967299, 1), Err(Refusal::Base)),
            (Ask::Seek(4095, 1), Err(Refusal::Power)),
            (Ask::Adopt(3, 1, 1), Err(Refusal::Power)),
        ],
        rest: 4097,
        marks: &[],
    },
    // 65,520 is 16 × 4,095
    Case {
        modulus: 65521,
        asks: &[
            (Ask::Seek(4095, 1), Ok(30506)),
            (Ask::SeekFourth, Ok(24297)),
        ],
        rest: 1,
        marks: &[
            (2, Ok(((362, 65159), (75, 40)))),
            (5, Ok(((12017, 53504), (74, 587)))),
        ],
    },
];

const POWERS_AND_DIVISORS: [Case; 2] = [
    Case {
        modulus: 73,
        asks: &[
            (Ask::Adopt(3, 0, 8), Err(Refusal::Power)),
            (Ask::Adopt(3, 3, 8), Err(Refusal::Power)),
            (Ask::Adopt(3, 65535, 8), Err(Refusal::Power)),
            (Ask::Seek(5, 1), Err(Refusal::Power)),
            (Ask::Seek(9, 2), Err(Refusal::Power)),
            (Ask::Adopt(3, 1, 8), Ok(8)),
            (Ask::Adopt(3, 2, 8), Err(Refusal::Power)),
            (Ask::Adopt(3, 1, 73), Err(Refusal::Shared)),
        ],
        rest: 3,
        marks: &[],
    },
    // 4,095 is 9 × 5 × 7 × 13
    Case {
        modulus: 65521,
        asks: &[
            (Ask::Seek(15, 1), Ok(27235)),
            (Ask::Seek(3, 1), Err(Refusal::Shared)),
            (Ask::Seek(21, 1), Err(Refusal::Shared)),
            (Ask::Seek(5, 1), Err(Refusal::Power)),
            (Ask::Seek(7, 1), Ok(5862)),
        ],
        rest: 39,
        marks: &[],
    },
];

// Modulo 73 the number 8 has order 3, and 2 has order 9; 27 and 46 square to 72.
const GIVEN_ROOTS: Case = Case {
    modulus: 73,
    asks: &[
        (Ask::Adopt(3, 1, 73), Err(Refusal::Root)),
        (Ask::Adopt(3, 1, 81), Err(Refusal::Root)),
        (Ask::Adopt(3, 1, 0), Err(Refusal::Root)),
        (Ask::Adopt(3, 1, 1), Err(Refusal::Root)),
        (Ask::Adopt(3, 1, 2), Err(Refusal::Root)),
        (Ask::Adopt(9, 1, 8), Err(Refusal::Root)),
        (Ask::Adopt(9, 1, 2), Ok(2)),
        (Ask::Give(26), Err(Refusal::Root)),
        (Ask::Give(46), Ok(46)),
        (Ask::Give(73), Err(Refusal::Root)),
        (Ask::Give(100), Err(Refusal::Root)),
        (Ask::Give(0), Err(Refusal::Root)),
        (Ask::Give(27), Ok(27)),
    ],
    rest: 1,
    marks: &[
        (36, Ok(((6, 67), (19, 4)))),
        (9, Ok(((3, 70), (19, 1)))),
        (5, Err(Refusal::NoSquare)),
    ],
};

// Modulo 25 no number has order 3, and modulo 9 none squares to 8.
const UNFOUND: [Case; 2] = [
    Case {
        modulus: 25,
        asks: &[(Ask::Seek(3, 1), Err(Refusal::Unfound))],
        rest: 3,
        marks: &[],
    },
    Case {
        modulus: 9,
        asks: &[(Ask::SeekFourth, Err(Refusal::Unfound))],
        rest: 1,
        marks: &[],
    },
];

// Pairs modulo a prime p: real numbers lead neither to a fourth root nor to a root of an order that does not go into p − 1.
// With p above 4,095 all codes that are tried are real; the first that is not has the code p.
const PAIRS: [Case; 2] = [
    Case {
        modulus: 4099,
        asks: &[
            (Ask::SeekFourth, Err(Refusal::Unfound)),
            (Ask::Seek(5, 1), Err(Refusal::Unfound)),
        ],
        rest: 2100225,
        marks: &[],
    },
    Case {
        modulus: 4091,
        asks: &[
            (Ask::SeekFourth, Ok(16732190)),
            (Ask::Seek(3, 1), Ok(6334913)),
            (Ask::Seek(11, 1), Ok(5513291)),
            (Ask::Seek(31, 1), Ok(5919705)),
            (Ask::Seek(5, 1), Ok(1436)),
        ],
        rest: 409,
        marks: &[
            (2, Ok(((1227300, 15508981), (79, 0)))),
            (3, Ok(((995, 3096), (194, 2)))),
            (16736280, Err(Refusal::NoSquare)),
            (16736281, Err(Refusal::Mark)),
        ],
    },
];

const MARKS: [Case; 4] = [
    Case {
        modulus: 32801,
        asks: &[],
        rest: 1025,
        marks: &[(40000, Err(Refusal::NoFourth))],
    },
    Case {
        modulus: 32801,
        asks: &[(Ask::SeekFourth, Ok(16074))],
        rest: 1025,
        marks: &[(40000, Err(Refusal::Rest)), (2, Err(Refusal::Rest))],
    },
    Case {
        modulus: 16369,
        asks: &[(Ask::SeekFourth, Ok(11733))],
        rest: 1023,
        marks: &[(2, Ok(((7581, 8788), (61, 0)))), (0, Err(Refusal::Zero))],
    },
    Case {
        modulus: 17,
        asks: &[(Ask::Give(4), Ok(4))],
        rest: 1,
        marks: &[
            (16, Ok(((4, 13), (6, 0)))),
            (17, Err(Refusal::Mark)),
            (18, Err(Refusal::Mark)),
            (0, Err(Refusal::Zero)),
            (3, Err(Refusal::NoSquare)),
        ],
    },
];

#[test]
fn edges_over_residues(rt: HostRuntime) -> Result<(), Fail> {
    all_run(&rt, &SIZES, Residues::new)?;
    all_run(&rt, &[FULL, GIVEN_ROOTS], Residues::new)?;
    all_run(&rt, &BASES, Residues::new)?;
    all_run(&rt, &POWERS_AND_DIVISORS, Residues::new)?;
    all_run(&rt, &UNFOUND, Residues::new)?;
    all_run(&rt, &MARKS, Residues::new)
}

#[test]
fn edges_over_pairs(rt: HostRuntime) -> Result<(), Fail> {
    all_run(&rt, &PAIRS, Pairs::new)
}

#[test]
fn moduli(rt: HostRuntime) {
    let refused = Some(Refusal::Modulus);
    for (q, answer) in [
        (0, refused),
        (1, refused),
        (2, None),
        (2147483647, None),
        (2147483648, refused),
    ] {
        assert_eq!(rt; Residues::new(q).err(), answer, "{}", q);
    }
    for (p, answer) in [
        (2, refused),
        (3, None),
        (5, refused),
        (6, refused),
        (7, None),
        (2147483647, None),
        (2147483648, refused),
        (2147483651, refused),
    ] {
        assert_eq!(rt; Pairs::new(p).err(), answer, "{}", p);
    }
}

#[test]
fn numbers(rt: HostRuntime) {
    let unlawful = Refusal::Unlawful {
        layer: Layer::Ring,
        step: 6,
        code: 0,
    };
    for (why, number) in [
        (Refusal::Modulus, 1),
        (Refusal::Size, 2),
        (Refusal::Full, 3),
        (Refusal::Base, 4),
        (Refusal::Power, 5),
        (Refusal::Shared, 6),
        (Refusal::Root, 7),
        (Refusal::Unfound, 8),
        (Refusal::NoFourth, 9),
        (Refusal::Rest, 10),
        (Refusal::Mark, 11),
        (Refusal::Zero, 12),
        (Refusal::NoSquare, 13),
        (unlawful, 14),
        (Refusal::Room, 15),
        (Refusal::Format, 16),
        (Refusal::Layout, 17),
        (Refusal::Track, 18),
        (Refusal::Line, 19),
    ] {
        assert_eq!(rt; why.number(), number);
    }
}
