// The house table: each row is at hand, is accepted and leaves the rest 1, and every mark of every row is rooted.
use crate::brute::agrees;
use fields::Residues;
use refusals::Refusal;
use roots::draft::Draft;
use roots::house::{Row, house_row};
use roots::plan::Plan;
use std::test::Fail;

// modulus, fourth root, and a factor r with its power f and ζ; a row without a factor has 0 there; plain rows, as the table has
const HOUSE: [(u64, u64, u64, u16, u64); 7] = [
    (17, 4, 0, 0, 0),
    (41, 9, 5, 1, 16),
    (73, 27, 3, 2, 8),
    (89, 34, 11, 1, 2),
    (97, 22, 3, 1, 35),
    (113, 15, 7, 1, 16),
    (257, 16, 0, 0, 0),
];

fn planned(row: Row) -> Result<Plan<Residues>, Refusal> {
    let mut draft = Draft::start(Residues::new(row.modulus)?);
    if row.r > 0 {
        draft.adopt(row.r, row.f, row.zeta)?;
    }
    draft.give(row.fourth)?;
    Ok(draft.close())
}

#[test]
fn house_rows_root_every_mark(rt: HostRuntime) -> Result<(), Fail> {
    for (modulus, fourth, r, f, zeta) in HOUSE {
        let row = Row {
            modulus,
            fourth,
            r,
            f,
            zeta,
        };
        assert_eq!(rt; house_row(modulus), Some(row));
        let plan = planned(row)?;
        assert_eq!(rt; plan.rest(), 1);
        agrees(&rt, &plan);
    }
    assert_eq!(rt; house_row(65), None);
    Ok(())
}
