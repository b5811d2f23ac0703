// Roots by trying every number, to compare with.
use refusals::Refusal;
use ring::Field;
use roots::plan::Plan;
use std::process::Abort;

// The least and the greatest number whose square is the mark.
fn squares_to<F: Field>(field: &F, mark: u64) -> Option<(u64, u64)> {
    let mut roots = (0..field.size()).filter(|x| field.product(*x, *x) == mark);
    let least = roots.next()?;
    Some((least, roots.last().unwrap_or(least)))
}

// Every mark but 0 is rooted to what brute force finds, and refused as no square where that finds nothing.
pub(crate) fn agrees<F: Field>(rt: &impl Abort, plan: &Plan<F>) {
    for mark in 1..plan.field().size() {
        let answer = plan.root(mark).map(|(roots, _)| roots);
        let expected = squares_to(plan.field(), mark).ok_or(Refusal::NoSquare);
        assert_eq!(rt; answer, expected, "{}", mark);
    }
}
