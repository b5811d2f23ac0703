// A draft's calls with what each answers, the rest that they leave, and marks with what each is rooted to.
use refusals::Refusal;
use ring::Field;
use roots::draft::Draft;
use roots::factor::Factor;
use roots::plan::Answer;
use std::process::Abort;
use std::test::Fail;

// A call on a draft, in short: adopting takes r, f and ζ, and seeking r and f.
// No `Call`: with its named fields a row that adopts would take eight lines, and a constant can call no function that makes one.
#[derive(Clone, Copy)]
pub(crate) enum Ask {
    Adopt(u64, u16, u64),
    Seek(u64, u16),
    Give(u64),
    SeekFourth,
}

#[derive(Clone, Copy)]
pub(crate) struct Case {
    pub(crate) modulus: u64,
    pub(crate) asks: &'static [(Ask, Result<u64, Refusal>)],
    pub(crate) rest: u64,
    // the two roots, smaller code first, with the joinings and the tests
    pub(crate) marks: &'static [(u64, Result<Answer, Refusal>)],
}

fn answered<F: Field>(draft: &mut Draft<F>, ask: Ask) -> Result<u64, Refusal> {
    match ask {
        Ask::Adopt(r, f, zeta) => draft.adopt(r, f, zeta),
        Ask::Seek(r, f) => draft.seek(r, f),
        Ask::Give(root) => draft.give(root),
        Ask::SeekFourth => draft.seek_fourth(),
    }
}

// The rest, the fourth root and the factors, of which there are eight at most.
fn held<F: Field>(draft: &Draft<F>) -> (u64, Option<u64>, [Option<Factor>; 8]) {
    let mut factors = [None; 8];
    for (place, factor) in factors.iter_mut().zip(draft.factors()) {
        *place = Some(*factor);
    }
    (draft.rest(), draft.fourth(), factors)
}

// Each call answers as stated, and a refused one changes nothing; then each mark does.
fn runs<F: Field + Drop>(rt: &impl Abort, field: F, case: &Case) {
    let modulus = case.modulus;
    let mut draft = Draft::start(field);
    for (ask, answer) in case.asks {
        let before = held(&draft);
        assert_eq!(rt; answered(&mut draft, *ask), *answer, "modulo {modulus}");
        if answer.is_err() {
            assert_eq!(rt; held(&draft), before, "modulo {modulus}");
        }
    }
    let plan = draft.close();
    assert_eq!(rt; plan.rest(), case.rest, "modulo {modulus}");
    for (mark, answer) in case.marks {
        assert_eq!(rt; plan.root(*mark), *answer, "modulo {modulus}: {mark}");
    }
}

// Each case over the field of its modulus.
pub(crate) fn all_run<F: Field + Drop, M: Fn(u64) -> Result<F, Refusal>>(
    rt: &impl Abort,
    cases: &[Case],
    make: M,
) -> Result<(), Fail>
    requires { M.IsAlwaysCallable make }
{
    for case in cases {
        runs(rt, make(case.modulus)?, case);
    }
    Ok(())
}
