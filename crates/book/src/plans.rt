// The plan that a task asks for.
use crate::fault::{Fault, Step};
use crate::words::Task;
use fields::Residues;
use roots::{Call, Draft, Plan};

fn field_of(modulus: u64) -> Result<Residues, Fault> {
    Residues::new(modulus).map_err(|why| Step::Field { modulus }.refused(why))
}

fn make(draft: &mut Draft<Residues>, call: Call) -> Result<(), Fault> {
    draft
        .call(call)
        .map_err(|why| Step::Call(call).refused(why))?;
    Ok(())
}

// Seeks each prime up to 4,095 that divides the odd part, in its full power. What still divides the rest when its turn comes is prime.
// A refusal ends it here, is printed by `survey`, and is passed over by `compare`: a loop for all three would be no shorter.
fn seek_factors(draft: &mut Draft<Residues>) -> Result<(), Fault> {
    for r in 3..4096u64 {
        if draft.rest() == 1 {
            break;
        }
        let f = draft.full_power(r);
        if f > 0 {
            make(draft, Call::Seek { r, f })?;
        }
    }
    Ok(())
}

pub(crate) fn plan_of(task: &Task) -> Result<Plan<Residues>, Fault> {
    let mut draft = Draft::start(field_of(task.modulus)?);
    match &task.factors {
        Some(calls) => {
            for call in calls {
                make(&mut draft, *call)?;
            }
        }
        None => seek_factors(&mut draft)?,
    }
    make(&mut draft, Call::SeekFourth)?;
    Ok(draft.close())
}
