// One task from beginning to end: a field, a draft, its factors and fourth root sought, the plan closed, and marks rooted to places.
// With no argument it is the day's task, modulo 2,013,265,921; the arguments are another modulus and then marks.
#![tactic(auto)]

mod words;

use anyhow::anyhow;
use fields::{Residues, day_field, house_residues_lawful};
use refusals::Refusal;
use ring::Ring;
use roots::{Draft, HOUSE, Plan, house_row};
use words::{MARKS, Task};

// Seeks each prime up to 4,095 that divides the odd part, in its full power. What still divides the rest when its turn comes is prime.
// A refusal is printed here, ends `book`, and is passed over by `compare`: a loop for all three would be no shorter.
fn seek_factors(rt: &HostRuntime, draft: &mut Draft<Residues>) -> anyhow::Result<()> {
    for r in 3..4096u64 {
        let f = draft.full_power(r);
        if f > 0 {
            match draft.seek(r, f) {
                Ok(zeta) => {
                    let rest = draft.rest();
                    println!(rt; "factor {r} power {f}: root of unity {zeta}, rest {rest}")?;
                }
                Err(why) => println!(rt; "factor {r} power {f}: refused {}", why.number())?,
            }
        }
    }
    Ok(())
}

fn seek_fourth(rt: &HostRuntime, draft: &mut Draft<Residues>) -> anyhow::Result<()> {
    match draft.seek_fourth() {
        Ok(root) => println!(rt; "fourth root {root}")?,
        Err(why) => println!(rt; "fourth root: refused {}", why.number())?,
    }
    Ok(())
}

fn print_mark(rt: &HostRuntime, plan: &Plan<Residues>, mark: u64) -> anyhow::Result<()> {
    match plan.root(mark) {
        Ok(((place, other), (joinings, tests))) => {
            println!(rt;
                "mark {mark} place {place} other {other} joinings {joinings} tests {tests}"
            )?;
        }
        Err(Refusal::Unlawful { step, .. }) => println!(rt; "mark {mark} refused 14 step {step}")?,
        Err(why) => println!(rt; "mark {mark} refused {}", why.number())?,
    }
    Ok(())
}

// For each modulus of a diffuser the two wells of depth 2, by the plan of its row in the house table.
fn print_house(rt: &HostRuntime) -> anyhow::Result<()> {
    house_residues_lawful();
    for modulus in HOUSE.map(|row| row.modulus) {
        let (Some(row), Ok(field)) = (house_row(modulus), Residues::new(modulus)) else {
            continue;
        };
        let plan = row.draft(field).close();
        let rest = plan.rest();
        if let Ok(((well, other), _)) = plan.root(2) {
            println!(rt;
                "diffuser modulo {modulus}: rest {rest}, depth 2 in wells {well} and {other}"
            )?;
        }
    }
    Ok(())
}

fn survey(rt: &HostRuntime, field: Residues, marks: &[u64]) -> anyhow::Result<()> {
    let modulus = field.size();
    println!(rt; "field modulo {modulus}")?;
    let mut draft = Draft::start(field);
    let rest = draft.rest();
    println!(rt; "draft: rest {rest}")?;
    seek_factors(rt, &mut draft)?;
    seek_fourth(rt, &mut draft)?;
    let plan = draft.close();
    println!(rt; "plan closed")?;
    for mark in marks {
        print_mark(rt, &plan, *mark)?;
    }
    Ok(())
}

fn field_of(modulus: u64) -> anyhow::Result<Residues> {
    Residues::new(modulus).map_err(|_| anyhow!(
        "the modulus lies outside 2 to 2147483647 (refused 1)"
    ))
}

// The field of the day is known to be lawful; any other modulus is taken as it comes.
fn run(rt: &HostRuntime) -> anyhow::Result<()> {
    match Task::read(rt)? {
        None => {
            survey(rt, day_field(), &MARKS)?;
            print_house(rt)
        }
        Some(task) => survey(rt, field_of(task.modulus)?, task.marks.as_slice()),
    }
}

fn main(rt: HostRuntime) -> anyhow::Result<()> {
    run(&rt)
}
