// The book of a plan over residues: the field is made, factors and the fourth root are taken, and the closed plan is written to standard output.
#![tactic(auto)]

mod fault;
mod form;
mod plans;
mod words;

use books::write_book;
use fault::{Fault, Step};
use fields::Residues;
use plans::plan_of;
use roots::Plan;
use std::io::Write;
use std::process::ExitCode;
use words::Task;

// The longest book: a head of 16 bytes, and eight factors of 12.
const ROOM: usize = 112;

fn put_book(rt: &HostRuntime, plan: &Plan<Residues>) -> Result<(), Fault> {
    // An array, and the length answered: what writes takes bytes handed over, and no heap.
    let mut out = [0u8; ROOM];
    let length = write_book(plan, &mut out).map_err(|why| Step::Book.refused(why))?;
    rt.stdout().write_all(&out[..length])?;
    Ok(())
}

// Nothing is written before the plan is closed, so that an error leaves standard output empty.
fn run(rt: &HostRuntime) -> Result<(), Fault> {
    let task = Task::read(rt)?;
    let plan = plan_of(&task)?;
    put_book(rt, &plan)
}

// As in `track`; the few lines would need a crate of their own, generic over the fault, to stand once.
fn main(rt: HostRuntime) -> ExitCode {
    match run(&rt) {
        Ok(()) => ExitCode::SUCCESS,
        Err(fault) => {
            let _ = eprintln!(rt; "book: {fault}");
            ExitCode::FAILURE
        }
    }
}
