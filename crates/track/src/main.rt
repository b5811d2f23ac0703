// Decimal marks on standard input, one a line, become a track on standard output.
#![tactic(auto)]

mod fault;
mod layout;
mod marks;

use fault::Fault;
use layout::track_bytes;
use marks::read_marks;
use std::env;
use std::io::Write;
use std::process::ExitCode;

fn refuse_arguments(rt: &HostRuntime) -> Result<(), Fault> {
    let mut words = env::args(rt)?;
    let _program = words.next();
    if words.next().is_some() {
        return Err(Fault::Arguments);
    }
    Ok(())
}

// Nothing is written before all marks are read, so that an error leaves standard output empty.
fn run(rt: &HostRuntime) -> Result<(), Fault> {
    refuse_arguments(rt)?;
    let marks = read_marks(rt)?;
    let bytes = track_bytes(rt.alloc(), marks.as_slice())?;
    rt.stdout().write_all(bytes.as_slice())?;
    Ok(())
}

// As in `book`; the few lines would need a crate of their own, generic over the fault, to stand once.
fn main(rt: HostRuntime) -> ExitCode {
    match run(&rt) {
        Ok(()) => ExitCode::SUCCESS,
        Err(fault) => {
            let _ = eprintln!(rt; "track: {fault}");
            ExitCode::FAILURE
        }
    }
}
