// The task on the command line: a modulus, and then the factors.
use crate::fault::{Fault, Misuse};
use crate::form::Form;
use roots::Call;
use std::alloc::Global;
use std::env;

#[derive(Drop)]
pub(crate) struct Task {
    pub(crate) modulus: u64,
    // the factors named, in order; where none are, every prime up to 4,095 that divides the odd part is sought in its full power
    pub(crate) factors: Option<Vec<Call>>,
}

// The place counts the words of the command line behind the program's name, from 1.
fn number(word: &str, place: u64) -> Result<u64, Misuse> {
    word.parse().map_err(|_| Misuse::NoNumber { place })
}

// The factors that the words behind the modulus name, the first of which may be the name of a form.
fn named(heap: Global, first: &str, others: env::Args) -> Result<Vec<Call>, Fault> {
    let mut numbers = Vec::new(heap);
    let form = Form::named(first);
    if form.is_none() {
        numbers.push(number(first, 2)?)?;
    }
    // A loop: the first word may be a number already.
    for (place, word) in (3u64..).zip(others) {
        numbers.push(number(word.as_str(), place)?)?;
    }
    let form = match form {
        Some(form) => form,
        None => Form::by_count(numbers.len())?,
    };
    form.calls(heap, numbers.as_slice())
}

impl Task {
    pub(crate) fn read(rt: &HostRuntime) -> Result<Task, Fault> {
        let mut words = env::args(rt)?;
        let _program = words.next();
        let modulus = words.next().ok_or(Misuse::NoModulus)?;
        let modulus = number(modulus.as_str(), 1)?;
        let factors = words
            .next()
            .map(|first| named(rt.alloc(), first.as_str(), words))
            .transpose()?;
        Ok(Task { modulus, factors })
    }
}
