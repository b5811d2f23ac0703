// The task on the command line: a modulus and then marks.
use anyhow::anyhow;
use std::env;

// The marks of the day, modulo 2,013,265,921: those of the samples 48,000 and 5,760,000; one that goes through the factors 3 and 5, at sample
// 69,795; one that is no square; one that is not below the size.
pub(crate) const MARKS: [u64; 5] = [290734079, 990887841, 844810183, 11, 2013265921];

#[derive(Drop)]
pub(crate) struct Task {
    pub(crate) modulus: u64,
    pub(crate) marks: Vec<u64>,
}

fn number(word: &str) -> anyhow::Result<u64> {
    word.parse().map_err(|_| {
        anyhow!("an argument is not a whole number; usage: survey [MODULUS [MARK..]]")
    })
}

impl Task {
    // None where no argument was given: the day's task is meant.
    pub(crate) fn read(rt: &HostRuntime) -> anyhow::Result<Option<Task>> {
        let mut words = env::args(rt)?;
        let _program = words.next();
        let Some(first) = words.next() else {
            return Ok(None);
        };
        let modulus = number(first.as_str())?;
        let marks = words
            .map(|word| number(word.as_str()))
            .try_collect(rt.alloc())?;
        Ok(Some(Task { modulus, marks }))
    }
}
