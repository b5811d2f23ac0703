// Compares rooting with brute force: every mark of many small fields, with several plans each; and, over rings that are not lawful, that every
// call ends and every accepted root squares to its mark.
#![tactic(auto)]

mod plans;
mod table;

use anyhow::anyhow;
use fields::{Pairs, Residues};
use plans::{each_plan, is_prime};
use ring::{Field, Ring};
use std::fmt;
use table::Table;

// How many marks were rooted, and at how many the answer was wrong.
#[derive(Clone, Copy)]
struct Tally {
    marks: u64,
    wrong: u64,
}

impl Tally {
    const NONE: Tally = Tally { marks: 0, wrong: 0 };

    fn count(&mut self, right: bool) {
        self.marks = self.marks.saturating_add(1);
        if !right {
            self.wrong = self.wrong.saturating_add(1);
        }
    }

    fn add(&mut self, other: Tally) {
        self.marks = self.marks.saturating_add(other.marks);
        self.wrong = self.wrong.saturating_add(other.wrong);
    }
}

impl fmt::Display for Tally {
    fn fmt<W: fmt::Write>(&self, f: &mut fmt::Formatter<W>) -> fmt::Result {
        let Tally { marks, wrong } = self;
        write!(f, "{marks} marks, {wrong} wrong")
    }
}

// Every mark, 0 and one that is not below the size among them, with each plan.
fn compare_field<F: Field + Copy + Drop>(rt: &HostRuntime, field: F) -> anyhow::Result<Tally> {
    let table = Table::of(rt.alloc(), &field)?;
    let mut tally = Tally::NONE;
    each_plan(field, |plan| {
        for mark in 0..=field.size() {
            tally.count(table.agrees(mark, plan.root(mark)));
        }
    });
    Ok(tally)
}

// Over any ring: an accepted root squares to the mark.
fn try_ring<F: Field + Copy + Drop>(field: F) -> Tally {
    let squares_to = |x, mark| field.product(x, x) == mark;
    let mut tally = Tally::NONE;
    each_plan(field, |plan| {
        for mark in 0..field.size() {
            let right = match plan.root(mark) {
                Ok(((a, b), _)) => squares_to(a, mark) && squares_to(b, mark),
                Err(_) => true,
            };
            tally.count(right);
        }
    });
    tally
}

// Compares where the modulus is prime, and so the field lawful. Of the others those below 300 are tried.
fn check<F: Field + Copy + Drop>(
    rt: &HostRuntime,
    field: F,
    modulus: u64,
    lawful: &str,
    unlawful: &str,
) -> anyhow::Result<Tally> {
    if is_prime(modulus) {
        let tally = compare_field(rt, field)?;
        println!(rt; "{lawful} {modulus}: {tally}")?;
        return Ok(tally);
    }
    if modulus >= 300 {
        return Ok(Tally::NONE);
    }
    let tally = try_ring(field);
    println!(rt; "{unlawful} {modulus}: {tally}")?;
    Ok(tally)
}

fn run(rt: &HostRuntime) -> anyhow::Result<()> {
    let mut sum = Tally::NONE;
    for q in (17..1000u64).step_by(8) {
        if let Ok(field) = Residues::new(q) {
            sum.add(check(rt, field, q, "residues modulo", "not lawful, modulo")?);
        }
    }
    for p in [3, 7, 11, 15] {
        if let Ok(field) = Pairs::new(p) {
            sum.add(check(rt, field, p, "pairs modulo", "not lawful, pairs modulo")?);
        }
    }
    println!(rt; "in all: {sum}")?;
    if sum.wrong > 0 {
        return Err(anyhow!("rooting and brute force differ"));
    }
    Ok(())
}

fn main(rt: HostRuntime) -> anyhow::Result<()> {
    run(&rt)
}
