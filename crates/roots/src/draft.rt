// Drafts: factors and a fourth root are gathered over a field, until the draft is closed.
ghost use Rattle.std.specs.Prelude.{◌≡◌, if◌then◌else◌, nat_lt};
ghost use Rattle.roots.specs.Drafts.{answer, next, adopted, given};
ghost use Rattle.roots.specs.State.{multiplicity, start as started};

mod calls;
mod seeking;

use crate::checks::{check, has_order, is_fourth, is_served};
use crate::divide::parted;
use crate::factor::Factor;
use crate::gathered::{Gathered, Open};
use crate::holdings::Held;
use crate::plan::Plan;
use refusals::Refusal;
use ring::Field;
use std::marker::PhantomData;

// A draft gathers, until it is closed.
pub type Draft<F> = Gathered<F, Open>;

impl<F: Field> Draft<F> {
    // A new draft holds no factor and no fourth root, and its rest is the odd part of the size less one.
    pub fn start(field: F) -> Draft<F>
        ensures value { result.held ≡ started (F.Ring.meaning field).size }
        ensures field { result.field ≡ field }
    {
        let (rest, _) = parted(2, field.size() - 1);
        Gathered {
            field,
            held: Held::new(rest),
            stage: PhantomData,
        }
    }

    // How often r goes into the rest: the greatest power of it that can be taken. Of 0 and 1 none is.
    pub fn full_power(&self, r: u64) -> u16
        ensures { result ≡ (if nat_lt r 2 then 0 else multiplicity r self.now.held.rest) }
    {
        if r < 2 {
            return 0;
        }
        let (_, times) = parted(r, self.rest());
        times
    }

    // Takes the factor r with the power f and a ζ of order exactly r, and divides the rest by r^f. A refused call changes nothing.
    // r and f stay two numbers, here and in seeking: whoever calls names both, and a struct of the two would be written out at each call.
    pub fn adopt(&mut self, r: u64, f: u16, zeta: u64) -> Result<u64, Refusal>
        ensures value { result ≡ answer (adopted (F.Ring.meaning self.old.field) self.old.held r f zeta) }
        ensures after { self.new.held ≡ next self.old.held (adopted (F.Ring.meaning self.old.field) self.old.held r f zeta) }
        ensures field { self.new.field ≡ self.old.field }
    {
        let left = check(&self.field, &self.held, r, f)?;
        if zeta >= self.field.size() || !has_order(&self.field, zeta, r) {
            return Err(Refusal::Root);
        }
        self.held.push(Factor { r, f, zeta }, left);
        Ok(zeta)
    }

    // Sets the fourth root, a number whose square is the negative of 1. A later one replaces it.
    // Not one function with seeking one: its clauses would say what is answered only by way of what a closure tells.
    pub fn give(&mut self, root: u64) -> Result<u64, Refusal>
        ensures value { result ≡ answer (given (F.Ring.meaning self.old.field) self.old.held root) }
        ensures after { self.new.held ≡ next self.old.held (given (F.Ring.meaning self.old.field) self.old.held root) }
        ensures field { self.new.field ≡ self.old.field }
    {
        if !is_served(self.field.size()) {
            return Err(Refusal::Size);
        }
        if root >= self.field.size() || !is_fourth(&self.field, root) {
            return Err(Refusal::Root);
        }
        self.held.set_fourth(root);
        Ok(root)
    }

    // A closed plan roots marks, and takes nothing more.
    pub fn close(self) -> Plan<F>
        ensures value { result.held ≡ self.held }
        ensures field { result.field ≡ self.field }
    {
        Gathered {
            field: self.field,
            held: self.held,
            stage: PhantomData,
        }
    }
}
