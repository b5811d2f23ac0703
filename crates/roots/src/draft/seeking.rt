// Seeking: the draft finds the root of one itself.
ghost use Rattle.std.specs.Prelude.{◌≡◌};
ghost use Rattle.roots.specs.Clauses.{SeekFinds, SeekFourthFinds};
ghost use Rattle.roots.specs.Drafts.{answer, next, sought, sought_fourth};

use super::Draft;
use crate::checks::{check, is_served};
use crate::factor::Factor;
use crate::seek::{seek_fourth_root, seek_order};
use refusals::Refusal;
use ring::Field;

impl<F: Field> Draft<F> {
    // Takes the factor r with the power f and the first ζ of order exactly r that a code leads to.
    // Not one function with adopting: its clauses would say what is answered only by way of what a closure tells.
    pub fn seek(&mut self, r: u64, f: u16) -> Result<u64, Refusal>
        ensures value { result ≡ answer (sought (F.Ring.meaning self.old.field) self.old.held r f) }
        ensures after { self.new.held ≡ next self.old.held (sought (F.Ring.meaning self.old.field) self.old.held r f) }
        ensures field { self.new.field ≡ self.old.field }
        ensures finds { SeekFinds (F.Ring.meaning self.old.field) self.old.held r result }
    {
        let left = check(&self.field, &self.held, r, f)?;
        let zeta = seek_order(&self.field, r).ok_or(Refusal::Unfound)?;
        self.held.push(Factor { r, f, zeta }, left);
        Ok(zeta)
    }

    // Sets the first fourth root that a code leads to.
    pub fn seek_fourth(&mut self) -> Result<u64, Refusal>
        ensures value { result ≡ answer (sought_fourth (F.Ring.meaning self.old.field) self.old.held) }
        ensures after { self.new.held ≡ next self.old.held (sought_fourth (F.Ring.meaning self.old.field) self.old.held) }
        ensures field { self.new.field ≡ self.old.field }
        ensures finds { SeekFourthFinds (F.Ring.meaning self.old.field) self.old.held result }
    {
        if !is_served(self.field.size()) {
            return Err(Refusal::Size);
        }
        let root = seek_fourth_root(&self.field).ok_or(Refusal::Unfound)?;
        self.held.set_fourth(root);
        Ok(root)
    }
}
