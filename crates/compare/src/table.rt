// The square roots of every number of a small ring, by trying them all.
use refusals::Refusal;
use ring::Ring;
use roots::Answer;
use std::alloc::{AllocError, Global};

// For each code the least and the greatest number above 0 that square to it.
#[derive(Drop)]
pub(crate) struct Table {
    roots: Vec<Option<(u64, u64)>>,
}

impl Table {
    pub(crate) fn of<R: Ring>(heap: Global, ring: &R) -> Result<Table, AllocError> {
        let size = ring.size();
        let mut roots = vec![in heap; None; size as usize]?;
        for x in 1..size {
            if let Some(found) = roots.get_mut(ring.product(x, x) as usize) {
                let least = found.map_or(x, |(least, _)| least);
                *found = Some((least, x));
            }
        }
        Ok(Table { roots })
    }

    // The two roots that rooting a mark over a lawful field should find, or its refusal.
    fn roots_of(&self, mark: u64) -> Result<(u64, u64), Refusal> {
        match self.roots.get(mark as usize) {
            None => Err(Refusal::Mark),
            Some(_) if mark == 0 => Err(Refusal::Zero),
            Some(found) => found.ok_or(Refusal::NoSquare),
        }
    }

    // Whether rooting a mark over a lawful field answered as it should.
    pub(crate) fn agrees(&self, mark: u64, answer: Result<Answer, Refusal>) -> bool {
        match answer {
            Ok(((a, b), _)) => a < b && self.roots_of(mark) == Ok((a, b)),
            Err(why) => self.roots_of(mark) == Err(why),
        }
    }
}
