// Calls as values: one of them, and a whole list from the start.
ghost use Rattle.std.specs.Prelude.{◌≡◌};
ghost use Rattle.roots.specs.Drafts.{answer, next};
ghost use Rattle.roots.specs.Laws.{Kept};
ghost use Rattle.roots.specs.Runs.{step, run};

use super::Draft;
use crate::call::Call;
use refusals::Refusal;
use ring::Field;

impl<F: Field> Draft<F> {
    pub fn call(&mut self, call: Call) -> Result<u64, Refusal>
        ensures value { result ≡ answer (step (F.Ring.meaning self.old.field) self.old.held call) }
        ensures after { self.new.held ≡ next self.old.held (step (F.Ring.meaning self.old.field) self.old.held call) }
        ensures field { self.new.field ≡ self.old.field }
    {
        match call {
            Call::Adopt { r, f, zeta } => self.adopt(r, f, zeta),
            Call::Seek { r, f } => self.seek(r, f),
            Call::Give { root } => self.give(root),
            Call::SeekFourth => self.seek_fourth(),
        }
    }

    // The draft after a list of calls from the start, refused ones among them.
    pub fn replay(field: F, calls: &[Call]) -> Draft<F>
        ensures value { result.held ≡ run (F.Ring.meaning field) calls.now }
        ensures field { result.field ≡ field }
        ensures kept { Kept (F.Ring.meaning field) calls.now result.held }
    {
        let mut draft = Draft::start(field);
        for call in calls {
            let _ = draft.call(*call);
        }
        draft
    }
}
