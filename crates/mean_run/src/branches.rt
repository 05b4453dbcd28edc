//! What comes behind a test (C11 6.5.13 to 6.5.15, 6.8.4, 6.8.5).
ghost use Rattle.std.specs.Prelude.{◌≡◌, OnOk, map, if◌then◌else◌};
ghost use Rattle.obj_mem.specs.Values.{value_of};
ghost use Rattle.cheri_c_sem.specs.Kinds as sem;
ghost use Rattle.cheri_c_sem.specs.Meaning.{first_of};
ghost use Rattle.mean_types.specs.Views.{kind_of};
ghost use Rattle.mean_steps.specs.Parts.{test};
ghost use Rattle.mean_run.specs.Branches.{Branched, after};
ghost use Rattle.mean_run.specs.Views.{now_of};
ghost use Rattle.mean_run.specs.Parts.{Unless_wanting};

use crate::state::State;
use ck_base::{NoMemory, Pos};
use mean_operations::{Operations, is_true};
use mean_types::Kind;
use mean_work::{Stop, Work, fault_end};
use obj_mem::Value;

/// What comes next: nothing, one part of the work or two, or the value of a truth.
#[derive(Clone, Copy)]
pub enum Next {
    Skip,
    One(Work),
    Two(Work, Work),
    Truth(bool),
}

impl State {
    fn go(&mut self, next: Next) -> Result<(), NoMemory>
        ensures { OnOk result (self.new ≡ after next self.old) }
    {
        match next {
            Next::Skip => Ok(()),
            Next::One(work) => self.push(work),
            Next::Two(first, second) => self.then(first, second),
            Next::Truth(holds) => self.give_truth(holds),
        }
    }

    fn give_truth(&mut self, holds: bool) -> Result<(), NoMemory>
        ensures { OnOk result (self.new ≡ after (Next.Truth holds) self.old) }
    {
        if holds {
            self.give(Value::Int(1))
        } else {
            self.give(Value::Int(0))
        }
    }

    /// One thing or the other.
    fn go_by(&mut self, holds: bool, first: Next, second: Next) -> Result<(), Stop>
        ensures { Unless_wanting result (self.new ≡ after (if holds then first else second) self.old) }
    {
        if holds {
            Ok(self.go(first)?)
        } else {
            Ok(self.go(second)?)
        }
    }

    /// One thing or the other, by the truth of the value on top, which goes.
    pub fn by_truth<B: Operations>(
        &mut self,
        m: &B,
        kind: Kind,
        pos: Pos,
        first: Next,
        second: Next,
    ) -> Result<(), Stop>
        ensures { (k : sem.Kind) → kind_of kind ≡ k → Branched (test (B.meaning m.now) pos k
            (first_of (map value_of self.old.values)) (now_of self.old (B.held m.now)))
            (now_of self.old (B.held m.now)) first second self.old self.new result }
    {
        let v = self.take();
        match is_true(m, kind, v) {
            Err(f) => Err(Stop::Ended(fault_end(f, pos))),
            Ok(holds) => self.go_by(holds, first, second),
        }
    }
}
