//! Whether types agree (C11 6.2.7). The answer for a pair of types is made of those for the pairs of their parts, and
//! each is found once, since types share parts.

ghost use Rattle.std.specs.Prelude.{◌≡◌, ℕ, ◌<◌, length, false, is_some, IfOk, IfSome, IfNone, OnOk};
ghost use Rattle.c_tree.specs.Types.{agree};
ghost use Rattle.c_type_levels.specs.Agreement.{lengths_of};
ghost use Rattle.c_interner.specs.Known.{type_in, has_answer, answers_left, LastIsOpen, AreRight};
ghost use Rattle.c_interner.specs.Levels.{pairs_agree, rank, RankBelow};
ghost use Rattle.c_interner.specs.Numbers.{type_named};

use crate::levels::{level_at, parts_of, take_last};
use crate::numbers::next_number;
use c_tree::{CType, Typed};
use c_type_levels::{Lengths, levels_agree};
use ck_base::NoMemory;
use indexmap::IndexMap;
use std::alloc::Global;

/// What is known so far of the agreement of types of a list.
#[derive(Drop)]
struct Agreements<'t> {
    alloc: Global,
    types: &'t [CType],
    /// The number of a type that is void.
    void: u32,
    how: Lengths,
    known: IndexMap<(u32, u32), bool>,
}

impl<'t> Agreements<'t> {
    fn new(alloc: Global, types: &'t [CType], how: Lengths) -> Result<Self, NoMemory>
        ensures right { IfOk result (λ a. AreRight a) }
        ensures types { IfOk result (λ a. a.types.now ≡ types.now) }
        ensures how { IfOk result (λ a. a.how ≡ how) }
    {
        Ok(Agreements {
            alloc,
            types,
            void: next_number(types)?,
            how,
            known: IndexMap::new(alloc),
        })
    }

    /// Whether two types agree, if it is known.
    fn look(&self, pair: (u32, u32)) -> Option<bool>
        requires { AreRight self.now }
        ensures agree { IfSome result (λ r. agree (lengths_of self.now.how) (type_in self.now.types.now pair.0)
            (type_in self.now.types.now pair.1) ≡ r) }
        ensures known { is_some result ≡ has_answer self.now.known.entries pair }
    {
        if pair.0 == pair.1 {
            return Some(true);
        }
        self.known.get(&pair).copied()
    }

    /// Whether pairs of types agree, if it is known. Those of which it is not known wait.
    fn look_all(
        &self,
        pairs: &[(u32, u32)],
        waiting: &mut Vec<(u32, u32)>,
    ) -> Result<Option<bool>, NoMemory>
        requires { AreRight self.now }
        ensures agree { IfOk result (λ o. IfSome o (λ r.
            pairs_agree (lengths_of self.now.how) (type_in self.now.types.now) pairs.now ≡ r)) }
        ensures last { IfOk result (λ o. IfNone o ((void n : ℕ) → RankBelow void n pairs.now →
            LastIsOpen self.now.known.entries void n waiting.new.items)) }
    {
        let mut all_known = true;
        for pair in pairs {
            match self.look(*pair) {
                None => {
                    waiting.push(*pair)?;
                    all_known = false;
                }
                Some(false) => return Ok(Some(false)),
                Some(true) => {}
            }
        }
        Ok(if all_known { Some(true) } else { None })
    }

    /// Whether two types agree, if it is known of their parts. Those parts of which it is not known wait.
    fn judge(
        &self,
        pair: (u32, u32),
        waiting: &mut Vec<(u32, u32)>,
    ) -> Result<Option<bool>, NoMemory>
        requires { AreRight self.now }
        ensures agree { IfOk result (λ o. IfSome o (λ r.
            agree (lengths_of self.now.how) (type_in self.now.types.now pair.0)
            (type_in self.now.types.now pair.1) ≡ r)) }
        ensures last { IfOk result (λ o. IfNone o (LastIsOpen self.now.known.entries self.now.void
            (rank self.now.void pair.0) waiting.new.items)) }
    {
        let c = level_at(self.alloc, self.types, self.void, pair.0)?;
        let d = level_at(self.alloc, self.types, self.void, pair.1)?;
        if !levels_agree(self.how, &c, &d) {
            return Ok(Some(false));
        }
        let parts = parts_of(self.alloc, &c, &d)?;
        self.look_all(parts.as_slice(), waiting)
    }

    /// The answer for two types or, before it, for parts of them: the first that can be told. The pairs that want it
    /// wait.
    fn answer_in(
        &self,
        pair: (u32, u32),
        waiting: &mut Vec<(u32, u32)>,
    ) -> Result<((u32, u32), bool), NoMemory>
        requires right { AreRight self.now }
        requires unknown { has_answer self.now.known.entries pair ≡ false }
        ensures agree { IfOk result (λ r. agree (lengths_of self.now.how) (type_in self.now.types.now r.0.0)
            (type_in self.now.types.now r.0.1) ≡ r.1) }
        ensures unknown { IfOk result (λ r. has_answer self.now.known.entries r.0 ≡ false) }
    {
        let mut part = pair;
        'parts: loop {
            let others = waiting.len();
            waiting.push(part)?;
            match self.judge(part, waiting)? {
                Some(agree) => {
                    waiting.truncate(others);
                    return Ok((part, agree));
                }
                None => part = take_last(waiting),
            }
        }
    }

    /// Keeps the answer for two types or, before it, for parts of them.
    fn settle(&mut self, pair: (u32, u32), waiting: &mut Vec<(u32, u32)>) -> Result<(), NoMemory>
        requires right { AreRight self.old }
        requires unknown { has_answer self.old.known.entries pair ≡ false }
        ensures right { OnOk result (AreRight self.new) }
        ensures rest { OnOk result (self.new ≡ record self.old { known = self.new.known }) }
        ensures more { OnOk result (answers_left self.new.known.entries < answers_left self.old.known.entries) }
    {
        let found = self.answer_in(pair, waiting)?;
        prove!(self.known.len() < usize::MAX);
        self.known.insert(found.0, found.1)?;
        Ok(())
    }

    /// The last pair that waits and has no answer yet, or the first of all where none waits.
    fn next_open(&self, first: (u32, u32), waiting: &mut Vec<(u32, u32)>) -> (u32, u32)
        requires right { AreRight self.now }
        requires unknown { has_answer self.now.known.entries first ≡ false }
        ensures { has_answer self.now.known.entries result ≡ false }
    {
        'pairs: while let Some(pair) = waiting.pop() {
            match self.look(pair) {
                None => return pair,
                Some(_) => {}
            }
        }
        first
    }
}

/// Whether two types agree up to the lengths of arrays.
pub fn agree(alloc: Global, p: &Typed, how: Lengths, a: u32, b: u32) -> Result<bool, NoMemory>
    requires first { a < length p.now.types }
    requires second { b < length p.now.types }
    ensures { IfOk result (λ r. agree (lengths_of how) (type_named p.now a) (type_named p.now b) ≡ r) }
{
    let mut agreements = Agreements::new(alloc, p.types.as_slice(), how)?;
    let mut waiting = Vec::new(alloc);
    'steps: loop {
        match agreements.look((a, b)) {
            Some(agree) => return Ok(agree),
            None => {
                let pair = agreements.next_open((a, b), &mut waiting);
                agreements.settle(pair, &mut waiting)?;
            }
        }
    }
}
