//! Composites of types (C11 6.2.7p3). The composite of a pair of types is made of those of the pairs of their parts,
//! and each is made once, since types share parts.

ghost use Rattle.std.specs.Prelude.{◌≡◌, ℕ, ◌<◌, List, length, false, is_some, IfOk, IfSome, IfNone, OnOk};
ghost use Rattle.c_tree.specs.Types.{Void};
ghost use Rattle.c_interner.specs.Known.{type_in, IsComposite, AreComposites, NamesComposites};
ghost use Rattle.c_interner.specs.Known.{has_answer, answers_left, LastIsOpen};
ghost use Rattle.c_interner.specs.Levels.{rank, RankBelow, AreBelow};
ghost use Rattle.c_interner.specs.Numbers.{AddsTypes};

use crate::levels::{level_at, parts_of, take_last};
use crate::numbers::Numbers;
use c_tree::{CType, Typed};
use c_type_levels::composed;
use ck_base::NoMemory;
use indexmap::IndexMap;
use std::alloc::Global;

/// The composites that are known so far of types of a program.
#[derive(Drop)]
pub(crate) struct Composites {
    alloc: Global,
    /// The number of a type that is void.
    void: u32,
    known: IndexMap<(u32, u32), u32>,
}

impl Composites {
    pub(crate) fn new(alloc: Global, void: u32) -> Self
        ensures { (types : List CType) → void < length types → type_in types void ≡ Void → AreComposites types result }
    {
        Composites {
            alloc,
            void,
            known: IndexMap::new(alloc),
        }
    }

    /// The composite of two types, if it is known.
    fn look(&self, pair: (u32, u32)) -> Option<u32>
        ensures is { IfSome result (λ k. (types : List CType) → AreComposites types self.now → pair.0 < length types →
            IsComposite types pair k) }
        ensures known { is_some result ≡ has_answer self.now.known.entries pair }
    {
        if pair.0 == pair.1 {
            return Some(pair.0);
        }
        self.known.get(&pair).copied()
    }

    /// The composites of pairs of types, if they are known. The pairs of which they are not known wait.
    fn look_all(
        &self,
        pairs: &[(u32, u32)],
        waiting: &mut Vec<(u32, u32)>,
    ) -> Result<Option<Vec<u32>>, NoMemory>
        ensures known { IfOk result (λ o. IfSome o
            (λ v. (types : List CType) → AreComposites types self.now → AreBelow (length types) pairs.now →
            NamesComposites types pairs.now v.items)) }
        ensures waiting { OnOk result ((n : ℕ) → AreBelow n pairs.now → AreBelow n waiting.old.items →
            AreBelow n waiting.new.items) }
        ensures last { IfOk result (λ o. IfNone o ((void n : ℕ) → RankBelow void n pairs.now →
            LastIsOpen self.now.known.entries void n waiting.new.items)) }
    {
        let mut made = Vec::new(self.alloc);
        let mut all_known = true;
        for pair in pairs {
            match self.look(*pair) {
                Some(k) => made.push(k)?,
                None => {
                    waiting.push(*pair)?;
                    all_known = false;
                }
            }
        }
        Ok(if all_known { Some(made) } else { None })
    }

    /// The composite of two types, if those of their parts are known. The pairs of parts of which they are not known
    /// wait.
    fn make(
        &self,
        numbers: &mut Numbers,
        p: &mut Typed,
        pair: (u32, u32),
        waiting: &mut Vec<(u32, u32)>,
    ) -> Result<Option<u32>, NoMemory>
        requires known { AreComposites p.old.types self.now }
        requires first { pair.0 < length p.old.types }
        requires second { pair.1 < length p.old.types }
        requires waiting { AreBelow (length p.old.types) waiting.old.items }
        ensures adds { AddsTypes p.old p.new }
        ensures is { IfOk result (λ o. IfSome o (λ k. IsComposite p.new.types pair k)) }
        ensures same { IfOk result (λ o. IfNone o (p.new ≡ p.old)) }
        ensures waiting { OnOk result (AreBelow (length p.old.types) waiting.new.items) }
        ensures last { IfOk result (λ o. IfNone o (LastIsOpen self.now.known.entries self.now.void
            (rank self.now.void pair.0) waiting.new.items)) }
    {
        let c = level_at(self.alloc, p.types.as_slice(), self.void, pair.0)?;
        let d = level_at(self.alloc, p.types.as_slice(), self.void, pair.1)?;
        let parts = parts_of(self.alloc, &c, &d)?;
        let Some(made) = self.look_all(parts.as_slice(), waiting)? else {
            return Ok(None);
        };
        match composed(self.alloc, &c, &d, made.as_slice())? {
            None => Ok(Some(pair.0)),
            Some(t) => {
                let k = numbers.number_of(p, t)?;
                Ok(Some(k))
            }
        }
    }

    /// The composite of two types or, before it, of parts of them: the first that can be made. The pairs that want it
    /// wait.
    fn make_in(
        &self,
        numbers: &mut Numbers,
        p: &mut Typed,
        pair: (u32, u32),
        waiting: &mut Vec<(u32, u32)>,
    ) -> Result<((u32, u32), u32), NoMemory>
        requires known { AreComposites p.old.types self.now }
        requires first { pair.0 < length p.old.types }
        requires second { pair.1 < length p.old.types }
        requires waiting { AreBelow (length p.old.types) waiting.old.items }
        requires unknown { has_answer self.now.known.entries pair ≡ false }
        ensures adds { AddsTypes p.old p.new }
        ensures is { IfOk result (λ r. IsComposite p.new.types r.0 r.1) }
        ensures unknown { IfOk result (λ r. has_answer self.now.known.entries r.0 ≡ false) }
        ensures waiting { OnOk result (AreBelow (length p.old.types) waiting.new.items) }
    {
        let mut part = pair;
        'parts: loop {
            let others = waiting.len();
            waiting.push(part)?;
            match self.make(numbers, p, part, waiting)? {
                Some(k) => {
                    waiting.truncate(others);
                    return Ok((part, k));
                }
                None => part = take_last(waiting),
            }
        }
    }

    /// Keeps the composite of two types or, before it, of parts of them.
    fn settle(
        &mut self,
        numbers: &mut Numbers,
        p: &mut Typed,
        pair: (u32, u32),
        waiting: &mut Vec<(u32, u32)>,
    ) -> Result<(), NoMemory>
        requires known { AreComposites p.old.types self.old }
        requires first { pair.0 < length p.old.types }
        requires second { pair.1 < length p.old.types }
        requires waiting { AreBelow (length p.old.types) waiting.old.items }
        requires unknown { has_answer self.old.known.entries pair ≡ false }
        ensures adds { AddsTypes p.old p.new }
        ensures known { OnOk result (AreComposites p.new.types self.new) }
        ensures waiting { OnOk result (AreBelow (length p.old.types) waiting.new.items) }
        ensures more { OnOk result (answers_left self.new.known.entries < answers_left self.old.known.entries) }
    {
        let found = self.make_in(numbers, p, pair, waiting)?;
        prove!(self.known.len() < usize::MAX);
        self.known.insert(found.0, found.1)?;
        Ok(())
    }

    /// The last pair that waits and has no answer yet, or the first of all where none waits.
    fn next_open(&self, first: (u32, u32), waiting: &mut Vec<(u32, u32)>) -> (u32, u32)
        requires { has_answer self.now.known.entries first ≡ false }
        ensures unknown { has_answer self.now.known.entries result ≡ false }
        ensures below { (n : ℕ) → first.0 < n → first.1 < n → AreBelow n waiting.old.items →
            (result.0 < n) × (result.1 < n) × AreBelow n waiting.new.items }
    {
        'pairs: while let Some(pair) = waiting.pop() {
            match self.look(pair) {
                None => return pair,
                Some(_) => {}
            }
        }
        first
    }

    /// The composite of two types. Types may have been added to the program, also for want of memory.
    pub(crate) fn find(
        &mut self,
        numbers: &mut Numbers,
        p: &mut Typed,
        a: u32,
        b: u32,
    ) -> Result<u32, NoMemory>
        requires known { AreComposites p.old.types self.old }
        requires first { a < length p.old.types }
        requires second { b < length p.old.types }
        ensures adds { AddsTypes p.old p.new }
        ensures is { IfOk result (λ k. IsComposite p.new.types (a, b) k) }
    {
        let mut waiting = Vec::new(self.alloc);
        'steps: loop {
            match self.look((a, b)) {
                Some(k) => return Ok(k),
                None => {
                    let pair = self.next_open((a, b), &mut waiting);
                    self.settle(numbers, p, pair, &mut waiting)?;
                }
            }
        }
    }
}
