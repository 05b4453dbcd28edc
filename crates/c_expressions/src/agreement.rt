//! Equal and compatible types (C11 6.2.7).

ghost use Rattle.std.specs.Prelude.{◌≡◌, ℕ, ◌<◌, map, IfOk};
ghost use Rattle.c_tree.specs.Types.{Ty, Tys, Function, agree, same, compatible, compatible_bare, composite};
ghost use Rattle.c_tree.specs.Views.{tys};
ghost use Rattle.c_interner.specs.Agreement.{lengths_of};
ghost use Rattle.c_expressions.specs.Agreement.{AreBelow};
ghost use Rattle.c_expressions.specs.Nodes.{IsWhole, HasType, Sees, Tells, type_in, type_count};

use crate::nodes::Nodes;
use c_interner::{Lengths, agree};
use c_node_facts::params_of;
use ck_base::NoMemory;

impl Nodes<'_> {
    /// Whether two types agree up to the lengths of arrays.
    pub fn agree(&self, how: Lengths, s: u32, t: u32) -> Result<bool, NoMemory>
        requires whole { IsWhole self.now }
        requires first { s < type_count self.now }
        requires second { t < type_count self.now }
        ensures { IfOk result (λ b. agree (lengths_of how) (type_in self.now s) (type_in self.now t) ≡ b) }
    {
        agree(self.alloc, &self.p, how, s, t)
    }

    // Types that a type names.
    fn all_parts(&self, numbers: &[u32], t: u32) -> Result<Vec<u32>, NoMemory>
        requires whole { IsWhole self.now }
        requires there { t < type_count self.now }
        ensures is { IfOk result (λ ps. (seen : ℕ → Ty) → Sees self.now t seen →
            map (type_in self.now) ps.items ≡ map seen numbers.now) }
        ensures there { IfOk result (λ ps. AreBelow (type_count self.now) ps.items) }
    {
        let mut parts = Vec::new(self.alloc);
        for number in numbers {
            parts.push(self.part(*number, t))?;
        }
        Ok(parts)
    }

    /// The types of a function's parameters.
    pub fn params(&self, t: u32) -> Result<Vec<u32>, NoMemory>
        requires whole { IsWhole self.now }
        requires there { t < type_count self.now }
        ensures is { IfOk result (λ ps. (r : Ty) (qs : Tys) → type_in self.now t ≡ Function r qs →
            tys (map (type_in self.now) ps.items) ≡ qs) }
        ensures there { IfOk result (λ ps. AreBelow (type_count self.now) ps.items) }
    {
        self.all_parts(params_of(&self.p.types.as_slice()[t as usize]), t)
    }

    /// Whether they are the same type.
    pub fn same(&self, s: u32, t: u32) -> Result<bool, NoMemory>
        requires whole { IsWhole self.now }
        requires first { s < type_count self.now }
        requires second { t < type_count self.now }
        ensures { IfOk result (λ b. same (type_in self.now s) (type_in self.now t) ≡ b) }
    {
        self.agree(Lengths::Equal, s, t)
    }

    /// Whether they are compatible (C11 6.2.7).
    pub fn compatible(&self, s: u32, t: u32) -> Result<bool, NoMemory>
        requires whole { IsWhole self.now }
        requires first { s < type_count self.now }
        requires second { t < type_count self.now }
        ensures { IfOk result (λ b. compatible (type_in self.now s) (type_in self.now t) ≡ b) }
    {
        self.agree(Lengths::Compatible, s, t)
    }

    /// The composite of two compatible types (C11 6.2.7p3).
    pub fn composite(&mut self, s: u32, t: u32) -> Result<u32, NoMemory>
        requires whole { IsWhole self.old }
        requires first { s < type_count self.old }
        requires second { t < type_count self.old }
        ensures { IfOk result (λ k. HasType self.old self.new k (composite (type_in self.old s) (type_in self.old t))) }
    {
        self.scopes.composite(&mut self.p, s, t)
    }

    /// Whether they are compatible without regard to the qualifiers of the two types themselves.
    pub fn compatible_bare(&mut self, s: u32, t: u32) -> Result<bool, NoMemory>
        requires whole { IsWhole self.old }
        requires first { s < type_count self.old }
        requires second { t < type_count self.old }
        ensures { IfOk result (λ b. Tells self.old self.new
            (compatible_bare (type_in self.old s) (type_in self.old t)) b) }
    {
        let a = self.bare_elements(s)?;
        let b = self.bare_elements(t)?;
        self.compatible(a, b)
    }
}
