//! The new numbers of objects and functions.

ghost use Rattle.std.specs.Prelude.{◌≡◌, slice_index_or};
ghost use Rattle.c_tree.specs.Programs.{Numbers as Renumbering};
ghost use Rattle.c_copy.specs.Copying.{AreNumbers, IsTargetWith, IsKindWith, IsRenumbered, AreRenumbered};

use c_tree::{Expr, ExprKind, Target};

/// The new numbers of objects and of functions, by the old ones.
#[derive(Debug, Drop)]
pub struct Numbers {
    pub objects: Vec<u32>,
    pub functions: Vec<u32>,
    /// How many objects and how many functions have a new number: the number of any that stands behind the lists.
    pub object_count: u32,
    pub function_count: u32,
}

// The number at a place of a list, or the one behind all.
fn number_at(list: &[u32], k: u32, behind: u32) -> u32
    ensures { result ≡ slice_index_or list.now k behind }
{
    match list.get(k as usize).copied() {
        Some(v) => v,
        None => behind,
    }
}

impl Numbers {
    fn object(&self, k: u32) -> u32
        ensures { (n : Renumbering) → AreNumbers self.now n → n.0 k ≡ result }
    {
        number_at(self.objects.as_slice(), k, self.object_count)
    }

    /// The new number of a function.
    pub fn function(&self, k: u32) -> u32
        ensures { (n : Renumbering) → AreNumbers self.now n → n.1 k ≡ result }
    {
        number_at(self.functions.as_slice(), k, self.function_count)
    }

    /// What an initial pointer points to, by its new number.
    pub fn target(&self, target: Target) -> Target
        ensures { IsTargetWith self.now target result }
    {
        match target {
            Target::Global(k) => Target::Global(self.object(k)),
            Target::Fun(k) => Target::Fun(self.function(k)),
            Target::Literal(k) => Target::Literal(k),
        }
    }

    // An object or a function by its new number.
    fn new_kind(&self, kind: &ExprKind) -> Option<ExprKind>
        ensures { IsKindWith self.now kind.now result }
    {
        match kind {
            ExprKind::Global(k) => Some(ExprKind::Global(self.object(*k))),
            ExprKind::Fun(k) => Some(ExprKind::Fun(self.function(*k))),
            _ => None,
        }
    }

    fn rename(&self, e: &mut Expr)
        ensures { IsRenumbered self.now e.old e.new }
    {
        if let Some(kind) = self.new_kind(&e.kind) {
            e.kind = kind;
        }
    }

    /// Expressions name objects and functions by the new numbers from here on. It takes no memory.
    pub fn renumber(&self, exprs: &mut Vec<Expr>)
        ensures { AreRenumbered self.now exprs.old.items exprs.new.items }
    {
        for k in 0..exprs.len() {
            self.rename(&mut exprs[k]);
        }
    }
}
