//! The work at the beginning of a file.

ghost use Rattle.std.specs.Prelude.{◌≡◌, [], IfOk};
ghost use Rattle.c_tree.specs.Programs.{beginning};
ghost use Rattle.c_expressions.specs.Nodes.{IsWhole};
ghost use Rattle.c_elaborator.specs.Work.{Shows};

use crate::work::Work;
use c_expressions::Nodes;
use c_tree::{Tree, Typed};
use c_types::Scopes;
use ck_base::{NoMemory, Sequence};
use std::alloc::Global;

fn no_program(alloc: Global) -> Typed
    ensures { result ≡ record { types = []; globals = []; literals = []; funs = []; exprs = []; stmts = []; main = 0 } }
{
    Typed {
        types: Sequence::from_vec(Vec::new(alloc)),
        globals: Sequence::from_vec(Vec::new(alloc)),
        literals: Sequence::from_vec(Vec::new(alloc)),
        funs: Sequence::from_vec(Vec::new(alloc)),
        exprs: Sequence::from_vec(Vec::new(alloc)),
        stmts: Sequence::from_vec(Vec::new(alloc)),
        main: 0,
    }
}

impl<'a> Work<'a> {
    /// The work before the first declaration of a file.
    pub fn new(alloc: Global, file: &'a [u8], tree: &'a Tree) -> Result<Work<'a>, NoMemory>
        ensures whole { IfOk result (λ w. IsWhole w.nodes) }
        ensures shows { IfOk result (λ w. Shows w beginning) }
        ensures file { IfOk result (λ w. w.file.now ≡ file.entry.now) }
        ensures tree { IfOk result (λ w. w.tree.now ≡ tree.entry.now) }
    {
        let mut p = no_program(alloc);
        let scopes = Scopes::new(alloc, &mut p, file)?;
        let nodes = Nodes::new(alloc, p, scopes)?;
        Ok(Work {
            nodes,
            file,
            tree,
            uses: Vec::new(alloc),
            addressed: Vec::new(alloc),
            fillings: Vec::new(alloc),
            definitions: Vec::new(alloc),
            waiting: Vec::new(alloc),
            scalars: 0,
        })
    }
}
