//! Scopes in a scope (C11 6.2.1p4).

ghost use Rattle.c_tree.specs.Scopes.{enter, leave};
ghost use Rattle.c_expressions.specs.Nodes.{IsWhole};
ghost use Rattle.c_elaborator.specs.Answers.{Answers, freely, NothingThere, IsNothing};
ghost use Rattle.c_elaborator.specs.Scoped.{Leaves};

use crate::work::Work;
use ck_base::Refusal;

/// Opens an inner scope.
pub fn enter(work: &mut Work<'_>) -> Result<(), Refusal>
    requires whole { IsWhole work.old.nodes }
    ensures { Answers freely work.old work.new enter NothingThere IsNothing result }
{
    work.nodes.scopes.enter()?;
    Ok(())
}

/// Drops the innermost scope.
pub fn leave(work: &mut Work<'_>)
    requires whole { IsWhole work.old.nodes }
    ensures { Leaves work.old work.new }
{
    work.nodes.scopes.leave();
}
