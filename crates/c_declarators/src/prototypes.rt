//! The scopes of parameters (C11 6.2.1p4).

ghost use Rattle.c_tree.specs.Scopes.{enter, change};
ghost use Rattle.c_tree.specs.Declarators.{bind_parameter};
ghost use Rattle.c_expressions.specs.Nodes.{IsWhole};
ghost use Rattle.c_elaborator.specs.Answers.{Answers, quietly, NothingThere, IsNothing};
ghost use Rattle.c_declarators.specs.Parts.{ParamThere, param_in, ScopeThere, ShowsScopeOf};
ghost use Rattle.c_declarators.specs.Steps.{closing};

use crate::parts::Param;
use c_elaborator::Work;
use c_types::Scope;
use ck_base::Refusal;

/// A scope for parameters is opened.
pub fn enter(work: &mut Work<'_>) -> Result<(), Refusal>
    requires { IsWhole work.old.nodes }
    ensures { Answers quietly work.old work.new enter NothingThere IsNothing result }
{
    work.nodes.scopes.enter()?;
    Ok(())
}

/// The name of a parameter, by its number, is in force from here on.
pub fn bind_parameter(work: &mut Work<'_>, k: u32, p: Param) -> Result<(), Refusal>
    requires whole { IsWhole work.old.nodes }
    requires there { ParamThere work.old p }
    ensures { Answers quietly work.old work.new
        (change (bind_parameter k (param_in work.old p))) NothingThere IsNothing result }
{
    match p.name {
        None => Ok(()),
        Some(name) => {
            work.nodes.scopes.bind_local(k, p.of, name.span)?;
            Ok(())
        }
    }
}

/// The scope of parameters is left, and what it declares is kept: nothing where no scope is in force.
pub fn close<'a>(work: &mut Work<'a>) -> Result<Scope<'a>, Refusal>
    requires { IsWhole work.old.nodes }
    ensures { Answers quietly work.old work.new closing ScopeThere ShowsScopeOf result }
{
    match work.nodes.scopes.close() {
        None => Ok(Scope::new(work.nodes.alloc)),
        Some(scope) => Ok(scope),
    }
}
