//! What the body of a function begins with (C11 6.9.1).

ghost use Rattle.std.specs.Prelude.{◌≡◌, ◌<◌, IfOk, slice_get};
ghost use Rattle.c_tree.specs.Expressions.{routine_type};
ghost use Rattle.c_tree.specs.Programs.{body_context};
ghost use Rattle.c_tree.specs.Scopes.{State};
ghost use Rattle.c_tree.specs.Terms.{numbers_from};
ghost use Rattle.c_tree.specs.Types.{given_by};
ghost use Rattle.c_expressions.specs.Nodes.{IsWhole, type_in, type_count};
ghost use Rattle.c_elaborator.specs.Items.{ContextThere, context_in};
ghost use Rattle.c_elaborator.specs.Work.{Shows};

use c_elaborator::{Context, Work};
use c_expressions::{Class, Nodes};
use ck_base::NoMemory;
use std::alloc::Global;

// What a function of a type gives, without qualifiers.
fn given_by(nodes: &Nodes<'_>, of: u32) -> u32
    requires whole { IsWhole nodes.now }
    requires there { of < type_count nodes.now }
    ensures there { result < type_count nodes.now }
    ensures is { type_in nodes.now result ≡ given_by (type_in nodes.now of) }
{
    match nodes.class(of) {
        Class::Function(gives) => nodes.bare(gives),
        Class::Void
        | Class::Int(_, _)
        | Class::Cap(_)
        | Class::Pointer(_)
        | Class::Array(_, _)
        | Class::Tagged(_)
        | Class::Const(_) => of,
    }
}

/// Where the statements of a function's body stand: in no loop and no `switch`, and `return` gives what the function
/// gives (C11 6.8.6).
pub fn context_of(work: &Work<'_>, k: u32) -> Context
    requires { IsWhole work.now.nodes }
    ensures there { ContextThere work.now result }
    ensures is { (s : State) → Shows work.now s →
        context_in work.now result ≡ body_context (routine_type (slice_get s.routines k)) }
{
    let of = work.routine_type(k);
    Context {
        gives: given_by(&work.nodes, of),
        in_loop: false,
        breakable: false,
    }
}

/// The numbers of the parameters of a function, which are the first of its variables (C11 6.9.1p9).
pub fn numbers_below(alloc: Global, count: u32) -> Result<Vec<u32>, NoMemory>
    ensures { IfOk result (λ xs. xs.items ≡ numbers_from 0 count) }
{
    let mut numbers = Vec::new(alloc);
    for k in 0..count {
        numbers.push(k)?;
    }
    Ok(numbers)
}
