//! The statement that a `for` is, and where the bodies of loops stand (C11 6.8.5).

ghost use Rattle.std.specs.Prelude.{◌≡◌, true};
ghost use Rattle.c_plain_rules.specs.Control.{for_of};

use c_elaborator::{Context, Items};
use c_tree::StmtKind;
use ck_base::Sequence;

/// What stands in the parentheses of a `for` (C11 6.8.5.3): its declaration or first expression, the expression that is
/// tested and the one behind each turn, by their numbers. Each may be absent.
#[derive(Drop)]
pub struct Head {
    pub items: Items,
    pub test: Option<u32>,
    pub step: Option<u32>,
}

/// The statement that a `for` is, of what stands in its parentheses and its body (C11 6.8.5.3). Refuses nothing.
pub fn for_kind(head: Head, body: u32) -> StmtKind
    ensures { result ≡ for_of head body }
{
    StmtKind::For {
        vars: Sequence::from_vec(head.items.vars),
        first: Sequence::from_vec(head.items.actions),
        test: head.test,
        step: head.step,
        body,
    }
}

/// Where the body of a loop stands: `break` and `continue` may stand there (C11 6.8.6.2, 6.8.6.3). Refuses nothing.
pub fn in_a_loop(context: Context) -> Context
    ensures { result ≡ record context { in_loop = true; breakable = true } }
{
    Context {
        gives: context.gives,
        in_loop: true,
        breakable: true,
    }
}
