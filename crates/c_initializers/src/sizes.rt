//! Sizes of types, and their completion (C11 6.7.9p22).

ghost use Rattle.std.specs.Prelude.{◌≡◌, ◌<◌, ◌≤◌, OnOk};
ghost use Rattle.c_tree.specs.Layout.{size_limit};
ghost use Rattle.c_tree.specs.Scopes.{State, size};
ghost use Rattle.c_tree.specs.Declarations.{complete_now};
ghost use Rattle.c_expressions.specs.Nodes.{IsWhole, type_in, type_count};
ghost use Rattle.c_elaborator.specs.Work.{Shows};
ghost use Rattle.c_elaborator.specs.Answers.{Answers, quietly, NothingThere, IsNothing};
ghost use Rattle.c_initializers.specs.Places.{stripped};
ghost use Rattle.c_initializers.specs.Sizes.{IsSized};

use c_elaborator::Work;
use c_expressions::Class;
use cap_layout::LayoutFault;
use ck_base::{INCOMPLETE_TYPE, Pos, Refusal, TYPE_TOO_LARGE};

/// The bytes of a type; none where it is not complete, or over the limit.
pub fn size_of(work: &Work, t: u32) -> u64
    ensures is { (s : State) → Shows work.now s → size s (type_in work.now.nodes t) ≡ result }
    ensures small { result ≤ size_limit }
{
    match work.nodes.scopes.layout(&work.nodes.p, t) {
        Ok(layout) => layout.size,
        Err(_) => 0,
    }
}

/// A type is complete once its initialiser is there (132), and within the limit (140).
pub fn complete_now(work: &Work, of: u32, pos: Pos) -> Result<(), Refusal>
    requires { IsWhole work.now.nodes }
    ensures is { Answers quietly work.now work.now
        (complete_now (type_in work.now.nodes of) pos) NothingThere IsNothing result }
    ensures sized { OnOk result (IsSized work.now of) }
{
    match work.nodes.scopes.layout(&work.nodes.p, of) {
        Ok(_) => Ok(()),
        Err(LayoutFault::Incomplete) => Err(Refusal::Code(INCOMPLETE_TYPE, pos)),
        Err(LayoutFault::TooLarge) => Err(Refusal::Code(TYPE_TOO_LARGE, pos)),
    }
}

/// A type without the words `const` before it.
pub fn stripped(work: &Work, t: u32) -> u32
    requires whole { IsWhole work.now.nodes }
    requires there { t < type_count work.now.nodes }
    ensures is { type_in work.now.nodes result ≡ stripped (type_in work.now.nodes t) }
    ensures there { result < type_count work.now.nodes }
{
    let mut at = t;
    while let Class::Const(of) = work.nodes.class(at) {
        at = of;
    }
    at
}
