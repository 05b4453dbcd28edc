//! Calls: the hidden locals of their arguments, and results that come by pointers.

ghost use Rattle.std.specs.Prelude.{◌≡◌, true, IfOk, OnOk, map};
ghost use Rattle.c_tree.specs.Types.{is_tagged};
ghost use Rattle.c_passing.specs.Lists.{hidden_for_each};
ghost use Rattle.passing_steps.specs.Steps.{written_type, Hides};
ghost use Rattle.c_passing.specs.Passes.{written_term, TermsWithin, IsByResult};

use c_tree::ExprKind;
use ck_base::{NoMemory, Pos, Sequence};
use passing_steps::{Made, Source, VOID, hide};

/// The hidden locals of the arguments of the call at a place.
pub(crate) fn hide_arguments(
    source: &Source<'_>,
    xs: &[u32],
    pos: Pos,
    out: &mut Made,
) -> Result<(), NoMemory>
    requires { TermsWithin source.now xs.now }
    ensures hides { OnOk result (Hides source.now out.old out.new
        (λ names. hidden_for_each names pos (map (written_term source.now) xs.now))) }
    ensures rest { OnOk result (out.new ≡ record out.old { vars = out.new.vars }) }
{
    for x in xs {
        let e = source.expr(*x);
        hide(source, e.of, pos, out)?;
    }
    Ok(())
}

/// A call whose result comes by a pointer: the hidden local of its result stands for it.
pub(crate) fn by_result(
    source: &Source<'_>,
    h: u32,
    called: u32,
    list: Vec<u32>,
    t: u32,
    pos: Pos,
    out: &mut Made,
) -> Result<u32, NoMemory>
    requires { is_tagged (written_type source.now t) ≡ true }
    ensures { IfOk result (IsByResult source.now out.old out.new h called list.items t pos) }
{
    let of = source.types.number(t);
    let kind = ExprKind::Call(called, Sequence::from_vec(list));
    let call = out.push_expr(kind, VOID, pos)?;
    let place = out.push_expr(ExprKind::Var(h), of, pos)?;
    out.push_expr(ExprKind::Comma(call, place), of, pos)
}
