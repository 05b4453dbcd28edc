//! The parameters of a function that is defined, and the scope of its body (C11 6.2.1p4, 6.9.1).

ghost use Rattle.std.specs.Prelude.{All, OnOk};
ghost use Rattle.c_expressions.specs.Nodes.{IsWhole};
ghost use Rattle.c_elaborator.specs.declared.work.Work.{Work as Built};
ghost use Rattle.c_declarators.specs.Forming.{ParamIsThere};
ghost use Rattle.c_elab.specs.Functions.{AddsParameters, IsParameter, IsParameterName, Opens};

use c_declarators::{Param, Prototype};
use c_elaborator::{Name, Work};
use c_tree::VarDef;
use c_types::Scopes;
use ck_base::{NoMemory, Span};

// The name of a parameter. One without a name has an empty one at its first byte (C11 6.9.1p5).
fn name_of(p: Param) -> Name
    ensures { (w : Built) → IsParameterName w p result }
{
    match p.name {
        Some(name) => name,
        None => Name {
            span: Span {
                start: p.at.span.start,
                end: p.at.span.start,
            },
            pos: p.at.pos,
        },
    }
}

// The variable that a parameter is.
fn parameter(p: Param) -> VarDef
    ensures { (w : Built) → ParamIsThere w.nodes p → IsParameter w p result }
{
    let name = name_of(p);
    VarDef {
        name: name.span,
        pos: name.pos,
        of: p.of,
        simple: false,
    }
}

// Parameters behind the locals that there are.
fn add_parameters(scopes: &mut Scopes<'_>, params: &[Param]) -> Result<(), NoMemory>
    ensures { OnOk result (AddsParameters scopes.old scopes.new params.now) }
{
    for p in params {
        scopes.add_parameter(parameter(*p))?;
    }
    Ok(())
}

/// The parameters are the first locals of the function, and they and the outermost block of its body are in one scope.
pub(crate) fn open_body<'a>(work: &mut Work<'a>, p: Prototype<'a>) -> Result<(), NoMemory>
    requires whole { IsWhole work.old.nodes }
    requires there { All (ParamIsThere work.old.nodes) p.params.items }
    ensures { OnOk result (Opens work.old work.new p.entry) }
{
    let _ = work.nodes.scopes.take_locals();
    work.addressed.clear();
    add_parameters(&mut work.nodes.scopes, p.params.as_slice())?;
    work.nodes.scopes.reopen(p.scope)?;
    Ok(())
}
