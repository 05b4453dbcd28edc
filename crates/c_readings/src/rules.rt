//! What comes between the parts of specifiers and parameters (C11 6.7.2, 6.7.6.3).

ghost use Rattle.std.specs.Prelude.{◌≡◌, ◌++◌, ◌∷◌, [], length, map, OnOk, IfOk};
ghost use Rattle.c_tree.specs.Scopes.{give};
ghost use Rattle.c_tree.specs.Types.{int};
ghost use Rattle.c_expressions.specs.Nodes.{IsWhole};
ghost use Rattle.c_elaborator.specs.Answers.{Answers, quietly, TypeThere, IsType, NothingThere, IsNothing};
ghost use Rattle.c_elaborator.specs.Parts.{token_of};
ghost use Rattle.c_declarators.specs.Parts.{ParamThere, param_in};
ghost use Rattle.c_readings.specs.Naming.{named_record, named_enum, bound_behind};

use c_declarators::{Param, bind_parameter, named_enumeration, named_tag, tagged};
use c_elaborator::{Name, Work};
use c_tree::RecordKind;
use ck_base::{NoMemory, Refusal};

/// The type `int`.
pub fn int_type(work: &mut Work<'_>) -> Result<u32, Refusal>
    requires { IsWhole work.old.nodes }
    ensures { Answers quietly work.old work.new (give int) TypeThere IsType result }
{
    let of = work.nodes.int()?;
    Ok(of)
}

/// A struct or union by its tag alone.
pub fn named_record(
    work: &mut Work<'_>,
    kind: RecordKind,
    alone: bool,
    name: Name,
) -> Result<u32, Refusal>
    requires { IsWhole work.old.nodes }
    ensures { Answers quietly work.old work.new
        (named_record kind alone (token_of work.old name)) TypeThere IsType result }
{
    let tag = named_tag(work, alone, kind, name)?;
    Ok(tagged(work, tag))
}

/// An enumeration by its tag alone.
pub fn named_enum(work: &mut Work<'_>, name: Name) -> Result<u32, Refusal>
    requires { IsWhole work.old.nodes }
    ensures { Answers quietly work.old work.new (named_enum (token_of work.old name)) TypeThere IsType result }
{
    named_enumeration(work, name)?;
    int_type(work)
}

// The number of the next parameter.
fn next_number(params: &[Param]) -> Result<u32, NoMemory>
    ensures { IfOk result (λ k. k ≡ length params.now) }
{
    u32::try_from(params.len()).map_err(|_| NoMemory)
}

fn push(params: &mut Vec<Param>, p: Param) -> Result<(), NoMemory>
    ensures { OnOk result (params.new.items ≡ params.old.items ++ p ∷ []) }
{
    params.push(p)?;
    Ok(())
}

/// One more parameter, whose name is in force from here on.
pub fn declare_parameter(
    work: &mut Work<'_>,
    params: &mut Vec<Param>,
    p: Param,
) -> Result<(), Refusal>
    requires whole { IsWhole work.old.nodes }
    requires there { ParamThere work.old p }
    ensures answers { Answers quietly work.old work.new
        (bound_behind (map (param_in work.old) params.old.items) (param_in work.old p)) NothingThere IsNothing result }
    ensures more { OnOk result (params.new.items ≡ params.old.items ++ p ∷ []) }
{
    let k = next_number(params.as_slice())?;
    bind_parameter(work, k, p)?;
    push(params, p)?;
    Ok(())
}
