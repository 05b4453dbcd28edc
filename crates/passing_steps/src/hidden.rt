//! Hidden locals, and arguments that go by pointers to them.

ghost use Rattle.std.specs.Prelude.{◌≡◌, true, IfOk, OnOk};
ghost use Rattle.c_tree.specs.Types.{is_tagged};
ghost use Rattle.c_tree.specs.Passed.{hidden_for};
ghost use Rattle.passing_nodes.specs.Steps.{written_type, IsHidden, Hides, IsByAddress};

use c_tree::{ExprKind, VarDef};
use ck_base::{NoMemory, Pos};
use passing_nodes::{Made, Source, bare, by_pointer};

/// The type of a hidden local for a value of a type, if it needs one.
pub fn hidden_type(source: &Source<'_>, of: u32) -> Option<u32>
    ensures { IsHidden source.now of result }
{
    let types = source.written_types();
    if by_pointer(types, of) {
        Some(bare(types, of))
    } else {
        None
    }
}

/// A hidden local of the call at a place, for a value of a type, if it needs one.
pub fn hide(source: &Source<'_>, of: u32, pos: Pos, out: &mut Made) -> Result<(), NoMemory>
    ensures hides { OnOk result (Hides source.now out.old out.new
        (λ names. hidden_for names pos (written_type source.now of))) }
    ensures rest { OnOk result (out.new ≡ record out.old { vars = out.new.vars }) }
{
    match hidden_type(source, of) {
        None => Ok(()),
        Some(t) => {
            let of = source.types.number(t);
            out.push_var(VarDef {
                name: source.names.name(pos),
                pos,
                of,
                simple: false,
            })
        }
    }
}

/// The number of an argument that goes by a pointer: a value of a struct or union is assigned to hidden local `h`,
/// whose address it is.
pub fn by_address(
    source: &Source<'_>,
    h: u32,
    value: u32,
    t: u32,
    pos: Pos,
    out: &mut Made,
) -> Result<u32, NoMemory>
    requires { is_tagged (written_type source.now t) ≡ true }
    ensures { IfOk result (IsByAddress source.now out.old out.new h value t pos) }
{
    let of = source.types.number(t);
    let pointer = source.types.pointer(t);
    let place = out.push_expr(ExprKind::Var(h), of, pos)?;
    let assigned = out.push_expr(ExprKind::Assign(place, value), of, pos)?;
    let address = out.address(h, pointer, of, pos)?;
    out.push_expr(ExprKind::Comma(assigned, address), pointer, pos)
}
