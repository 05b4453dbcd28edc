//! What is given back by a pointer.

ghost use Rattle.std.specs.Prelude.{◌≡◌, true, IfOk};
ghost use Rattle.c_tree.specs.Types.{is_tagged};
ghost use Rattle.passing_nodes.specs.Steps.{written_type, IsGivenBack};

use c_tree::{ExprKind, StmtKind};
use ck_base::{NoMemory, Pos, Sequence};
use passing_nodes::{Made, Source};

/// The number of a `return` of a struct or union: it is put where the first parameter points to.
pub fn give_back(
    source: &Source<'_>,
    value: u32,
    t: u32,
    pos: Pos,
    out: &mut Made,
) -> Result<u32, NoMemory>
    requires { is_tagged (written_type source.now t) ≡ true }
    ensures { IfOk result (IsGivenBack source.now out.old out.new value t pos) }
{
    let of = source.types.number(t);
    let pointer = source.types.pointer(t);
    let place = out.behind(0, pointer, of, pos)?;
    let assigned = out.push_expr(ExprKind::Assign(place, value), of, pos)?;
    let first = out.push_stmt(StmtKind::Expr(assigned), pos)?;
    let second = out.push_stmt(StmtKind::Return(None), pos)?;
    let mut body = Vec::new(source.alloc);
    body.push(first)?;
    body.push(second)?;
    let kind = StmtKind::Block {
        vars: Sequence::from_vec(Vec::new(source.alloc)),
        body: Sequence::from_vec(body),
    };
    out.push_stmt(kind, pos)
}
