//! The composite of two types of those of their parts (C11 6.2.7p3).

ghost use Rattle.std.specs.Prelude.{◌≡◌, ℕ, ◌++◌, length, map, drop, IfOk, IfSome, MatchOption};
ghost use Rattle.c_tree.specs.Types.{Ty, composite};
ghost use Rattle.c_tree.specs.Views.{type_from};
ghost use Rattle.c_type_levels.specs.Heads.{built, IsPlain};
ghost use Rattle.c_type_levels.specs.Levels.{parts_of, pair_composite};

use crate::heads::{Head, Level};
use c_tree::CType;
use ck_base::{NoMemory, Sequence};
use std::alloc::Global;

/// The parameters of a composite: the composites of the parameters that both types have, and those that the first has
/// beside them.
fn composed_params(alloc: Global, made: &[u32], params: &[u32]) -> Result<Sequence<u32>, NoMemory>
    ensures { IfOk result (λ v. v ≡ made.now ++ drop (length made.now) params.now) }
{
    let mut all = made.to_vec(alloc)?;
    if made.len() < params.len() {
        all.extend_from_slice(&params[made.len()..])?;
    }
    Ok(Sequence::from_vec(all))
}

/// The composite of two types, of the numbers of their parts' composites (C11 6.2.7p3). None where it is the first
/// type.
pub fn composed(
    alloc: Global,
    c: &Level,
    d: &Level,
    made: &[u32],
) -> Result<Option<CType>, NoMemory>
    ensures plain { IfOk result (λ o. IfSome o IsPlain) }
    ensures is { IfOk result (λ o. (go : ℕ → Ty) →
        map go made.now ≡ map (pair_composite go)
        (parts_of c.now.head c.now.params.items d.now.head d.now.params.items) →
        let t = composite (built c.now.head c.now.params.items go) (built d.now.head d.now.params.items go) in
        MatchOption o (t ≡ built c.now.head c.now.params.items go) (λ m. type_from m go ≡ t)) }
{
    let Some((first, others)) = made.split_first() else {
        return Ok(None);
    };
    match (c.head, d.head) {
        (Head::Pointer(_), Head::Pointer(_)) => Ok(Some(CType::Pointer(*first))),
        (Head::Array(_, m), Head::Array(_, n)) => Ok(Some(CType::Array(*first, m.max(n)))),
        (Head::Function(_), Head::Function(_)) => {
            let params = composed_params(alloc, others, c.params.as_slice())?;
            Ok(Some(CType::Function(*first, params)))
        }
        (Head::Const(_), Head::Const(_)) => Ok(Some(CType::Const(*first))),
        _ => Ok(None),
    }
}
