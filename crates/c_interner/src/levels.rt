//! One level of a type with the numbers of its parts, and the parts of two types in pairs.

ghost use Rattle.std.specs.Prelude.{◌≡◌, ℕ, ◌<◌, ◌≤◌, List, [], ◌∷◌, map, ◌++◌, length, All, IfOk, OnOk};
ghost use Rattle.c_tree.specs.Types.{Ty, Void};
ghost use Rattle.c_type_levels.specs.Heads.{built, OfPart};
ghost use Rattle.c_type_levels.specs.Levels.{pairs_of, parts_of};
ghost use Rattle.c_interner.specs.Known.{type_in};
ghost use Rattle.c_interner.specs.Levels.{part_of, rank};

use c_tree::CType;
use c_type_levels::{Head, Level, head_of, params_of};
use ck_base::NoMemory;
use std::alloc::Global;

/// The number of a part of the type with a number. A part that does not stand before the type is void.
fn part_of(void: u32, k: u32, part: u32) -> u32
    ensures { result ≡ part_of void k part }
{
    if part < k { part } else { void }
}

fn with_part(head: Head, void: u32, k: u32) -> Head
    ensures is { (go : ℕ → Ty) (ps : List ℕ) →
        built head ps (λ j. go (part_of void k j)) ≡ built result (map (part_of void k) ps) go }
    ensures rank { OfPart (λ t. rank void t ≤ k) result }
{
    match head {
        Head::Void => Head::Void,
        Head::Int(kind, other) => Head::Int(kind, other),
        Head::Cap(signed) => Head::Cap(signed),
        Head::Pointer(of) => Head::Pointer(part_of(void, k, of)),
        Head::Array(of, count) => Head::Array(part_of(void, k, of), count),
        Head::Tagged(tag) => Head::Tagged(tag),
        Head::Function(gives) => Head::Function(part_of(void, k, gives)),
        Head::Const(of) => Head::Const(part_of(void, k, of)),
    }
}

/// The level of the type with a number. No type is void; `void` is the number of a type that is void.
pub(crate) fn level_at(alloc: Global, types: &[CType], void: u32, k: u32) -> Result<Level, NoMemory>
    requires { type_in types.now void ≡ Void }
    ensures is { IfOk result (λ l. type_in types.now k ≡ built l.head l.params.items (type_in types.now)) }
    ensures part { IfOk result (λ l. OfPart (λ t. rank void t ≤ k) l.head) }
    ensures params { IfOk result (λ l. All (λ t. rank void t ≤ k) l.params.items) }
{
    match types.get(k as usize) {
        None => Ok(Level {
            head: Head::Void,
            params: Vec::new(alloc),
        }),
        Some(c) => Ok(Level {
            head: with_part(head_of(c), void, k),
            params: parts(alloc, params_of(c), void, k)?,
        }),
    }
}

fn parts(alloc: Global, params: &[u32], void: u32, k: u32) -> Result<Vec<u32>, NoMemory>
    ensures { IfOk result (λ v. v.items ≡ map (part_of void k) params.now) }
{
    Ok(params.iter().map(|p| part_of(void, k, *p)).collect(alloc)?)
}

fn add_pairs(pairs: &mut Vec<(u32, u32)>, ps: &[u32], qs: &[u32]) -> Result<(), NoMemory>
    ensures { OnOk result (pairs.new.items ≡ pairs.old.items ++ pairs_of ps.now qs.now) }
{
    for k in 0..ps.len().min(qs.len()) {
        pairs.push((ps[k], qs[k]))?;
    }
    Ok(())
}

/// The parts of two types in pairs: none where the types differ in form.
pub(crate) fn parts_of(alloc: Global, c: &Level, d: &Level) -> Result<Vec<(u32, u32)>, NoMemory>
    ensures { IfOk result (λ v. v.items ≡ parts_of c.now.head c.now.params.items d.now.head d.now.params.items) }
{
    let mut pairs = Vec::new(alloc);
    match (c.head, d.head) {
        (Head::Pointer(s), Head::Pointer(t))
        | (Head::Array(s, _), Head::Array(t, _))
        | (Head::Const(s), Head::Const(t)) => pairs.push((s, t))?,
        (Head::Function(r), Head::Function(s)) => {
            pairs.push((r, s))?;
            add_pairs(&mut pairs, c.params.as_slice(), d.params.as_slice())?;
        }
        _ => {}
    }
    Ok(pairs)
}

/// Takes the last of some pairs.
pub(crate) fn take_last(pairs: &mut Vec<(u32, u32)>) -> (u32, u32)
    requires { 0 < length pairs.old.items }
    ensures { pairs.old.items ≡ pairs.new.items ++ result ∷ [] }
{
    match pairs.pop() {
        Some(pair) => pair,
        None => unreachable!(),
    }
}
