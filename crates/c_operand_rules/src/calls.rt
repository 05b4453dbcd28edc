//! Calls (C11 6.5.2.2).

ghost use Rattle.std.specs.Prelude.{◌≡◌, ℕ, ◌<◌, ◌≤◌, ◌⊎◌, ◌==◌, ◌++◌, ◌∷◌, [], length, map, IfOk, OnOk};
ghost use Rattle.c_tree.specs.Types.{Ty, Pointer, Function};
ghost use Rattle.c_tree.specs.Views.{tys};
ghost use Rattle.c_tree.specs.Expressions.{arguments, many, call_of};
ghost use Rattle.c_tree.specs.Conversions.{operand_type};
ghost use Rattle.c_tree.specs.Conversions.{Operand as MeantOperand};
ghost use Rattle.c_expressions.specs.Agreement.{AreBelow};
ghost use Rattle.c_expressions.specs.Answers.{Answers};
ghost use Rattle.c_expressions.specs.Nodes.{IsWhole, IsOperand, operand_in, type_in, type_count, term_count};
ghost use Rattle.c_operand_rules.specs.Called.{AreTerms, AreThere, IsCallee};

use c_expressions::{Class, Nodes, Operand};
use ck_base::{MISFIT, NoMemory, Pos, Refusal, WRONG_ARGUMENT_COUNT};

/// What a function gives, and its parameters, by the numbers of the types.
#[derive(Drop)]
pub struct Signature {
    pub gives: u32,
    pub params: Vec<u32>,
}

/// One more number, behind the others. Fails only where memory runs out.
pub fn push(values: &mut Vec<u32>, value: u32) -> Result<(), NoMemory>
    ensures { OnOk result (values.new.items ≡ values.old.items ++ value ∷ []) }
{
    values.push(value)?;
    Ok(())
}

/// The smaller of two counts. Refuses nothing.
pub fn fewer(m: usize, n: usize) -> usize
    ensures first { result ≤ m }
    ensures second { result ≤ n }
    ensures one { (m ≤ result) ⊎ (n ≤ result) }
{
    if m < n { m } else { n }
}

#[tactic(auto, using(crate::proofs::Arguments::same_number))]
fn are_as_many(params: &[u32], xs: &[Operand]) -> bool
    ensures { (go : ℕ → Ty) (is : Operand → MeantOperand) →
        (length (map is xs.now) == many (tys (map go params.now))) ≡ result }
{
    xs.len() == params.len()
}

// The function to which a pointer points.
fn callee(nodes: &Nodes<'_>, t: u32) -> Result<Option<Signature>, NoMemory>
    requires whole { IsWhole nodes.now }
    requires there { t < type_count nodes.now }
    ensures { IfOk result (λ o. IsCallee nodes.now (type_in nodes.now t) o) }
{
    match nodes.class(t) {
        Class::Pointer(of) => function(nodes, of),
        Class::Void
        | Class::Int(_, _)
        | Class::Cap(_)
        | Class::Array(_, _)
        | Class::Tagged(_)
        | Class::Function(_)
        | Class::Const(_) => Ok(None),
    }
}

fn function(nodes: &Nodes<'_>, t: u32) -> Result<Option<Signature>, NoMemory>
    requires whole { IsWhole nodes.now }
    requires there { t < type_count nodes.now }
    ensures { IfOk result (λ o. IsCallee nodes.now (Pointer (type_in nodes.now t)) o) }
{
    match nodes.class(t) {
        Class::Function(gives) => {
            let params = nodes.params(t)?;
            Ok(Some(Signature { gives, params }))
        }
        Class::Void
        | Class::Int(_, _)
        | Class::Cap(_)
        | Class::Pointer(_)
        | Class::Array(_, _)
        | Class::Tagged(_)
        | Class::Const(_) => Ok(None),
    }
}

// Each argument as by assignment to its parameter's type, as far as there are both.
fn arguments(nodes: &mut Nodes<'_>, params: &[u32], xs: &[Operand]) -> Result<Vec<u32>, Refusal>
    requires whole { IsWhole nodes.old }
    requires params { AreBelow (type_count nodes.old) params.now }
    requires operands { AreThere (term_count nodes.old) xs.now }
    ensures { Answers nodes.old nodes.new (arguments (tys (map (type_in nodes.old) params.now))
        (map (operand_in nodes.old) xs.now)) AreTerms result }
{
    let mut values = Vec::new(nodes.alloc);
    let count = fewer(params.len(), xs.len());
    for k in 0..count {
        let value = nodes.assigned(params[k], xs[k])?;
        push(&mut values, value)?;
    }
    Ok(values)
}

/// A call of a value, each argument as by assignment to its parameter's type (C11 6.5.2.2). Refused with 133 at its
/// first byte where the value is no pointer to a function; as the first argument is that cannot be assigned so; and
/// with 136 at its first byte where there are more arguments than parameters, or fewer.
pub fn call(nodes: &mut Nodes<'_>, f: Operand, xs: &[Operand], pos: Pos) -> Result<Operand, Refusal>
    requires whole { IsWhole nodes.old }
    requires called { f.node < term_count nodes.old }
    requires operands { AreThere (term_count nodes.old) xs.now }
    ensures { Answers nodes.old nodes.new (call_of (operand_type (operand_in nodes.old f)) (operand_in nodes.old f)
        (map (operand_in nodes.old) xs.now) pos) IsOperand result }
{
    let of = nodes.of(f.node);
    match callee(nodes, of)? {
        None => Err(Refusal::Code(MISFIT, f.first)),
        Some(signature) => called(
            nodes,
            f,
            signature.gives,
            signature.params.as_slice(),
            xs,
            pos,
        ),
    }
}

fn called(
    nodes: &mut Nodes<'_>,
    f: Operand,
    gives: u32,
    params: &[u32],
    xs: &[Operand],
    pos: Pos,
) -> Result<Operand, Refusal>
    requires whole { IsWhole nodes.old }
    requires called { f.node < term_count nodes.old }
    requires gives { gives < type_count nodes.old }
    requires params { AreBelow (type_count nodes.old) params.now }
    requires operands { AreThere (term_count nodes.old) xs.now }
    ensures { Answers nodes.old nodes.new (call_of
        (Pointer (Function (type_in nodes.old gives) (tys (map (type_in nodes.old) params.now))))
        (operand_in nodes.old f) (map (operand_in nodes.old) xs.now) pos) IsOperand result }
{
    let values = arguments(nodes, params, xs)?;
    if !are_as_many(params, xs) {
        return Err(Refusal::Code(WRONG_ARGUMENT_COUNT, f.first));
    }
    let to = nodes.bare(gives);
    let node = nodes.call_node(f.node, values, to, pos)?;
    Ok(Operand {
        node,
        first: f.first,
    })
}
