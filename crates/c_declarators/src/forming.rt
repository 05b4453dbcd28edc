//! The types that declarators make (C11 6.7.6).

ghost use Rattle.std.specs.Prelude.{◌≡◌, ℕ, ◌<◌, All, MatchOption, IfOk};
ghost use Rattle.c_tree.specs.Types.{Pointer, adjusted, in_signature};
ghost use Rattle.c_tree.specs.Scopes.{State, is_complete};
ghost use Rattle.c_tree.specs.Readings.{Point, Row};
ghost use Rattle.c_tree.specs.Views.{tys};
ghost use Rattle.c_tree.specs.Declarators.{plainly, pointer_to, over_limit, is_given, wrap_on};
ghost use Rattle.c_types.specs.Stands.{Stands};
ghost use Rattle.c_expressions.specs.declared.nodes.Nodes.{Nodes as NodeList};
ghost use Rattle.c_expressions.specs.Nodes.{IsWhole, HasType, type_in, type_count};
ghost use Rattle.c_declarators.specs.Forming.{Makes, MakesOf, formed_in, HasTypes, ParamIsThere, WrapIsThere};
ghost use Rattle.c_declarators.specs.Forming.{signature_types, gives_on, made_on, all_on};

use crate::parts::{Formed, Param, Wrap};
use c_expressions::{Class, Nodes};
use c_tree::CType;
use c_types::{Faults, either};
use cap_layout::LayoutFault;
use ck_base::{NoMemory, Sequence};

// What a parameter of this type points to, if its type is adjusted.
fn pointed(nodes: &Nodes<'_>, t: u32) -> Option<u32>
    requires whole { IsWhole nodes.now }
    requires there { t < type_count nodes.now }
    ensures { MatchOption result (adjusted (type_in nodes.now t) ≡ type_in nodes.now t)
        (λ of. adjusted (type_in nodes.now t) ≡ Pointer (type_in nodes.now of)) }
{
    match nodes.class(t) {
        Class::Array(of, _) => Some(of),
        Class::Function(_) => Some(t),
        Class::Void
        | Class::Int(_, _)
        | Class::Cap(_)
        | Class::Pointer(_)
        | Class::Tagged(_)
        | Class::Const(_) => None,
    }
}

/// A parameter of array or function type is a pointer (C11 6.7.6.3p7, p8).
pub fn adjusted(nodes: &mut Nodes<'_>, t: u32) -> Result<u32, NoMemory>
    requires whole { IsWhole nodes.old }
    requires there { t < type_count nodes.old }
    ensures { IfOk result (λ k. HasType nodes.old nodes.new k (adjusted (type_in nodes.old t))) }
{
    match pointed(nodes, t) {
        Some(of) => nodes.pointer_to(of),
        None => Ok(t),
    }
}

// The type of a parameter in the type of its function (C11 6.7.6.3p15).
fn in_signature(nodes: &mut Nodes<'_>, t: u32) -> Result<u32, NoMemory>
    requires whole { IsWhole nodes.old }
    requires there { t < type_count nodes.old }
    ensures { IfOk result (λ k. HasType nodes.old nodes.new k (in_signature (type_in nodes.old t))) }
{
    let of = adjusted(nodes, t)?;
    Ok(nodes.bare(of))
}

// The types of parameters in the type of their function.
fn signature(nodes: &mut Nodes<'_>, params: &[Param]) -> Result<Vec<u32>, NoMemory>
    requires whole { IsWhole nodes.old }
    requires there { All (ParamIsThere nodes.old) params.now }
    ensures { IfOk result (λ ks. HasTypes nodes.old nodes.new ks.items (signature_types nodes.old params.now)) }
{
    let mut types = Vec::new(nodes.alloc);
    for param in params {
        let of = in_signature(nodes, param.of)?;
        types.push(of)?;
    }
    Ok(types)
}

fn pointer(nodes: &mut Nodes<'_>, qualified: bool, t: u32) -> Result<u32, NoMemory>
    requires whole { IsWhole nodes.old }
    ensures { IfOk result (λ k. HasType nodes.old nodes.new k (pointer_to qualified (type_in nodes.old t))) }
{
    let pointer = nodes.pointer_to(t)?;
    if qualified {
        return nodes.type_number(CType::Const(pointer));
    }
    Ok(pointer)
}

fn point(nodes: &mut Nodes<'_>, qualified: bool, f: Formed) -> Result<Formed, NoMemory>
    requires whole { IsWhole nodes.old }
    ensures { IfOk result (λ g. Makes nodes.old nodes.new f g (λ s x. wrap_on s (Point qualified) x)) }
{
    let of = pointer(nodes, qualified, f.of)?;
    Ok(Formed {
        of,
        faults: f.faults,
    })
}

// Whether a complete type is over the limit.
fn is_large(nodes: &Nodes<'_>, t: u32) -> bool
    ensures { (s : State) → Stands nodes.now.scopes nodes.now.p s → result ≡ over_limit s (type_in nodes.now t) }
{
    match nodes.scopes.layout(&nodes.p, t) {
        Err(LayoutFault::TooLarge) => true,
        Ok(_) | Err(LayoutFault::Incomplete) => false,
    }
}

pub(crate) fn is_complete(nodes: &Nodes<'_>, t: u32) -> bool
    ensures { (s : State) → Stands nodes.now.scopes nodes.now.p s → result ≡ is_complete s (type_in nodes.now t) }
{
    nodes.scopes.is_complete(&nodes.p, t)
}

fn row(nodes: &mut Nodes<'_>, count: u64, f: Formed) -> Result<Formed, NoMemory>
    requires whole { IsWhole nodes.old }
    requires there { f.of < type_count nodes.old }
    ensures { IfOk result (λ g. Makes nodes.old nodes.new f g (λ s x. wrap_on s (Row count) x)) }
{
    let of = nodes.type_number(CType::Array(f.of, count))?;
    let function = nodes.is_function(f.of);
    let sound = either(function, is_complete(nodes, f.of));
    let large = is_large(nodes, of);
    Ok(Formed {
        of,
        faults: Faults {
            lacks: either(f.faults.lacks, !sound),
            misfits: either(f.faults.misfits, function),
            too_large: either(f.faults.too_large, large),
        },
    })
}

// What a function may give.
fn is_given(nodes: &Nodes<'_>, t: u32) -> bool
    requires whole { IsWhole nodes.now }
    requires there { t < type_count nodes.now }
    ensures { result ≡ is_given (type_in nodes.now t) }
{
    !nodes.is_array(t) && !nodes.is_function(t)
}

// A function gives a type without a qualifier of its own (C11 6.7.6.3p5, as C17 words it).
fn gives(nodes: &mut Nodes<'_>, params: &[Param], f: Formed) -> Result<Formed, NoMemory>
    requires whole { IsWhole nodes.old }
    requires there { f.of < type_count nodes.old }
    requires params { All (ParamIsThere nodes.old) params.now }
    ensures { IfOk result (λ g. Makes nodes.old nodes.new f g
        (λ s x. gives_on (tys (signature_types nodes.old params.now)) x)) }
{
    let given = is_given(nodes, f.of);
    let plain = nodes.bare(f.of);
    let types = signature(nodes, params)?;
    let of = nodes.type_number(CType::Function(plain, Sequence::from_vec(types)))?;
    Ok(Formed {
        of,
        faults: Faults {
            lacks: f.faults.lacks,
            misfits: either(f.faults.misfits, !given),
            too_large: f.faults.too_large,
        },
    })
}

// What one part of a declarator makes of a type.
fn made(nodes: &mut Nodes<'_>, wrap: &Wrap<'_>, f: Formed) -> Result<Formed, NoMemory>
    requires whole { IsWhole nodes.old }
    requires there { f.of < type_count nodes.old }
    requires parts { WrapIsThere nodes.old wrap.now }
    ensures { IfOk result (λ g. Makes nodes.old nodes.new f g (λ s x. made_on s nodes.old wrap.now x)) }
{
    match wrap {
        Wrap::Point(qualified) => point(nodes, *qualified, f),
        Wrap::Row(count) => row(nodes, *count, f),
        Wrap::Gives(prototype) => gives(nodes, prototype.params.as_slice(), f),
    }
}

// A type that breaks no rule.
fn plainly(of: u32) -> Formed
    ensures of { result.of ≡ of }
    ensures sound { (n : NodeList) → formed_in n result ≡ plainly (type_in n of) }
{
    Formed {
        of,
        faults: Faults {
            lacks: false,
            misfits: false,
            too_large: false,
        },
    }
}

/// The type that the parts of a declarator make of a type, the last of the list first.
pub fn form(nodes: &mut Nodes<'_>, of: u32, wraps: &[Wrap<'_>]) -> Result<Formed, NoMemory>
    requires whole { IsWhole nodes.old }
    requires there { of < type_count nodes.old }
    requires parts { All (WrapIsThere nodes.old) wraps.now }
    ensures { IfOk result (λ g. MakesOf nodes.old nodes.new g
        (λ s. all_on s nodes.old wraps.now (plainly (type_in nodes.old of)))) }
{
    let mut formed = plainly(of);
    let mut left = wraps.len();
    while left > 0 {
        left -= 1;
        formed = made(nodes, &wraps[left], formed)?;
    }
    Ok(formed)
}
