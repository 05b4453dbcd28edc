//! Calls of library functions and intrinsics (C11 6.5.2.2).

ghost use Rattle.std.specs.Prelude.{◌≡◌, ◌<◌, ◌==◌, length, map, slice_get, IfOk};
ghost use Rattle.c_tree.specs.Conversions.{assigned};
ghost use Rattle.c_tree.specs.Expressions.{asked, all_asked, given_type, first_type, library_call};
ghost use Rattle.c_tree.specs.Libraries.{services, Any_capability};
ghost use Rattle.c_expressions.specs.Agreement.{AreBelow};
ghost use Rattle.c_expressions.specs.Answers.{Answers};
ghost use Rattle.c_expressions.specs.Classes.{integer_type};
ghost use Rattle.c_expressions.specs.Nodes.{IsWhole, IsOperand, IsTerm, IsType, HasType, operand_in, term_in};
ghost use Rattle.c_expressions.specs.Nodes.{term_count};
ghost use Rattle.c_operand_rules.specs.Called.{AreTerms, AreThere};
ghost use Rattle.c_operators.specs.Services.{asked_as, takes_as, given_as, library_as};

use c_expressions::{Integer, Nodes, Operand};
use c_operand_rules::{fewer, push};
use ck_base::{MISFIT, NoMemory, Pos, Refusal, WRONG_ARGUMENT_COUNT};
use ck_int::IntKind;

/// What an argument must be.
#[derive(Clone, Copy)]
enum Asked {
    /// Any pointer or capability integer.
    Capability,
    /// What initialises an `int`.
    Int,
    /// What initialises a `size_t`.
    Size,
}

/// The type of a result.
#[derive(Clone, Copy)]
enum Given {
    Void,
    Int,
    Size,
    Bool,
    /// A pointer to `void`.
    Pointer,
    /// The type of the first argument.
    Argument,
}

/// The arguments that are asked for.
#[derive(Clone, Copy)]
enum Takes {
    Nothing,
    Int,
    Size,
    Capability,
    CapabilityAndSize,
    Capabilities,
}

/// A library function or an intrinsic.
#[derive(Clone, Copy)]
struct Service {
    takes: Takes,
    gives: Given,
}

/// By their numbers: `putchar`, `getchar`, `malloc`, `exit`; the intrinsics that get the address, the base, the offset,
/// the length, the tag and the permissions; those that set the address, clear the tag, set bounds, set exact bounds and
/// take permissions away; the exact comparison; and the two that round lengths.
const SERVICES: [Service; 18] = [
    Service {
        takes: Takes::Int,
        gives: Given::Int,
    },
    Service {
        takes: Takes::Nothing,
        gives: Given::Int,
    },
    Service {
        takes: Takes::Size,
        gives: Given::Pointer,
    },
    Service {
        takes: Takes::Int,
        gives: Given::Void,
    },
    Service {
        takes: Takes::Capability,
        gives: Given::Size,
    },
    Service {
        takes: Takes::Capability,
        gives: Given::Size,
    },
    Service {
        takes: Takes::Capability,
        gives: Given::Size,
    },
    Service {
        takes: Takes::Capability,
        gives: Given::Size,
    },
    Service {
        takes: Takes::Capability,
        gives: Given::Bool,
    },
    Service {
        takes: Takes::Capability,
        gives: Given::Size,
    },
    Service {
        takes: Takes::CapabilityAndSize,
        gives: Given::Argument,
    },
    Service {
        takes: Takes::Capability,
        gives: Given::Argument,
    },
    Service {
        takes: Takes::CapabilityAndSize,
        gives: Given::Argument,
    },
    Service {
        takes: Takes::CapabilityAndSize,
        gives: Given::Argument,
    },
    Service {
        takes: Takes::CapabilityAndSize,
        gives: Given::Argument,
    },
    Service {
        takes: Takes::Capabilities,
        gives: Given::Bool,
    },
    Service {
        takes: Takes::Size,
        gives: Given::Size,
    },
    Service {
        takes: Takes::Size,
        gives: Given::Size,
    },
];

// Those with these arguments.
fn asked_list(takes: Takes) -> &'static [Asked]
    ensures { map asked_as result.now ≡ takes_as takes }
{
    match takes {
        Takes::Nothing => &[],
        Takes::Int => &[Asked::Int],
        Takes::Size => &[Asked::Size],
        Takes::Capability => &[Asked::Capability],
        Takes::CapabilityAndSize => &[Asked::Capability, Asked::Size],
        Takes::Capabilities => &[Asked::Capability, Asked::Capability],
    }
}

// The library function or intrinsic of a number.
fn service_of(k: u8) -> Option<Service>
    ensures { result ≡ slice_get SERVICES k }
{
    service_in(&SERVICES, usize::from(k))
}

fn service_in(services: &[Service], k: usize) -> Option<Service>
    ensures { result ≡ slice_get services.now k }
{
    match services.get(k) {
        None => None,
        Some(service) => Some(*service),
    }
}

// Whether there are as many arguments as are asked for.
fn are_as_many_asked(takes: &[Asked], xs: &[Operand]) -> bool
    ensures { (length xs.now == length takes.now) ≡ result }
{
    xs.len() == takes.len()
}

// An argument that may be any pointer or capability integer.
fn capability(nodes: &Nodes<'_>, x: Operand) -> Result<u32, Refusal>
    requires whole { IsWhole nodes.now }
    requires operand { x.node < term_count nodes.now }
    ensures { Answers nodes.now nodes.now (asked Any_capability (operand_in nodes.now x)) IsTerm result }
{
    if !nodes.is_capability(nodes.of(x.node)) {
        return Err(Refusal::Code(MISFIT, x.first));
    }
    Ok(x.node)
}

fn assigned_integer(nodes: &mut Nodes<'_>, to: Integer, x: Operand) -> Result<u32, Refusal>
    requires whole { IsWhole nodes.old }
    requires operand { x.node < term_count nodes.old }
    ensures { Answers nodes.old nodes.new (assigned (integer_type to) (operand_in nodes.old x)) IsTerm result }
{
    let of = nodes.integer(to)?;
    nodes.assigned(of, x)
}

// An argument as it is asked for.
fn as_asked(nodes: &mut Nodes<'_>, what: Asked, x: Operand) -> Result<u32, Refusal>
    requires whole { IsWhole nodes.old }
    requires operand { x.node < term_count nodes.old }
    ensures { Answers nodes.old nodes.new (asked (asked_as what) (operand_in nodes.old x)) IsTerm result }
{
    match what {
        Asked::Capability => capability(nodes, x),
        Asked::Int => assigned_integer(nodes, Integer::Int(IntKind::I32, 0), x),
        Asked::Size => assigned_integer(nodes, Integer::Int(IntKind::U64, 0), x),
    }
}

// Each argument as it is asked for, as far as there are both.
fn all_asked(nodes: &mut Nodes<'_>, takes: &[Asked], xs: &[Operand]) -> Result<Vec<u32>, Refusal>
    requires whole { IsWhole nodes.old }
    requires operands { AreThere (term_count nodes.old) xs.now }
    ensures { Answers nodes.old nodes.new (all_asked (map asked_as takes.now) (map (operand_in nodes.old) xs.now))
        AreTerms result }
{
    let mut values = Vec::new(nodes.alloc);
    let count = fewer(takes.len(), xs.len());
    for k in 0..count {
        let value = as_asked(nodes, takes[k], xs[k])?;
        push(&mut values, value)?;
    }
    Ok(values)
}

// The type of the first of some expressions, or `void` where there is none.
fn first_type(nodes: &Nodes<'_>, values: &[u32]) -> u32
    requires whole { IsWhole nodes.now }
    requires there { AreBelow (term_count nodes.now) values.now }
    ensures { IsType nodes.now result (first_type (map (term_in nodes.now) values.now)) }
{
    match values {
        [] => nodes.void,
        [first, ..] => nodes.of(*first),
    }
}

// The type of a result.
fn given_type(nodes: &mut Nodes<'_>, gives: Given, values: &[u32]) -> Result<u32, NoMemory>
    requires whole { IsWhole nodes.old }
    requires there { AreBelow (term_count nodes.old) values.now }
    ensures { IfOk result (λ k. HasType nodes.old nodes.new k
        (given_type (given_as gives) (map (term_in nodes.old) values.now))) }
{
    match gives {
        Given::Void => nodes.void(),
        Given::Int => nodes.int(),
        Given::Size => nodes.integer(Integer::Int(IntKind::U64, 0)),
        Given::Bool => nodes.integer(Integer::Int(IntKind::Bool, 0)),
        Given::Pointer => nodes.pointer_to(nodes.void),
        Given::Argument => Ok(first_type(nodes, values)),
    }
}

// A call of a library function or an intrinsic that takes and gives these.
fn served(
    nodes: &mut Nodes<'_>,
    service: u8,
    takes: &[Asked],
    gives: Given,
    xs: &[Operand],
    pos: Pos,
    first: Pos,
) -> Result<Operand, Refusal>
    requires whole { IsWhole nodes.old }
    requires operands { AreThere (term_count nodes.old) xs.now }
    ensures { Answers nodes.old nodes.new (library_as (map asked_as takes.now) (given_as gives) service
        (map (operand_in nodes.old) xs.now) pos first) IsOperand result }
{
    let values = all_asked(nodes, takes, xs)?;
    if !are_as_many_asked(takes, xs) {
        return Err(Refusal::Code(WRONG_ARGUMENT_COUNT, first));
    }
    let of = given_type(nodes, gives, values.as_slice())?;
    let node = nodes.library_node(service, values, of, pos)?;
    Ok(Operand { node, first })
}

/// A direct call of a library function or an intrinsic, by its number. `pos` is the place of the call, and `first` its
/// first byte. Each argument is refused by 133 where it is not what is asked for, and the call by 136 where there are
/// more or fewer.
pub fn library_call(
    nodes: &mut Nodes<'_>,
    service: u8,
    xs: &[Operand],
    pos: Pos,
    first: Pos,
) -> Result<Operand, Refusal>
    requires whole { IsWhole nodes.old }
    requires operands { AreThere (term_count nodes.old) xs.now }
    ensures { Answers nodes.old nodes.new (library_call (slice_get services service) service
        (map (operand_in nodes.old) xs.now) pos first) IsOperand result }
{
    match service_of(service) {
        None => Err(Refusal::Code(MISFIT, first)),
        Some(called) => served(
            nodes,
            service,
            asked_list(called.takes),
            called.gives,
            xs,
            pos,
            first,
        ),
    }
}
