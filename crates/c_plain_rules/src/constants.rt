//! Integer constant expressions (C11 6.6), and lengths of arrays (6.7.6.2).

ghost use Rattle.std.specs.Prelude.{◌≡◌, ◌*◌, ◌<◌, ◌≤◌, ◌^◌, nat_lt, pos, ◌-ℤ◌, ◌<ℤ◌, if◌then◌else◌};
ghost use Rattle.ck_int.specs.Kinds.{value_of, reduced};
ghost use Rattle.c_expressions.specs.Nodes.{IsWhole};
ghost use Rattle.c_elaborator.specs.Answers.{Answers, quietly, OperandThere, operand_in};
ghost use Rattle.c_plain_rules.specs.Constants.{ConstantThere, IsConstant, CountThere, IsCount, in_any};
ghost use Rattle.c_plain_rules.specs.Constants.{constant, array_length};

use c_elaborator::Work;
use c_expressions::Operand;
use ck_base::{NO_CONSTANT, Pos, Refusal};
use ck_int::IntKind;

/// The value of an integer constant expression, and the place of its first byte.
#[derive(Clone, Copy)]
pub struct Constant {
    pub number: i128,
    pub first: Pos,
}

// The number that low bits stand for in two's complement, where the highest of them is worth `sign`.
fn signed(low: u64, sign: u64) -> i128
    requires width { sign ≤ 2 ^ 63 }
    requires in_range { low < 2 * sign }
    ensures is { result ≡ (if nat_lt low sign then pos low else pos low -ℤ pos (2 * sign)) }
    ensures small { result <ℤ pos sign }
{
    if low < sign {
        i128::from(low)
    } else {
        i128::from(low) - 2 * i128::from(sign)
    }
}

// The number that a value of a kind is.
#[tactic(auto, unfolding(ck_int::specs::Kinds::value_of, ck_int::specs::Kinds::reduced))]
fn number_of(kind: IntKind, value: u64) -> i128
    ensures is { result ≡ value_of kind value }
    ensures small { result <ℤ pos (2 ^ 64) }
{
    match kind {
        IntKind::Bool => i128::from(value != 0),
        IntKind::I8 => signed(value % 0x100, 0x80),
        IntKind::U8 => i128::from(value % 0x100),
        IntKind::I16 => signed(value % 0x1_0000, 0x8000),
        IntKind::U16 => i128::from(value % 0x1_0000),
        IntKind::I32 => signed(value % 0x1_0000_0000, 0x8000_0000),
        IntKind::U32 => i128::from(value % 0x1_0000_0000),
        IntKind::I64 => signed(value, 0x8000_0000_0000_0000),
        IntKind::U64 => i128::from(value),
    }
}

/// The value of an integer constant expression that was read as a value: 134 at its first byte if it is none (C11 6.6).
pub fn constant_value(work: &Work<'_>, x: Operand) -> Result<Constant, Refusal>
    requires whole { IsWhole work.now.nodes }
    requires there { OperandThere work.now x }
    ensures { Answers quietly work.now work.now (constant (operand_in work.now x)) ConstantThere
        (in_any IsConstant) result }
{
    match work.nodes.constant_of(x.node) {
        None => Err(Refusal::Code(NO_CONSTANT, x.first)),
        Some(value) => {
            let of = work.nodes.of(x.node);
            let kind = work.nodes.class(work.nodes.bare(of)).kind();
            Ok(Constant {
                number: number_of(kind, value),
                first: x.first,
            })
        }
    }
}

/// The number of elements that a constant expression gives: 134 at its first byte if it is not at least 1 (C11
/// 6.7.6.2p1).
pub fn array_length(work: &Work<'_>, c: Constant) -> Result<u64, Refusal>
    requires whole { IsWhole work.now.nodes }
    requires small { ConstantThere work.now c }
    ensures { Answers quietly work.now work.now (array_length c.number c.first) CountThere (in_any IsCount) result }
{
    if c.number <= 0 {
        return Err(Refusal::Code(NO_CONSTANT, c.first));
    }
    match u64::try_from(c.number) {
        Ok(count) => Ok(count),
        Err(_) => unreachable!(),
    }
}
