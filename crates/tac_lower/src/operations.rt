//! Operations on values that are in temps.

ghost use Rattle.std.specs.Prelude.{◌≡◌, ℕ, ◌+◌, ◌*◌, ◌%◌, ◌^◌, ◌<◌, true, false, length, IfOk, IfSome, Some, None};
ghost use Rattle.ck_int.specs.declared.kinds.IntKind.{IntKind};
ghost use Rattle.ck_int.specs.declared.kinds.IntKind.TheVariants as int;
ghost use Rattle.tac_ir.specs.declared.code.TacKind.TheVariants as kinds;
ghost use Rattle.cheri_c_sem.specs.Types.{is_shift};
ghost use Rattle.tac_ir.specs.WellFormed.{constant_fits};
ghost use Rattle.tac_emit.specs.declared.emitter.Emitter.{Emitter};
ghost use Rattle.tac_ir.specs.Costs.{number_cost};
ghost use Rattle.tac_emit.specs.Spent.{Spent, is_number};
ghost use Rattle.tac_emit.specs.Emitted.{HasKind, HasInt, HasAddress, IsWide, AmountFits, CountFits};
ghost use Rattle.tac_lower.specs.Operands.{RightFits, AddressFits};
ghost use Rattle.tac_emit.specs.Emitted.{SameKind, SameCapability, is_capability, Grown, Adds, HasRoom};
ghost use Rattle.tac_lower.specs.Operands.{Holds, wide_of};
ghost use Rattle.tac_lower.specs.Operands.{ChangeFits};
ghost use Rattle.cheri_c_sem.specs.Tree.{Operation, Whole};
ghost use Rattle.tac_ir.specs.Effects.{kind_of};
ghost use Rattle.tac_lower.specs.declared.operations.Sign.TheVariants as signs;
ghost use Rattle.ck_int.specs.declared.kinds.IntOp.TheVariants.{Add, Sub};
ghost use Rattle.tac_ir.specs.declared.code.Amount.TheVariants as amount;
ghost use Rattle.tac_ir.specs.declared.code.TacInstr.TheVariants as instr;
ghost use Rattle.lower_runs.specs.Operating as operating;
ghost use Rattle.lower_runs.specs.Operating.{sign_temps, signed_temps, right_temps, address_temps, moved_temps};
ghost use Rattle.lower_runs.specs.Operating.{changed_temps, stepped_temps};
ghost use Rattle.tac_emit.specs.Adding.{Emits, one};
ghost use Rattle.tac_lower.specs.Shown.{sign_as, count_code, count_temp, count_temps, Changes, Paces};
ghost use Rattle.tac_lower.specs.Shown.{address_more, bytes_code, bytes_temp};

use crate::types::{LONG, POINTER, WORD, is_capability, same_kind};
use ck_base::NoMemory;
use ck_int::{CmpOp, IntKind, IntOp, wrap};
use tac_emit::Emitter;
use tac_ir::{Amount, CapWork, TacKind};

/// A value in a temp, with its kind.
#[derive(Clone, Copy)]
pub struct Held {
    pub temp: u32,
    pub kind: TacKind,
}

fn is_shift(op: IntOp) -> bool
    ensures { result ≡ is_shift op }
{
    matches!(op, IntOp::Shl | IntOp::Shr)
}

/// The number all of whose bits are set, as a kind keeps it.
fn all_ones(kind: IntKind) -> u64
    ensures fits { constant_fits (kinds.Int kind) result ≡ true }
    ensures short { kind ≡ int.U64 → number_cost result ≡ 1 }
    ensures is { result ≡ operating.all_ones kind }
{
    wrap(kind, 0xffff_ffff_ffff_ffff)
}

/// Whether a value is 0 or null.
pub fn negated(out: &mut Emitter, to: u32, x: Held) -> Result<(), NoMemory>
    requires room { HasRoom out.old 1 }
    requires to { HasKind out.old to (kinds.Int int.I32) }
    requires x { Holds out.old x }
    ensures grown { IfOk result (λ _. Grown out.old out.new) }
    ensures adds { IfOk result (λ _. Adds out.old out.new 1 0) }
    ensures spent { IfOk result (λ _. Spent out.old out.new 1 22) }
    ensures emits { IfOk result (λ _. Emits out.old out.new 1
        (operating.negated x.kind to x.temp (length out.old.kinds.items))) }
{
    let zero = out.fresh_constant(x.kind, 0)?;
    out.compare(CmpOp::Eq, x.kind, to, x.temp, zero)
}

/// 0 less an integer.
fn negative(out: &mut Emitter, kind: IntKind, to: u32, a: u32) -> Result<(), NoMemory>
    requires room { HasRoom out.old 1 }
    requires to { HasKind out.old to (kinds.Int kind) }
    requires a { HasKind out.old a (kinds.Int kind) }
    ensures grown { IfOk result (λ _. Grown out.old out.new) }
    ensures adds { IfOk result (λ _. Adds out.old out.new 1 0) }
    ensures spent { IfOk result (λ _. Spent out.old out.new 1 17) }
    ensures wide { kind ≡ int.U64 → IfOk result (λ _. Spent out.old out.new 1 15) }
    ensures emits { IfOk result (λ _. Emits out.old out.new 1
        (operating.signed_integer (sign_as signs.Negative) kind to a (length out.old.kinds.items))) }
{
    let zero = out.fresh_constant(TacKind::Int(kind), 0)?;
    out.int(IntOp::Sub, kind, to, zero, a)
}

/// An integer with each bit turned.
fn complement(out: &mut Emitter, kind: IntKind, to: u32, a: u32) -> Result<(), NoMemory>
    requires room { HasRoom out.old 1 }
    requires to { HasKind out.old to (kinds.Int kind) }
    requires a { HasKind out.old a (kinds.Int kind) }
    ensures grown { IfOk result (λ _. Grown out.old out.new) }
    ensures adds { IfOk result (λ _. Adds out.old out.new 1 0) }
    ensures spent { IfOk result (λ _. Spent out.old out.new 1 24) }
    ensures wide { kind ≡ int.U64 → IfOk result (λ _. Spent out.old out.new 1 15) }
    ensures emits { IfOk result (λ _. Emits out.old out.new 1
        (operating.signed_integer (sign_as signs.Complement) kind to a (length out.old.kinds.items))) }
{
    let ones = out.fresh_constant(TacKind::Int(kind), all_ones(kind))?;
    out.int(IntOp::Xor, kind, to, a, ones)
}

/// The unary operations that give a value of their operand's kind (C11 6.5.3.3).
#[derive(Clone, Copy)]
pub enum Sign {
    Positive,
    Negative,
    Complement,
}

fn signed_integer(
    out: &mut Emitter,
    sign: Sign,
    kind: IntKind,
    to: u32,
    a: u32,
) -> Result<(), NoMemory>
    requires room { HasRoom out.old 1 }
    requires to { HasKind out.old to (kinds.Int kind) }
    requires a { HasKind out.old a (kinds.Int kind) }
    ensures grown { IfOk result (λ _. Grown out.old out.new) }
    ensures adds { IfOk result (λ _. Adds out.old out.new 1 0) }
    ensures spent { IfOk result (λ _. Spent out.old out.new 1 24) }
    ensures wide { kind ≡ int.U64 → IfOk result (λ _. Spent out.old out.new 1 15) }
    ensures emits { IfOk result (λ _. Emits out.old out.new (sign_temps (sign_as sign))
        (operating.signed_integer (sign_as sign) kind to a (length out.old.kinds.items))) }
{
    match sign {
        Sign::Positive => out.transfer(to, a),
        Sign::Negative => negative(out, kind, to, a),
        Sign::Complement => complement(out, kind, to, a),
    }
}

/// The computed address stands in a temp of its own, and the capability gets it.
fn signed_capability(out: &mut Emitter, sign: Sign, to: u32, x: Held) -> Result<(), NoMemory>
    requires room { HasRoom out.old 2 }
    requires to { HasKind out.old to x.kind }
    requires x { Holds out.old x }
    requires capability { is_capability x.kind ≡ true }
    ensures grown { IfOk result (λ _. Grown out.old out.new) }
    ensures adds { IfOk result (λ _. Adds out.old out.new 2 0) }
    ensures spent { IfOk result (λ _. Spent out.old out.new 2 32) }
    ensures emits { IfOk result (λ _. Emits out.old out.new (signed_temps (sign_as sign) x.kind)
        (operating.signed (sign_as sign) x.kind to x.temp (length out.old.kinds.items))) }
{
    let n = out.fresh_conversion(x.temp, x.kind, WORD)?;
    signed_integer(out, sign, IntKind::U64, n, n)?;
    out.work(CapWork::SetAddress, to, x.temp, Some(n))
}

/// `+`, `-` or `~`.
pub fn signed(out: &mut Emitter, sign: Sign, to: u32, x: Held) -> Result<(), NoMemory>
    requires room { HasRoom out.old 2 }
    requires to { HasKind out.old to x.kind }
    requires x { Holds out.old x }
    ensures grown { IfOk result (λ _. Grown out.old out.new) }
    ensures adds { IfOk result (λ _. Adds out.old out.new 2 0) }
    ensures spent { IfOk result (λ _. Spent out.old out.new 2 32) }
    ensures emits { IfOk result (λ _. Emits out.old out.new (signed_temps (sign_as sign) x.kind)
        (operating.signed (sign_as sign) x.kind to x.temp (length out.old.kinds.items))) }
{
    match x.kind {
        TacKind::Int(kind) => signed_integer(out, sign, kind, to, x.temp),
        TacKind::Cap(_) => signed_capability(out, sign, to, x),
    }
}

/// A shift's count as an integer.
fn as_count(out: &mut Emitter, x: Held) -> Result<u32, NoMemory>
    requires room { HasRoom out.old 1 }
    requires x { Holds out.old x }
    ensures count { IfOk result (λ t. HasInt out.new t) }
    ensures grown { IfOk result (λ _. Grown out.old out.new) }
    ensures adds { IfOk result (λ _. Adds out.old out.new 1 0) }
    ensures spent { IfOk result (λ _. Spent out.old out.new 1 7) }
    ensures temp { IfOk result (λ t. t ≡ count_temp x.kind x.temp (length out.old.kinds.items)) }
    ensures emits { IfOk result (λ _. Emits out.old out.new (count_temps x.kind)
        (count_code x.kind x.temp (length out.old.kinds.items))) }
{
    if is_capability(x.kind) {
        out.fresh_conversion(x.temp, x.kind, WORD)
    } else {
        Ok(x.temp)
    }
}

/// The right operand of an operation on integers.
fn right_operand(out: &mut Emitter, op: IntOp, y: Held) -> Result<u32, NoMemory>
    requires room { HasRoom out.old 1 }
    requires y { Holds out.old y }
    ensures count { IfOk result (λ t. (kind : IntKind) → RightFits (is_shift op) kind y.kind →
        CountFits out.new (is_shift op) kind t) }
    ensures grown { IfOk result (λ _. Grown out.old out.new) }
    ensures adds { IfOk result (λ _. Adds out.old out.new 1 0) }
    ensures spent { IfOk result (λ _. Spent out.old out.new 1 7) }
    ensures temp { IfOk result (λ t. t ≡ operating.right_temp op y.kind y.temp (length out.old.kinds.items)) }
    ensures emits { IfOk result (λ _. Emits out.old out.new (right_temps op y.kind)
        (operating.right_operand op y.kind y.temp (length out.old.kinds.items))) }
{
    if is_shift(op) {
        as_count(out, y)
    } else {
        Ok(y.temp)
    }
}

/// An operation on integers of a kind.
pub fn whole(
    out: &mut Emitter,
    op: IntOp,
    kind: IntKind,
    to: u32,
    a: u32,
    y: Held,
) -> Result<(), NoMemory>
    requires room { HasRoom out.old 1 }
    requires to { HasKind out.old to (kinds.Int kind) }
    requires a { HasKind out.old a (kinds.Int kind) }
    requires y { Holds out.old y }
    requires right { RightFits (is_shift op) kind y.kind }
    ensures grown { IfOk result (λ _. Grown out.old out.new) }
    ensures adds { IfOk result (λ _. Adds out.old out.new 1 0) }
    ensures spent { IfOk result (λ _. Spent out.old out.new 1 20) }
    ensures emits { IfOk result (λ _. Emits out.old out.new (right_temps op y.kind)
        (operating.whole op kind y.kind to a y.temp (length out.old.kinds.items))) }
{
    let b = right_operand(out, op, y)?;
    out.int(op, kind, to, a, b)
}

/// The kind in which the address of a capability is computed. Only a quotient, a remainder and a shift to the right
/// depend on the sign.
fn address_kind(op: IntOp, signed: bool) -> IntKind
    ensures wide { IsWide (kinds.Int result) }
    ensures is { result ≡ operating.address_kind op signed }
{
    if signed && matches!(op, IntOp::Div | IntOp::Rem | IntOp::Shr) {
        IntKind::I64
    } else {
        IntKind::U64
    }
}

/// The right operand of an operation on addresses.
fn address_operand(out: &mut Emitter, op: IntOp, kind: IntKind, y: Held) -> Result<u32, NoMemory>
    requires room { HasRoom out.old 1 }
    requires y { Holds out.old y }
    ensures count { IfOk result (λ t. CountFits out.new (is_shift op) kind t) }
    ensures grown { IfOk result (λ _. Grown out.old out.new) }
    ensures adds { IfOk result (λ _. Adds out.old out.new 1 0) }
    ensures spent { IfOk result (λ _. Spent out.old out.new 1 11) }
    ensures alike { IsWide (kinds.Int kind) → AddressFits (is_shift op) y.kind →
        IfOk result (λ _. Spent out.old out.new 1 7) }
    ensures temp { IfOk result (λ t. t ≡ operating.address_temp op y.kind y.temp (length out.old.kinds.items)) }
    ensures emits { IfOk result (λ _. Emits out.old out.new (address_more op y.kind)
        (operating.address_operand op kind y.kind y.temp (length out.old.kinds.items))) }
{
    if is_shift(op) && !is_capability(y.kind) {
        Ok(y.temp)
    } else {
        out.fresh_conversion(y.temp, y.kind, TacKind::Int(kind))
    }
}

/// The computed address of an operation on capability integers, in a temp of its own.
fn computed_address(
    out: &mut Emitter,
    op: IntOp,
    signed: bool,
    x: Held,
    y: Held,
) -> Result<Held, NoMemory>
    requires room { HasRoom out.old 2 }
    requires x { Holds out.old x }
    requires y { Holds out.old y }
    ensures held { IfOk result (λ n. Holds out.new n) }
    ensures wide { IfOk result (λ n. IsWide n.kind) }
    ensures grown { IfOk result (λ _. Grown out.old out.new) }
    ensures adds { IfOk result (λ _. Adds out.old out.new 2 0) }
    ensures spent { IfOk result (λ _. Spent out.old out.new 2 33) }
    ensures alike { AddressFits (is_shift op) y.kind → IfOk result (λ _. Spent out.old out.new 2 29) }
    ensures next { IfOk result (λ n. n.temp ≡ length out.old.kinds.items) }
    ensures as_integer { IfOk result (λ n. n.kind ≡ kinds.Int (operating.address_kind op signed)) }
    ensures emits { IfOk result (λ _. Emits out.old out.new (address_temps op y.kind)
        (operating.computed_address op signed x.kind y.kind x.temp y.temp (length out.old.kinds.items))) }
{
    let kind = address_kind(op, signed);
    let n = out.fresh_conversion(x.temp, x.kind, TacKind::Int(kind))?;
    let m = address_operand(out, op, kind, y)?;
    out.int(op, kind, n, n, m)?;
    Ok(Held {
        temp: n,
        kind: TacKind::Int(kind),
    })
}

/// The temp of the operand from which a result derives: the right one only where that is asked and it is kept as the
/// left one is.
fn origin(right: bool, x: Held, y: Held) -> u32
    ensures kind { (e : Emitter) → Holds e x → Holds e y → HasKind e result x.kind }
    ensures is { result ≡ operating.origin right x.kind y.kind x.temp y.temp }
{
    if !right {
        return x.temp;
    }
    if same_kind(y.kind, x.kind) {
        y.temp
    } else {
        x.temp
    }
}

/// An operation on capability integers. The result derives from the right operand where that is asked, else from the
/// left one.
pub fn derived(
    out: &mut Emitter,
    op: IntOp,
    signed: bool,
    right: bool,
    to: u32,
    x: Held,
    y: Held,
) -> Result<(), NoMemory>
    requires room { HasRoom out.old 2 }
    requires to { HasKind out.old to (kinds.Cap signed) }
    requires x { HasKind out.old x.temp (kinds.Cap signed) }
    requires x_kind { x.kind ≡ kinds.Cap signed }
    requires y { Holds out.old y }
    ensures grown { IfOk result (λ _. Grown out.old out.new) }
    ensures adds { IfOk result (λ _. Adds out.old out.new 2 0) }
    ensures spent { IfOk result (λ _. Spent out.old out.new 2 43) }
    ensures emits { IfOk result (λ _. Emits out.old out.new (address_temps op y.kind)
        (operating.derived op signed right y.kind to x.temp y.temp (length out.old.kinds.items))) }
{
    let n = computed_address(out, op, signed, x, y)?;
    let from = origin(right, x, y);
    out.work(CapWork::SetAddress, to, from, Some(n.temp))
}

/// The integer kind of 64 bits to which a kind is extended.
fn wide_kind(kind: TacKind) -> IntKind
    ensures { result ≡ wide_of kind }
{
    match kind {
        TacKind::Int(IntKind::I8 | IntKind::I16 | IntKind::I32 | IntKind::I64) => IntKind::I64,
        _ => IntKind::U64,
    }
}

fn is_wide(kind: TacKind) -> bool
    ensures kept { result ≡ true → kind ≡ kinds.Int (wide_of kind) }
    ensures is { result ≡ operating.is_wide kind }
{
    matches!(kind, TacKind::Int(IntKind::I64 | IntKind::U64))
}

/// The size of an element, negative where a pointer is moved down, modulo 2^64.
pub fn stride(size: u64, minus: bool) -> u64
    ensures { result ≡ operating.stride size minus }
{
    if minus { size.wrapping_neg() } else { size }
}

/// An index, extended to 64 bits, times the size of an element, in a temp of its own.
fn scaled(out: &mut Emitter, i: Held, by: u64) -> Result<u32, NoMemory>
    requires room { HasRoom out.old 2 }
    requires i { Holds out.old i }
    ensures bytes { IfOk result (λ t. HasInt out.new t) }
    ensures grown { IfOk result (λ _. Grown out.old out.new) }
    ensures adds { IfOk result (λ _. Adds out.old out.new 2 0) }
    ensures spent { IfOk result (λ _. Spent out.old out.new 2 33) }
    ensures temp { IfOk result (λ t. t ≡ operating.scaled_temp i.kind (length out.old.kinds.items)) }
    ensures emits { IfOk result (λ _. Emits out.old out.new 2
        (operating.scaled i.kind by i.temp (length out.old.kinds.items))) }
{
    let kind = wide_kind(i.kind);
    if is_wide(i.kind) {
        let size = out.fresh_constant(TacKind::Int(kind), by)?;
        let to = out.temp(TacKind::Int(kind))?;
        out.int(IntOp::Mul, kind, to, i.temp, size)?;
        Ok(to)
    } else {
        let n = out.fresh_conversion(i.temp, i.kind, TacKind::Int(kind))?;
        let size = out.fresh_constant(TacKind::Int(kind), by)?;
        out.int(IntOp::Mul, kind, n, n, size)?;
        Ok(n)
    }
}

/// The bytes of an index, by those of an element.
fn bytes_of(out: &mut Emitter, i: Held, by: u64) -> Result<Amount, NoMemory>
    requires room { HasRoom out.old 2 }
    requires i { Holds out.old i }
    ensures bytes { IfOk result (λ a. AmountFits out.new a) }
    ensures temp { IfOk result (λ a. is_number a ≡ false) }
    ensures grown { IfOk result (λ _. Grown out.old out.new) }
    ensures adds { IfOk result (λ _. Adds out.old out.new 2 0) }
    ensures spent { IfOk result (λ _. Spent out.old out.new 2 33) }
    ensures temp_is { IfOk result (λ a. a ≡ amount.Temp (bytes_temp i.kind by i.temp (length out.old.kinds.items))) }
    ensures emits { IfOk result (λ _. Emits out.old out.new (moved_temps i.kind by)
        (bytes_code i.kind by i.temp (length out.old.kinds.items))) }
{
    if by == 1 {
        Ok(Amount::Temp(as_count(out, i)?))
    } else {
        Ok(Amount::Temp(scaled(out, i, by)?))
    }
}

/// A pointer moved by elements of so many bytes.
pub fn moved(out: &mut Emitter, by: u64, to: u32, base: u32, i: Held) -> Result<(), NoMemory>
    requires room { HasRoom out.old 2 }
    requires base { SameCapability out.old to base }
    requires i { Holds out.old i }
    ensures grown { IfOk result (λ _. Grown out.old out.new) }
    ensures adds { IfOk result (λ _. Adds out.old out.new 2 0) }
    ensures spent { IfOk result (λ _. Spent out.old out.new 2 43) }
    ensures emits { IfOk result (λ _. Emits out.old out.new (moved_temps i.kind by)
        (operating.moved i.kind by to base i.temp (length out.old.kinds.items))) }
{
    let by = bytes_of(out, i, by)?;
    out.offset(to, base, by)
}

/// A pointer moved by a known number of elements of a size, up or down.
pub fn moved_by(
    out: &mut Emitter,
    size: u64,
    minus: bool,
    to: u32,
    base: u32,
    n: u64,
) -> Result<(), NoMemory>
    requires base { SameCapability out.old to base }
    ensures grown { IfOk result (λ _. Grown out.old out.new) }
    ensures adds { IfOk result (λ _. Adds out.old out.new 0 0) }
    ensures spent { IfOk result (λ _. Spent out.old out.new 0 15) }
    ensures emits { IfOk result (λ _. Emits out.old out.new 0
        (one (instr.Offset to base (amount.Number (operating.stride size minus * n % 2 ^ 64))))) }
{
    let by = stride(size, minus).wrapping_mul(n);
    out.offset(to, base, Amount::Number(by))
}

/// The difference of two pointers in elements of a size.
pub fn difference(out: &mut Emitter, size: u64, to: u32, a: u32, b: u32) -> Result<(), NoMemory>
    requires room { HasRoom out.old 2 }
    requires to { HasKind out.old to (kinds.Int int.I64) }
    requires a { HasKind out.old a (kinds.Cap false) }
    requires b { HasKind out.old b (kinds.Cap false) }
    ensures grown { IfOk result (λ _. Grown out.old out.new) }
    ensures adds { IfOk result (λ _. Adds out.old out.new 2 0) }
    ensures spent { IfOk result (λ _. Spent out.old out.new 2 51) }
    ensures emits { IfOk result (λ _. Emits out.old out.new 2
        (operating.difference size to a b (length out.old.kinds.items))) }
{
    let n = out.fresh_conversion(a, POINTER, LONG)?;
    let m = out.fresh_conversion(b, POINTER, LONG)?;
    if size == 1 {
        return out.int(IntOp::Sub, IntKind::I64, to, n, m);
    }
    out.int(IntOp::Sub, IntKind::I64, n, n, m)?;
    out.constant(m, LONG, size)?;
    out.int(IntOp::Div, IntKind::I64, to, n, m)
}

/// The operation of a compound assignment (C11 6.5.16.2).
#[derive(Clone, Copy)]
pub struct Change {
    pub op: IntOp,
    /// The kind in which it is computed.
    pub computed: TacKind,
    /// The size of an element, where a pointer is moved.
    pub element: Option<u64>,
}

/// An operation on integers of a kind, on a place of another.
fn changed_whole(
    out: &mut Emitter,
    op: IntOp,
    kind: IntKind,
    to: u32,
    x: Held,
    y: Held,
) -> Result<(), NoMemory>
    requires room { HasRoom out.old 2 }
    requires to { HasKind out.old to x.kind }
    requires x { Holds out.old x }
    requires y { Holds out.old y }
    requires right { RightFits (is_shift op) kind y.kind }
    ensures grown { IfOk result (λ _. Grown out.old out.new) }
    ensures adds { IfOk result (λ _. Adds out.old out.new 2 0) }
    ensures spent { IfOk result (λ _. Spent out.old out.new 2 42) }
    ensures emits { IfOk result (λ _. Emits out.old out.new
        (changed_temps (Whole op kind (kind_of y.kind)) x.kind y.kind)
        (operating.changed_whole op kind x.kind y.kind to x.temp y.temp (length out.old.kinds.items))) }
{
    let b = right_operand(out, op, y)?;
    let computed = TacKind::Int(kind);
    if same_kind(x.kind, computed) {
        return out.int(op, kind, to, x.temp, b);
    }
    let u = out.fresh_conversion(x.temp, x.kind, computed)?;
    out.int(op, kind, u, u, b)?;
    out.convert(to, u, computed, x.kind)
}

/// An operation on capability integers, on a place that is one or a plain integer. A conversion back takes the address
/// alone.
fn changed_capability(
    out: &mut Emitter,
    op: IntOp,
    signed: bool,
    to: u32,
    x: Held,
    y: Held,
) -> Result<(), NoMemory>
    requires room { HasRoom out.old 2 }
    requires to { HasKind out.old to x.kind }
    requires x { Holds out.old x }
    requires y { Holds out.old y }
    requires right { AddressFits (is_shift op) y.kind }
    ensures grown { IfOk result (λ _. Grown out.old out.new) }
    ensures adds { IfOk result (λ _. Adds out.old out.new 2 0) }
    ensures spent { IfOk result (λ _. Spent out.old out.new 2 40) }
    ensures emits { IfOk result (λ _. Emits out.old out.new (address_temps op y.kind)
        (operating.changed_capability op signed x.kind y.kind to x.temp y.temp (length out.old.kinds.items))) }
{
    let n = computed_address(out, op, signed, x, y)?;
    if is_capability(x.kind) {
        out.work(CapWork::SetAddress, to, x.temp, Some(n.temp))
    } else {
        out.convert(to, n.temp, n.kind, x.kind)
    }
}

/// A place's value, changed by a right operand.
pub fn changed(out: &mut Emitter, change: Change, to: u32, x: Held, y: Held) -> Result<(), NoMemory>
    requires room { HasRoom out.old 2 }
    requires to { HasKind out.old to x.kind }
    requires x { Holds out.old x }
    requires y { Holds out.old y }
    requires change { ChangeFits change x.kind y.kind }
    ensures grown { IfOk result (λ _. Grown out.old out.new) }
    ensures adds { IfOk result (λ _. Adds out.old out.new 2 0) }
    ensures spent { IfOk result (λ _. Spent out.old out.new 2 43) }
    ensures emits { IfOk result (λ _. (o : Operation) → Changes change o →
        Emits out.old out.new (changed_temps o x.kind y.kind)
        (operating.changed o x.kind y.kind to x.temp y.temp (length out.old.kinds.items))) }
{
    match change.element {
        Some(size) => moved(out, stride(size, change.op == IntOp::Sub), to, x.temp, y),
        None => match change.computed {
            TacKind::Int(kind) => changed_whole(out, change.op, kind, to, x, y),
            TacKind::Cap(signed) => changed_capability(out, change.op, signed, to, x, y),
        },
    }
}

/// A step by one, up or down; where a pointer is moved, the size of an element.
#[derive(Clone, Copy)]
pub struct Pace {
    pub up: bool,
    pub size: u64,
}

fn step_of(pace: Pace) -> IntOp
    ensures plain { is_shift result ≡ false }
    ensures up { pace.up ≡ true → result ≡ Add }
    ensures down { pace.up ≡ false → result ≡ Sub }
{
    if pace.up { IntOp::Add } else { IntOp::Sub }
}

/// A value moved by one.
pub fn stepped(out: &mut Emitter, pace: Pace, to: u32, x: Held) -> Result<(), NoMemory>
    requires room { HasRoom out.old 1 }
    requires to { HasKind out.old to x.kind }
    requires x { Holds out.old x }
    ensures grown { IfOk result (λ _. Grown out.old out.new) }
    ensures adds { IfOk result (λ _. Adds out.old out.new 1 0) }
    ensures spent { IfOk result (λ _. Spent out.old out.new 1 17) }
    ensures emits { IfOk result (λ _. (o : Operation) → Paces pace x.kind o →
        Emits out.old out.new (stepped_temps o) (operating.stepped o x.kind to x.temp (length out.old.kinds.items))) }
{
    match x.kind {
        TacKind::Int(kind) => {
            let one = out.fresh_constant(x.kind, 1)?;
            out.int(step_of(pace), kind, to, x.temp, one)
        }
        TacKind::Cap(_) => moved_by(out, pace.size, !pace.up, to, x.temp, 1),
    }
}

/// A value moved by one, in a new temp.
pub fn stepped_apart(out: &mut Emitter, pace: Pace, x: Held) -> Result<u32, NoMemory>
    requires room { HasRoom out.old 1 }
    requires x { Holds out.old x }
    ensures has { IfOk result (λ t. HasKind out.new t x.kind) }
    ensures grown { IfOk result (λ _. Grown out.old out.new) }
    ensures adds { IfOk result (λ _. Adds out.old out.new 1 0) }
    ensures spent { IfOk result (λ _. Spent out.old out.new 1 17) }
    ensures next { IfOk result (λ t. t ≡ length out.old.kinds.items) }
    ensures emits { IfOk result (λ t. (o : Operation) → Paces pace x.kind o →
        Emits out.old out.new 1 (operating.stepped o x.kind t x.temp t)) }
{
    let to = out.temp(x.kind)?;
    match x.kind {
        TacKind::Int(kind) => {
            out.constant(to, x.kind, 1)?;
            out.int(step_of(pace), kind, to, x.temp, to)?;
        }
        TacKind::Cap(_) => moved_by(out, pace.size, !pace.up, to, x.temp, 1)?,
    }
    Ok(to)
}
