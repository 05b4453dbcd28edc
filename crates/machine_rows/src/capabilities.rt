//! Operations on capabilities and the checks of accesses: each public call on known values.
ghost use Rattle.cap_ops.specs.Access.{IsAccess};

mod check_vectors;
mod operation_vectors;

use crate::answers::{must_all_hold, wrong_unless};
use cap_concentrate::{bounds_of, pack, unpack};
use cap_ops::{
    Access, Cap, Cause, add, and_perms, check, clear, narrow, narrow_exact, null, seal_entry,
    with_address,
};
use check_vectors::CHECKS;
use operation_vectors::OPERATIONS;

#[derive(Clone, Copy)]
enum Operation {
    WithAddress,
    Add,
    Narrow,
    NarrowExact,
    AndPerms,
    Clear,
    SealEntry,
}

#[derive(Clone, Copy)]
enum Kind {
    Load,
    Store,
    LoadCap,
    StoreCap,
    Jump,
}

fn access(kind: Kind, length: u8, tagged: bool) -> Access
    ensures { IsAccess result }
{
    let length = match length {
        1 => 1,
        2 => 2,
        4 => 4,
        _ => 8,
    };
    match kind {
        Kind::Load => Access::Load(length),
        Kind::Store => Access::Store(length),
        Kind::LoadCap => Access::LoadCap,
        Kind::StoreCap => Access::StoreCap(tagged),
        Kind::Jump => Access::Jump,
    }
}

fn result_of(operation: Operation, c: Cap, argument: u64) -> Cap {
    match operation {
        Operation::WithAddress => with_address(c, argument),
        Operation::Add => add(c, argument),
        Operation::Narrow => narrow(c, argument),
        Operation::NarrowExact => narrow_exact(c, argument),
        Operation::AndPerms => and_perms(c, (argument % (1 << 16)) as u16),
        Operation::Clear => clear(c),
        Operation::SealEntry => seal_entry(c),
    }
}

fn null_has_the_whole_address_space() -> bool {
    let c = null(77);
    let good = !c.tag && pack(c.fields) == 0x0000_1fff_fc01_8004_0000_0000_0000_004d;
    good && bounds_of(c.fields) == (0, 1 << 64)
}

/// An operation, the tag and the bits of its operand, its argument, and the tag and the bits of the result.
type Operated = ((Operation, bool, u128, u64), (bool, u128));

fn operates(&((operation, tag, bits, argument), (wanted_tag, wanted_bits)): &Operated) -> bool {
    let fields = unpack(bits);
    let found = result_of(operation, Cap { tag, fields }, argument);
    found.tag == wanted_tag && pack(found.fields) == wanted_bits
}

/// The first operation that gives another capability.
fn wrong_operation() -> Option<usize> {
    for (at, row) in OPERATIONS.iter().enumerate() {
        if !operates(row) {
            return Some(at);
        }
    }
    None
}

/// The tag and the bits of a capability and an address; the kind of an access, its length, whether its value is tagged,
/// and why it fails.
type Checked = ((bool, u128, u64), (Kind, u8, bool, Option<Cause>));

fn is_checked(&((tag, bits, at), (kind, length, tagged, cause)): &Checked) -> bool {
    let fields = unpack(bits);
    let answer = check(Cap { tag, fields }, at, access(kind, length, tagged));
    match cause {
        Some(cause) => answer == Err(cause),
        None => answer == Ok(at),
    }
}

/// The first check that gives another cause.
fn wrong_check() -> Option<usize> {
    for (at, row) in CHECKS.iter().enumerate() {
        if !is_checked(row) {
            return Some(at);
        }
    }
    None
}

#[test]
fn operations_give_capabilities_and_checks_the_first_cause(rt: HostRuntime) {
    must_all_hold(
        &rt,
        "null",
        wrong_unless(null_has_the_whole_address_space()),
    );
    must_all_hold(&rt, "operations", wrong_operation());
    must_all_hold(&rt, "checks", wrong_check());
}
