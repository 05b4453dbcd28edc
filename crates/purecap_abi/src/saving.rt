//! What stands in the saved bytes of a frame.

ghost use Rattle.std.specs.Prelude.{◌≡◌, ◌+◌, ◌*◌, ◌<◌, ◌≤◌, length, None, Some, if◌then◌else◌};
ghost use Rattle.purecap_abi.specs.Saving.{is_register, is_home, kept_homes, slots_to, slot_count, keeps_stack};
ghost use Rattle.purecap_abi.specs.Saving.{stack_bytes, kept_bytes, IsFor, registers_at, stack_at, slots_at};

use crate::offsets::Saved;
use obj_mem::Frame;
use reg_alloc::{Home, Places};

/// The registers that the callee keeps, where it uses them.
pub const KEPT: [u8; 12] = [8, 9, 18, 19, 20, 21, 22, 23, 24, 25, 26, 27];

// Whether a home is a register.
fn is_register(h: Home, register: u8) -> bool
    ensures { result ≡ is_register register h }
{
    match h {
        Home::Register(number) => number == register,
        Home::Slot(_) => false,
    }
}

/// Whether a register is some home.
pub fn is_home(places: &Places, register: u8) -> bool
    ensures { result ≡ is_home places.now.homes register }
{
    let homes = places.homes.as_slice();
    homes.iter().any(|h| is_register(*h, register))
}

/// The number of kept registers that are homes.
pub fn registers_of(places: &Places) -> u64
    ensures value { result ≡ length (kept_homes places.now.homes) }
    ensures few { result ≤ 12 }
{
    let mut count = 0;
    for register in KEPT {
        count += u64::from(is_home(places, register));
    }
    count
}

// The number of slots up to a home.
fn slots_to(h: Home) -> u64
    ensures value { result ≡ slots_to h }
    ensures small { result ≤ 4294967296 }
{
    match h {
        Home::Register(_) => 0,
        Home::Slot(s) => u64::from(s) + 1,
    }
}

/// The number of slots, up to the last that is a home.
#[tactic(auto, using(crate::proofs::Counts::slot_count_more, crate::proofs::Counts::slot_count_none))]
pub fn slots_of(places: &Places) -> u64
    ensures value { result ≡ slot_count places.now.homes }
    ensures small { result ≤ 4294967296 }
{
    let mut count = 0;
    for home in places.homes.as_slice() {
        count = count.max(slots_to(*home));
    }
    count
}

/// Whether the frame keeps the caller's stack: its own address can't be moved back by a number.
pub fn keeps_stack(align: u64) -> bool
    ensures { result ≡ keeps_stack align }
{
    align > 16
}

/// The bytes of the places of 16 bytes behind the outgoing arguments.
pub fn kept_bytes(align: u64, places: &Places) -> u64
    ensures { result ≡ kept_bytes align places.now.homes }
{
    let stack = if keeps_stack(align) { 16 } else { 0 };
    16 * registers_of(places) + stack + 16 * slots_of(places)
}

/// How the saved bytes of a frame for these places are used.
pub fn saved(f: &Frame, places: &Places) -> Saved
    requires { IsFor places.now.homes f.now }
    ensures registers_at { result.registers_at ≡ registers_at places.now.homes f.now }
    ensures registers { result.registers ≡ length (kept_homes places.now.homes) }
    ensures stack_at { result.stack_at ≡ stack_at places.now.homes f.now }
    ensures slots_at { result.slots_at ≡ slots_at places.now.homes f.now }
    ensures inside { result.slots_at + 16 * slot_count places.now.homes ≡ f.now.saved }
    ensures registers_near { result.registers_at ≤ 67108880 }
    ensures slots_near { result.slots_at ≤ 67109088 }
    ensures few { result.registers ≤ 12 }
{
    let registers_at = f.saved - kept_bytes(f.align, places);
    let registers = registers_of(places);
    let behind = registers_at + 16 * registers;
    if keeps_stack(f.align) {
        Saved {
            registers_at,
            registers,
            stack_at: Some(behind),
            slots_at: behind + 16,
        }
    } else {
        Saved {
            registers_at,
            registers,
            stack_at: None,
            slots_at: behind,
        }
    }
}
