//! Values of an independent model of the format.

use super::Kind::{self, Jump, Load, LoadCap, Store, StoreCap};
use cap_ops::Cause;

// The tag and the bits of a capability and an address; the kind of an access, its length, whether its value is tagged,
// and why it fails.
pub static CHECKS: [((bool, u128, u64), (Kind, u8, bool, Option<Cause>)); 100] = [
    (
        (false, 0x1ffffc0180040000000000000000, 16),
        (Load, 2, true, Some(Cause::Tag)),
    ),
    (
        (false, 0x1ffffc018004000000000000004d, 12),
        (Jump, 8, true, Some(Cause::Tag)),
    ),
    (
        (false, 0x1ffffc0180040000000000000000, 0),
        (Store, 1, true, Some(Cause::Tag)),
    ),
    (
        (false, 0x4a1ffff80400000000000000010000, 65548),
        (LoadCap, 4, false, Some(Cause::Tag)),
    ),
    (
        (false, 0x1ffffc0180040000000000000000, 0),
        (StoreCap, 2, false, Some(Cause::Tag)),
    ),
    (
        (false, 0x1ffffc0180040000000000000000, 50),
        (Load, 8, true, Some(Cause::Tag)),
    ),
    (
        (false, 0x4d1ffffc0000000000000000010000, 65536),
        (Jump, 4, true, Some(Cause::Tag)),
    ),
    (
        (false, 0x1ffffc018004000000000000004d, 0xffffffffffffffff),
        (Store, 2, false, Some(Cause::Tag)),
    ),
    (
        (false, 0x1ffffc0180040000000000000000, 1),
        (LoadCap, 1, false, Some(Cause::Tag)),
    ),
    (
        (false, 0x1ffffc018004000000000000004d, 0xfffffffffffffffc),
        (StoreCap, 1, true, Some(Cause::Tag)),
    ),
    (
        (false, 0x1ffffc0180040000000000000000, 16),
        (Load, 1, false, Some(Cause::Tag)),
    ),
    (
        (false, 0x1ffffc0180040000000000000000, 0xfffffffffffffff8),
        (Jump, 8, false, Some(Cause::Tag)),
    ),
    (
        (false, 0x1ffffc018004000000000000004d, 16),
        (Store, 1, false, Some(Cause::Tag)),
    ),
    (
        (false, 0x1ffffc018004000000000000004d, 1),
        (LoadCap, 4, false, Some(Cause::Tag)),
    ),
    (
        (false, 0x1ffffc0180040000000000000000, 0xfffffffffffffff0),
        (StoreCap, 2, false, Some(Cause::Tag)),
    ),
    (
        (false, 0x1ffffc018004000000000000004d, 0xfffffffffffffffc),
        (Load, 8, true, Some(Cause::Tag)),
    ),
    (
        (true, 0x3f1ffff40000000000000000010000, 65535),
        (StoreCap, 4, false, Some(Cause::Sealed)),
    ),
    (
        (true, 0x31ffff40000000000000000010004, 69631),
        (Jump, 1, true, Some(Cause::Sealed)),
    ),
    (
        (true, 0xa1ffff00400000000000000010000, 65536),
        (LoadCap, 2, true, Some(Cause::Sealed)),
    ),
    (
        (true, 0x31ffff40000000000000000010004, 69628),
        (Load, 8, true, Some(Cause::Sealed)),
    ),
    (
        (true, 0x31ffff40000000000000000010004, 65552),
        (Store, 8, true, Some(Cause::Sealed)),
    ),
    (
        (true, 0x31ffff40000000000000000010004, 65535),
        (StoreCap, 1, true, Some(Cause::Sealed)),
    ),
    (
        (true, 0x681ffff00a00000000000000010000, 65572),
        (Jump, 1, true, Some(Cause::Sealed)),
    ),
    (
        (true, 0x5d1ffff00400000000000000010000, 65535),
        (LoadCap, 1, true, Some(Cause::Sealed)),
    ),
    (
        (true, 0x451ffff40000000000000000010000, 65536),
        (Load, 8, false, Some(Cause::Sealed)),
    ),
    (
        (true, 0x31ffff40000000000000000010004, 65535),
        (Store, 2, true, Some(Cause::Sealed)),
    ),
    (
        (true, 0x31ffff40000000000000000010004, 65537),
        (StoreCap, 1, true, Some(Cause::Sealed)),
    ),
    (
        (true, 0x581ffff00a00000000000000010000, 65552),
        (Jump, 4, true, Some(Cause::Sealed)),
    ),
    (
        (true, 0x6e1ffff40000000000000000010000, 65598),
        (LoadCap, 2, true, Some(Cause::Sealed)),
    ),
    (
        (true, 0xe1ffff00a00000000000000010000, 65550),
        (Load, 2, true, Some(Cause::Sealed)),
    ),
    (
        (true, 0x31ffff40000000000000000010004, 65552),
        (Store, 1, false, Some(Cause::Sealed)),
    ),
    (
        (true, 0x601ffff80a00000000000000010000, 65596),
        (Load, 4, false, Some(Cause::Load)),
    ),
    (
        (true, 0x721ffff80400000000000000010000, 65548),
        (LoadCap, 2, true, Some(Cause::Load)),
    ),
    (
        (true, 0x391ffff80a00000000000000010000, 65567),
        (Load, 8, false, Some(Cause::Load)),
    ),
    (
        (true, 0x5a1ffff80400000000000000010000, 65535),
        (LoadCap, 1, false, Some(Cause::Load)),
    ),
    (
        (true, 0x291ffffc0000000000000000010000, 65537),
        (Load, 2, true, Some(Cause::Load)),
    ),
    (
        (true, 0x481ffff80a00000000000000010000, 65572),
        (LoadCap, 2, true, Some(Cause::Load)),
    ),
    (
        (true, 0x151ffffe1c00040000000000100000, 1148656),
        (Store, 1, false, Some(Cause::Store)),
    ),
    (
        (true, 0x31ffffc0000000000000000010000, 69632),
        (StoreCap, 2, false, Some(Cause::Store)),
    ),
    (
        (true, 0x151ffff80a00000000000000010000, 65572),
        (Store, 4, false, Some(Cause::Store)),
    ),
    (
        (true, 0x151ffffe1c00040000000000100000, 1148656),
        (StoreCap, 8, false, Some(Cause::Store)),
    ),
    (
        (true, 0x51ffffc0000000000000000010000, 65535),
        (Store, 4, true, Some(Cause::Store)),
    ),
    (
        (true, 0x101ffff80a00000000000000010000, 65537),
        (StoreCap, 2, false, Some(Cause::Store)),
    ),
    (
        (true, 0x151ffffe1c00040000000000100000, 1048576),
        (Store, 1, false, Some(Cause::Store)),
    ),
    (
        (true, 0x311ffff80400000000000000010000, 65552),
        (StoreCap, 2, true, Some(Cause::Store)),
    ),
    (
        (true, 0x5c1ffff80400000000000000010000, 65551),
        (StoreCap, 1, true, Some(Cause::StoreCap)),
    ),
    (
        (true, 0xf1ffff80400000000000000010000, 65552),
        (StoreCap, 1, true, Some(Cause::StoreCap)),
    ),
    (
        (true, 0x1a1ffffc0000000000000000010000, 65536),
        (StoreCap, 4, true, Some(Cause::StoreCap)),
    ),
    (
        (true, 0x511ffff80400000000000000010000, 65552),
        (Jump, 4, false, Some(Cause::Execute)),
    ),
    (
        (true, 0x151ffffe1c00040000000000100000, 1048617),
        (Jump, 2, true, Some(Cause::Execute)),
    ),
    (
        (true, 0xd1ffff80400000000000000010000, 65552),
        (Jump, 1, true, Some(Cause::Execute)),
    ),
    (
        (true, 0x381ffff80a00000000000000010000, 65552),
        (Jump, 4, false, Some(Cause::Execute)),
    ),
    (
        (true, 0x7d1ffff80a00000000000000010000, 65572),
        (LoadCap, 2, true, Some(Cause::Bounds)),
    ),
    (
        (true, 0x671ffff80a00000000000000010000, 65576),
        (Load, 4, false, Some(Cause::Bounds)),
    ),
    (
        (true, 0x91ffff80a00000000000000010000, 65599),
        (Store, 4, false, Some(Cause::Bounds)),
    ),
    (
        (true, 0x6a1ffffc0000000000000000010000, 69630),
        (Jump, 2, false, Some(Cause::Bounds)),
    ),
    (
        (true, 0x7f1ffff80a00000000000000010000, 65599),
        (StoreCap, 2, false, Some(Cause::Bounds)),
    ),
    (
        (true, 0x161ffff80400000000000000010000, 65589),
        (LoadCap, 2, false, Some(Cause::Bounds)),
    ),
    (
        (true, 0x7d1ffff80a00000000000000010000, 65576),
        (Load, 4, false, Some(Cause::Bounds)),
    ),
    (
        (true, 0x7d1ffff80a00000000000000010000, 65576),
        (Store, 1, false, Some(Cause::Bounds)),
    ),
    (
        (true, 0x31ffffc0000000000000000010000, 69632),
        (Jump, 8, false, Some(Cause::Bounds)),
    ),
    (
        (true, 0x7d1ffff80a00000000000000010000, 65572),
        (StoreCap, 8, false, Some(Cause::Bounds)),
    ),
    (
        (true, 0x151ffffe1c00040000000000100000, 1048575),
        (LoadCap, 4, false, Some(Cause::Bounds)),
    ),
    (
        (true, 0x751ffff80a00000000000000010000, 65535),
        (Load, 2, true, Some(Cause::Bounds)),
    ),
    (
        (true, 0x7d1ffff80a00000000000000010000, 65535),
        (Store, 1, false, Some(Cause::Bounds)),
    ),
    (
        (true, 0x1a1ffff80a00000000000000010000, 65590),
        (Jump, 4, true, Some(Cause::Bounds)),
    ),
    (
        (true, 0x7d1ffff80a00000000000000010000, 65575),
        (StoreCap, 1, true, Some(Cause::Bounds)),
    ),
    (
        (true, 0x251ffffc0000000000000000010000, 65572),
        (LoadCap, 1, false, Some(Cause::Align)),
    ),
    (
        (true, 0x2e1ffffc0000000000000000010000, 65537),
        (Store, 8, true, Some(Cause::Align)),
    ),
    (
        (true, 0x121ffff80400000000000000010000, 65537),
        (Jump, 1, true, Some(Cause::Align)),
    ),
    (
        (true, 0x541ffffc0000000000000000010000, 65537),
        (Load, 4, true, Some(Cause::Align)),
    ),
    (
        (true, 0x3f1ffff80a00000000000000010000, 65560),
        (StoreCap, 1, true, Some(Cause::Align)),
    ),
    (
        (true, 0x2c1ffffc0000000000000000010000, 65580),
        (LoadCap, 4, false, Some(Cause::Align)),
    ),
    (
        (true, 0x7d1ffff80a00000000000000010000, 65541),
        (Store, 4, true, Some(Cause::Align)),
    ),
    (
        (true, 0x761ffff80a00000000000000010000, 65537),
        (Jump, 2, false, Some(Cause::Align)),
    ),
    (
        (true, 0x151ffffe1c00040000000000100000, 1048637),
        (Load, 4, false, Some(Cause::Align)),
    ),
    (
        (true, 0x7d1ffff80a00000000000000010000, 65543),
        (StoreCap, 8, false, Some(Cause::Align)),
    ),
    (
        (true, 0x461ffffc0000000000000000010000, 65561),
        (LoadCap, 8, false, Some(Cause::Align)),
    ),
    (
        (true, 0x791ffffc0000000000000000010000, 65537),
        (Store, 4, true, Some(Cause::Align)),
    ),
    (
        (true, 0x421ffff80400000000000000010000, 65537),
        (Jump, 8, false, Some(Cause::Align)),
    ),
    (
        (true, 0x451ffffc0000000000000000010000, 65537),
        (Load, 2, true, Some(Cause::Align)),
    ),
    (
        (true, 0x7d1ffff80a00000000000000010000, 65537),
        (StoreCap, 8, true, Some(Cause::Align)),
    ),
    (
        (true, 0x261ffff80400000000000000010000, 65536),
        (LoadCap, 4, false, None),
    ),
    (
        (true, 0x151ffffe1c00040000000000100000, 1148656),
        (Load, 4, true, None),
    ),
    (
        (true, 0x5a1ffff80a00000000000000010000, 65556),
        (Jump, 8, false, None),
    ),
    (
        (true, 0x7d1ffff80a00000000000000010000, 65552),
        (StoreCap, 1, true, None),
    ),
    (
        (true, 0x791ffffc0000000000000000010000, 69616),
        (Store, 1, false, None),
    ),
    (
        (true, 0x7d1ffff80a00000000000000010000, 65552),
        (LoadCap, 8, true, None),
    ),
    (
        (true, 0x161ffffc0000000000000000010000, 69630),
        (Load, 2, false, None),
    ),
    (
        (true, 0x31ffffc0000000000000000010000, 65536),
        (Jump, 4, false, None),
    ),
    (
        (true, 0x6b1ffff80400000000000000010000, 65536),
        (StoreCap, 4, false, None),
    ),
    (
        (true, 0x7d1ffff80a00000000000000010000, 65575),
        (Store, 1, false, None),
    ),
    (
        (true, 0x151ffffe1c00040000000000100000, 1048576),
        (LoadCap, 2, true, None),
    ),
    (
        (true, 0x1c1ffff80400000000000000010000, 65548),
        (Load, 4, false, None),
    ),
    (
        (true, 0x7b1ffffc0000000000000000010000, 65552),
        (Jump, 1, true, None),
    ),
    (
        (true, 0x7d1ffff80a00000000000000010000, 65536),
        (StoreCap, 1, true, None),
    ),
    (
        (true, 0x7d1ffff80a00000000000000010000, 65572),
        (Store, 4, false, None),
    ),
    (
        (true, 0x751ffffc0000000000000000010000, 65536),
        (LoadCap, 1, true, None),
    ),
    (
        (true, 0x441ffff80a00000000000000010000, 65572),
        (Load, 4, true, None),
    ),
    (
        (true, 0x121ffff80a00000000000000010000, 65572),
        (Jump, 1, true, None),
    ),
];
