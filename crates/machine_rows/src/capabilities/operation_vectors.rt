//! Values of an independent model of the format.

use super::Operation::{self, Add, AndPerms, Clear, Narrow, NarrowExact, SealEntry, WithAddress};

// An operation, the tag and the bits of its operand, its argument, and the tag and the bits of the result.
pub static OPERATIONS: [((Operation, bool, u128, u64), (bool, u128)); 100] = [
    (
        (
            WithAddress,
            true,
            0x5a1ffffcbd42eb00177ac000000000,
            0x177ac0000007d0,
        ),
        (true, 0x5a1ffffcbd42eb00177ac0000007d0),
    ),
    (
        (WithAddress, false, 0x1ffffc018004000000000000004d, 1023),
        (false, 0x1ffffc01800400000000000003ff),
    ),
    (
        (WithAddress, true, 0x31ffffc0000000000000000010000, 1),
        (false, 0x31ffffc0000000000000000000001),
    ),
    (
        (WithAddress, true, 0x31ffffef0c0060000000000000000, 8),
        (true, 0x31ffffef0c0060000000000000008),
    ),
    (
        (
            WithAddress,
            false,
            0x1ffffc02bffe7fffffffffffffff,
            0xfffffffffffffc00,
        ),
        (false, 0x1ffffc02bffefffffffffffffc00),
    ),
    (
        (
            WithAddress,
            true,
            0x7f1ffff400bffe000000fffffffff0,
            0x5989c526293741f7,
        ),
        (false, 0x7f1ffff400bffe5989c526293741f7),
    ),
    (
        (WithAddress, true, 0x681ffffc0280020000000000010001, 16),
        (true, 0x681ffffc0280020000000000000010),
    ),
    (
        (
            WithAddress,
            false,
            0x1ffffc018004000000000000004d,
            0xfffffffffffffc00,
        ),
        (false, 0x1ffffc018004fffffffffffffc00),
    ),
    (
        (
            WithAddress,
            true,
            0x1ffff7f0e379000000c6f885ce63,
            0xffffffffffffffff,
        ),
        (false, 0x1ffff7f0e379ffffffffffffffff),
    ),
    (
        (WithAddress, true, 0x7d1ffffc8e40010000000000000000, 4097),
        (true, 0x7d1ffffc8e40010000000000001001),
    ),
    (
        (WithAddress, false, 0x1ffffdd080010000000000001190, 1023),
        (false, 0x1ffffdd0800100000000000003ff),
    ),
    (
        (WithAddress, true, 0x31ffff40000000000000000010004, 0),
        (false, 0x31ffff40000000000000000000000),
    ),
    (
        (WithAddress, true, 0x151ffffe1c00040000000000100000, 1048576),
        (true, 0x151ffffe1c00040000000000100000),
    ),
    (
        (WithAddress, false, 0x1ffffc0180040000000000000000, 104615),
        (false, 0x1ffffc01800400000000000198a7),
    ),
    (
        (WithAddress, true, 0x151ffffc25008d5a60116480000000, 40),
        (false, 0x151ffffc25008d0000000000000028),
    ),
    (
        (Add, true, 0x6a1fffff5307450000e8c000000000, 8),
        (true, 0x6a1fffff5307450000e8c000000008),
    ),
    (
        (
            Add,
            true,
            0x6f1ffffc013ffb7fffffffffffffff,
            0x7fffffffffffffff,
        ),
        (false, 0x6f1ffffc013ffbfffffffffffffffe),
    ),
    (
        (Add, false, 0x151ffff4018ffb7fffffffffffffff, 109567),
        (false, 0x151ffff4018ffb800000000001abfe),
    ),
    (
        (Add, true, 0x31ffffc0140060000000000000005, 41),
        (true, 0x31ffffc014006000000000000002e),
    ),
    (
        (Add, true, 0x151ffff1c59e3d00000000053d9e3d, 18183),
        (false, 0x151ffff1c59e3d00000000053de544),
    ),
    (
        (Add, false, 0x1ffffc018004000000000000004d, 41),
        (false, 0x1ffffc0180040000000000000076),
    ),
    (
        (Add, true, 0x151ffffe1c00040000000000100000, 17583),
        (true, 0x151ffffe1c000400000000001044af),
    ),
    (
        (Add, true, 0x31ffff40000000000000000010004, 8),
        (false, 0x31ffff4000000000000000001000c),
    ),
    (
        (Add, false, 0x461ffff40340060000000000010000, 0),
        (false, 0x461ffff40340060000000000010000),
    ),
    (
        (Add, true, 0x7d1ffff80a00000000000000010000, 8),
        (true, 0x7d1ffff80a00000000000000010008),
    ),
    (
        (Add, true, 0x31ffff40000000000000000010004, 1),
        (false, 0x31ffff40000000000000000010005),
    ),
    (
        (Add, false, 0x1ffffc018004000000000000004d, 1),
        (false, 0x1ffffc018004000000000000004e),
    ),
    (
        (Add, true, 0x641ffffc007ffd7fffffffffffffff, 41),
        (true, 0x641ffffc007ffd8000000000000028),
    ),
    (
        (Add, true, 0x7d1ffff7fe00010000000000000001, 2001),
        (false, 0x7d1ffff7fe000100000000000007d2),
    ),
    (
        (
            Add,
            false,
            0x1ffffc018004000000000000004d,
            0x70f4bfaaff04813,
        ),
        (false, 0x1ffffc018004070f4bfaaff04860),
    ),
    (
        (
            Narrow,
            true,
            0x31ffffdfc8704000f710470000000,
            0x2583550e4f6c212a,
        ),
        (false, 0x31ffffdfc8704000f710470000000),
    ),
    (
        (Narrow, true, 0x151ffffc0140040000000000000000, 0),
        (true, 0x151ffff80000000000000000000000),
    ),
    (
        (Narrow, false, 0x1ffffc018004000000000000004d, 1023),
        (false, 0x1ffffc018004000000000000004d),
    ),
    (
        (
            Narrow,
            true,
            0x7d1ffffe9700010000000000000000,
            0xfffffffffffffc00,
        ),
        (false, 0x7d1ffffe9700010000000000000000),
    ),
    (
        (Narrow, true, 0x31ffffc007ffc000000fffffffff0, 1023),
        (true, 0x31ffff8fbfff0000000fffffffff0),
    ),
    (
        (
            Narrow,
            false,
            0x1ffffc018004000000000000004d,
            0x39d09bfe37dc4ae0,
        ),
        (false, 0x1ffffc018004000000000000004d),
    ),
    (
        (Narrow, true, 0x31ffff400fffa7fffffffffffffff, 40),
        (false, 0x31ffff400fffa7fffffffffffffff),
    ),
    (
        (Narrow, true, 0x1ffffc0340070000000000100008, 1048584),
        (true, 0x1ffffc0250000000000000100008),
    ),
    (
        (Narrow, false, 0x1a1ffffc0100028000000000000000, 40),
        (false, 0x1a1ffffc0100028000000000000000),
    ),
    (
        (
            Narrow,
            true,
            0x2e1ffffc007ffe000000fffffffff0,
            0x100000007c0,
        ),
        (false, 0x2e1ffffc007ffe000000fffffffff0),
    ),
    (
        (Narrow, true, 0x6d1ffffc017ffb7fffffffffffffff, 1),
        (true, 0x6d1ffff8003fff7fffffffffffffff),
    ),
    (
        (Narrow, false, 0x1ffff80140000000000058000000, 40),
        (false, 0x1ffff80140000000000058000000),
    ),
    (
        (
            Narrow,
            true,
            0x7d1fffff2c80060000000000000000,
            0xfffffffffffffc00,
        ),
        (false, 0x7d1fffff2c80060000000000000000),
    ),
    (
        (Narrow, true, 0x6f1ffffc0340000000000000010000, 4097),
        (true, 0x6f1ffffc0200000000000000010000),
    ),
    (
        (
            Narrow,
            false,
            0x1ffffc018004000000000000004d,
            0xd4bef6d2470e707a,
        ),
        (false, 0x1ffffc018004000000000000004d),
    ),
    (
        (NarrowExact, true, 0x31ffffc0000000000000000010000, 4097),
        (false, 0x31ffffc0000000000000000010000),
    ),
    (
        (NarrowExact, false, 0x1ffffc0180040000000000000000, 40),
        (false, 0x1ffffc0180040000000000000000),
    ),
    (
        (NarrowExact, true, 0x1ffffc0080070000000000010001, 1),
        (true, 0x1ffff80080010000000000010001),
    ),
    (
        (
            NarrowExact,
            true,
            0x181ffffc033fff7fffffffffffffff,
            0xffffffffffffffff,
        ),
        (false, 0x181ffffc033fff7fffffffffffffff),
    ),
    (
        (NarrowExact, false, 0x7d1ffff4d7000000000000000027c7, 41),
        (false, 0x7d1ffff4d7000000000000000027c7),
    ),
    (
        (NarrowExact, true, 0x7f1ffffcc6c422000000108d56bfc0, 1023),
        (true, 0x7f1ffff8efffc0000000108d56bfc0),
    ),
    (
        (
            NarrowExact,
            true,
            0x151ffffe1c00040000000000100000,
            0x44013aa76345fae1,
        ),
        (false, 0x151ffffe1c00040000000000100000),
    ),
    (
        (NarrowExact, false, 0x1ffffc018004000000000000004d, 1024),
        (false, 0x1ffffc018004000000000000004d),
    ),
    (
        (NarrowExact, true, 0x291ffffe8a2a25000060d941f54455, 0),
        (true, 0x291ffff9154455000060d941f54455),
    ),
    (
        (NarrowExact, true, 0x1ffffc1e40850000000000100000, 4097),
        (false, 0x1ffffc1e40850000000000100000),
    ),
    (
        (NarrowExact, false, 0x31ffffc017ffa7fffffffffffffff, 8),
        (false, 0x31ffffc017ffa7fffffffffffffff),
    ),
    (
        (NarrowExact, true, 0x7d1ffffc03a0028000000000000000, 1),
        (true, 0x7d1ffff80040008000000000000000),
    ),
    (
        (
            NarrowExact,
            true,
            0x7d1ffff80a00000000000000010000,
            0xffffffffffffffff,
        ),
        (false, 0x7d1ffff80a00000000000000010000),
    ),
    (
        (NarrowExact, false, 0x1ffffc018004000000000000004d, 0),
        (false, 0x1ffffc018004000000000000004d),
    ),
    (
        (NarrowExact, true, 0x31ffffea69b3600001c46cc919dcc, 1023),
        (true, 0x31ffff872ddcc00001c46cc919dcc),
    ),
    (
        (AndPerms, true, 0x31ffffe00c7fd000000fffffffff0, 125),
        (true, 0x11ffffe00c7fd000000fffffffff0),
    ),
    (
        (AndPerms, false, 0x1ffffc018004000000000000004d, 0),
        (false, 0x1ffffc018004000000000000004d),
    ),
    (
        (AndPerms, true, 0x31ffff40000000000000000010004, 4095),
        (false, 0x31ffff40000000000000000010004),
    ),
    (
        (AndPerms, true, 0x31ffffda14004000000000000040e, 4095),
        (true, 0x31ffffda14004000000000000040e),
    ),
    (
        (AndPerms, false, 0x2c1ffffc4041040000000000100000, 125),
        (false, 0x2c1ffffc4041040000000000100000),
    ),
    (
        (AndPerms, true, 0x31ffff40000000000000000010004, 0),
        (false, 0x31ffff40000000000000000010004),
    ),
    (
        (AndPerms, true, 0x7f1ffffc00bff9000000fffffffff0, 0),
        (true, 0x1ffffc00bff9000000fffffffff0),
    ),
    (
        (AndPerms, false, 0x1ffffc0180040000000000000000, 1),
        (false, 0x1ffffc0180040000000000000000),
    ),
    (
        (AndPerms, true, 0x151ffff400c0060000000000000000, 4095),
        (false, 0x151ffff400c0060000000000000000),
    ),
    (
        (AndPerms, true, 0x7d1ffffc0000020000000000100008, 1),
        (true, 0x11ffffc0000020000000000100008),
    ),
    (
        (AndPerms, false, 0x1ffffc0180040000000000000000, 125),
        (false, 0x1ffffc0180040000000000000000),
    ),
    (
        (AndPerms, true, 0x31ffff3730a2d000138a964f34a2d, 21),
        (false, 0x31ffff3730a2d000138a964f34a2d),
    ),
    (
        (AndPerms, true, 0x31ffffcdec81208a20320481b30aa, 4095),
        (true, 0x31ffffcdec81208a20320481b30aa),
    ),
    (
        (AndPerms, false, 0x151ffffc0380020000000000000000, 125),
        (false, 0x151ffffc0380020000000000000000),
    ),
    (
        (AndPerms, true, 0x1ffff403400700007a441b714506, 0),
        (false, 0x1ffff403400700007a441b714506),
    ),
    (
        (Clear, true, 0x7f1ffffc4241000000000000010000, 1),
        (false, 0x7f1ffffc4241000000000000010000),
    ),
    (
        (Clear, false, 0x1ffffc0180040000000000000000, 0),
        (false, 0x1ffffc0180040000000000000000),
    ),
    (
        (Clear, true, 0x7d1ffff80a00000000000000010000, 7729),
        (false, 0x7d1ffff80a00000000000000010000),
    ),
    (
        (Clear, false, 0x151fffffcc9f5400000005f53bdb49, 16),
        (false, 0x151fffffcc9f5400000005f53bdb49),
    ),
    (
        (Clear, true, 0x511ffffc0340060000388266e9e243, 4097),
        (false, 0x511ffffc0340060000388266e9e243),
    ),
    (
        (
            Clear,
            false,
            0x7d1ffff44100f8000000fffffffff0,
            0xffffffffffffffff,
        ),
        (false, 0x7d1ffff44100f8000000fffffffff0),
    ),
    (
        (Clear, true, 0x1ffffc0200078000000000000000, 1023),
        (false, 0x1ffffc0200078000000000000000),
    ),
    (
        (
            Clear,
            false,
            0x1ffffc0180040000000000000000,
            0x44e91eb915003567,
        ),
        (false, 0x1ffffc0180040000000000000000),
    ),
    (
        (Clear, true, 0x31ffff40000000000000000010004, 67540),
        (false, 0x31ffff40000000000000000010004),
    ),
    (
        (Clear, false, 0x31ffff40280058000000000000000, 0),
        (false, 0x31ffff40280058000000000000000),
    ),
    (
        (SealEntry, true, 0x151ffffe074004000011d9c58da608, 8),
        (false, 0x151ffffe074004000011d9c58da608),
    ),
    (
        (
            SealEntry,
            false,
            0x1ffffc018004000000000000004d,
            0xfffffffffffffc00,
        ),
        (false, 0x1ffffc018004000000000000004d),
    ),
    (
        (SealEntry, true, 0x31ffffc0000000000000000010000, 1023),
        (true, 0x31ffff40000000000000000010000),
    ),
    (
        (SealEntry, true, 0x151ffffc50113b00000000000489ee, 297454),
        (false, 0x151ffffc50113b00000000000489ee),
    ),
    (
        (SealEntry, false, 0x151ffffc0210040000000000010001, 0),
        (false, 0x151ffffc0210040000000000010001),
    ),
    (
        (SealEntry, true, 0x31ffffc0000000000000000010000, 67536),
        (true, 0x31ffff40000000000000000010000),
    ),
    (
        (SealEntry, true, 0x151ffffc02c0050000000033c1a100, 1),
        (false, 0x151ffffc02c0050000000033c1a100),
    ),
    (
        (SealEntry, false, 0x1ffffc018004000000000000004d, 40),
        (false, 0x1ffffc018004000000000000004d),
    ),
    (
        (SealEntry, true, 0x5e1ffffffe40060000000000000000, 4097),
        (true, 0x5e1ffff7fe40060000000000000000),
    ),
    (
        (SealEntry, true, 0x31ffff40000000000000000010004, 4097),
        (false, 0x31ffff40000000000000000010004),
    ),
    (
        (SealEntry, false, 0x1ffffc018004000000000000004d, 1024),
        (false, 0x1ffffc018004000000000000004d),
    ),
    (
        (
            SealEntry,
            true,
            0x31ffffc0000000000000000010000,
            0x119847ae77749346,
        ),
        (true, 0x31ffff40000000000000000010000),
    ),
    (
        (SealEntry, true, 0x31ffff40000000000000000010004, 40),
        (false, 0x31ffff40000000000000000010004),
    ),
    (
        (
            SealEntry,
            false,
            0x31ffffc00fffa000000fffffffff0,
            0x89877503f810162b,
        ),
        (false, 0x31ffffc00fffa000000fffffffff0),
    ),
    (
        (SealEntry, true, 0x7f1fffff6e6db2000000007bb6c1c0, 16),
        (true, 0x7f1ffff76e6db2000000007bb6c1c0),
    ),
];
