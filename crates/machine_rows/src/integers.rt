//! C's integers: values of an independent model.

use crate::answers::must_all_hold;
use ck_int::CmpOp::*;
use ck_int::IntKind::*;
use ck_int::IntOp::*;
use ck_int::*;

// Values of an independent model: a kind, a number and what is kept of it.
const WRAPPED: [(IntKind, i128, u64); 49] = [
    (Bool, 0, 0),
    (Bool, 1, 1),
    (Bool, 2, 1),
    (Bool, -1, 1),
    (Bool, 0x1_0000_0000_0000_0000, 1),
    (Bool, 0x10_0000_0000_0000_0000_0000_0000, 1),
    (I8, -1, 0xffff_ffff_ffff_ffff),
    (I8, 0x7f, 0x7f),
    (I8, 0x80, 0xffff_ffff_ffff_ff80),
    (I8, -0x81, 0x7f),
    (I8, 0x105, 5),
    (U8, -1, 0xff),
    (U8, 0x7f, 0x7f),
    (U8, 0x80, 0x80),
    (U8, -0x81, 0x7f),
    (U8, 0x105, 5),
    (I16, -1, 0xffff_ffff_ffff_ffff),
    (I16, 0x7fff, 0x7fff),
    (I16, 0x8000, 0xffff_ffff_ffff_8000),
    (I16, -0x8001, 0x7fff),
    (I16, 0x1_0005, 5),
    (U16, -1, 0xffff),
    (U16, 0x7fff, 0x7fff),
    (U16, 0x8000, 0x8000),
    (U16, -0x8001, 0x7fff),
    (U16, 0x1_0005, 5),
    (I32, -1, 0xffff_ffff_ffff_ffff),
    (I32, 0x7fff_ffff, 0x7fff_ffff),
    (I32, 0x8000_0000, 0xffff_ffff_8000_0000),
    (I32, -0x8000_0001, 0x7fff_ffff),
    (I32, 0x1_0000_0005, 5),
    (U32, -1, 0xffff_ffff),
    (U32, 0x7fff_ffff, 0x7fff_ffff),
    (U32, 0x8000_0000, 0x8000_0000),
    (U32, -0x8000_0001, 0x7fff_ffff),
    (U32, 0x1_0000_0005, 5),
    (I64, -1, 0xffff_ffff_ffff_ffff),
    (I64, 0x7fff_ffff_ffff_ffff, 0x7fff_ffff_ffff_ffff),
    (I64, 0x8000_0000_0000_0000, 0x8000_0000_0000_0000),
    (I64, -0x8000_0000_0000_0001, 0x7fff_ffff_ffff_ffff),
    (I64, 0x1_0000_0000_0000_0005, 5),
    (U64, -1, 0xffff_ffff_ffff_ffff),
    (U64, 0x7fff_ffff_ffff_ffff, 0x7fff_ffff_ffff_ffff),
    (U64, 0x8000_0000_0000_0000, 0x8000_0000_0000_0000),
    (U64, -0x8000_0000_0000_0001, 0x7fff_ffff_ffff_ffff),
    (U64, 0x1_0000_0000_0000_0005, 5),
    (
        I32,
        0x7fff_ffff_ffff_ffff_ffff_ffff_ffff_ffff,
        0xffff_ffff_ffff_ffff,
    ),
    (U16, -0x8000_0000_0000_0000_0000_0000_0000_0000, 0),
    (
        I32,
        -0x10_0000_0000_0000_0000_0000_0003,
        0xffff_ffff_ffff_fffd,
    ),
];

// Values of an independent model: the kinds from and to, the value and what is kept of it.
const CONVERTED: [(IntKind, IntKind, u64, u64); 30] = [
    (I32, U32, 0xffff_ffff_ffff_ffff, 0xffff_ffff),
    (U32, I32, 0xffff_ffff, 0xffff_ffff_ffff_ffff),
    (I32, I64, 0xffff_ffff_ffff_ffff, 0xffff_ffff_ffff_ffff),
    (I32, U64, 0xffff_ffff_ffff_ffff, 0xffff_ffff_ffff_ffff),
    (U32, I64, 0xffff_ffff, 0xffff_ffff),
    (U32, U64, 0x8000_0000, 0x8000_0000),
    (I64, I32, 0x1_0000_0000, 0),
    (I64, I32, 0x8000_0000, 0xffff_ffff_8000_0000),
    (I64, U8, 0xffff_ffff_ffff_ffff, 0xff),
    (I64, I8, 0x80, 0xffff_ffff_ffff_ff80),
    (U64, I16, 0x1_8000, 0xffff_ffff_ffff_8000),
    (U64, U16, 0x1_8000, 0x8000),
    (U8, I8, 0xff, 0xffff_ffff_ffff_ffff),
    (I8, U8, 0xffff_ffff_ffff_ffff, 0xff),
    (I8, U16, 0xffff_ffff_ffff_ffff, 0xffff),
    (I8, I32, 0xffff_ffff_ffff_ff80, 0xffff_ffff_ffff_ff80),
    (U8, I32, 0x80, 0x80),
    (I64, Bool, 0x100, 1),
    (I32, Bool, 0xffff_ffff_ffff_ffff, 1),
    (I8, Bool, 0, 0),
    (U64, Bool, 0x8000_0000_0000_0000, 1),
    (I32, Bool, 0x1_0000_0000, 0),
    (Bool, I32, 1, 1),
    (Bool, I64, 7, 1),
    (Bool, U8, 0, 0),
    (U16, I16, 0x8000, 0xffff_ffff_ffff_8000),
    (I16, U32, 0xffff_ffff_ffff_fffe, 0xffff_fffe),
    (U64, I64, 0xffff_ffff_ffff_ffff, 0xffff_ffff_ffff_ffff),
    (I64, U64, 0xffff_ffff_ffff_fffb, 0xffff_ffff_ffff_fffb),
    (U8, U64, 0x1ff, 0xff),
];

// Values of an independent model: quotients first, with the cases of RISC-V's M extension, then shifts, wrapping, bits
// and operands that aren't kept.
const RESULTS: [(IntOp, IntKind, u64, u64, u64); 126] = [
    (Div, I64, 7, 0, 0xffff_ffff_ffff_ffff),
    (Div, I64, 0xffff_ffff_ffff_fff9, 0, 0xffff_ffff_ffff_ffff),
    (
        Div,
        I64,
        0x8000_0000_0000_0000,
        0xffff_ffff_ffff_ffff,
        0x8000_0000_0000_0000,
    ),
    (Div, I64, 0xffff_ffff_ffff_fff9, 2, 0xffff_ffff_ffff_fffd),
    (Div, I64, 7, 0xffff_ffff_ffff_fffe, 0xffff_ffff_ffff_fffd),
    (Div, I64, 0xffff_ffff_ffff_fff9, 0xffff_ffff_ffff_fffe, 3),
    (Div, I64, 0x8000_0000_0000_0000, 1, 0x8000_0000_0000_0000),
    (Rem, I64, 7, 0, 7),
    (Rem, I64, 0xffff_ffff_ffff_fff9, 0, 0xffff_ffff_ffff_fff9),
    (Rem, I64, 0x8000_0000_0000_0000, 0xffff_ffff_ffff_ffff, 0),
    (Rem, I64, 0xffff_ffff_ffff_fff9, 2, 0xffff_ffff_ffff_ffff),
    (Rem, I64, 7, 0xffff_ffff_ffff_fffe, 1),
    (
        Rem,
        I64,
        0xffff_ffff_ffff_fff9,
        0xffff_ffff_ffff_fffe,
        0xffff_ffff_ffff_ffff,
    ),
    (Rem, I64, 0x8000_0000_0000_0000, 1, 0),
    (Div, I32, 7, 0, 0xffff_ffff_ffff_ffff),
    (Div, I32, 0xffff_ffff_ffff_fff9, 0, 0xffff_ffff_ffff_ffff),
    (
        Div,
        I32,
        0xffff_ffff_8000_0000,
        0xffff_ffff_ffff_ffff,
        0xffff_ffff_8000_0000,
    ),
    (Div, I32, 0xffff_ffff_ffff_fff9, 2, 0xffff_ffff_ffff_fffd),
    (Div, I32, 7, 0xffff_ffff_ffff_fffe, 0xffff_ffff_ffff_fffd),
    (Div, I32, 0xffff_ffff_ffff_fff9, 0xffff_ffff_ffff_fffe, 3),
    (Div, I32, 0xffff_ffff_8000_0000, 1, 0xffff_ffff_8000_0000),
    (Rem, I32, 7, 0, 7),
    (Rem, I32, 0xffff_ffff_ffff_fff9, 0, 0xffff_ffff_ffff_fff9),
    (Rem, I32, 0xffff_ffff_8000_0000, 0xffff_ffff_ffff_ffff, 0),
    (Rem, I32, 0xffff_ffff_ffff_fff9, 2, 0xffff_ffff_ffff_ffff),
    (Rem, I32, 7, 0xffff_ffff_ffff_fffe, 1),
    (
        Rem,
        I32,
        0xffff_ffff_ffff_fff9,
        0xffff_ffff_ffff_fffe,
        0xffff_ffff_ffff_ffff,
    ),
    (Rem, I32, 0xffff_ffff_8000_0000, 1, 0),
    (Div, U64, 7, 0, 0xffff_ffff_ffff_ffff),
    (Div, U64, 0xffff_ffff_ffff_ffff, 2, 0x7fff_ffff_ffff_ffff),
    (Div, U64, 0xffff_ffff_ffff_ffff, 0xffff_ffff_ffff_ffff, 1),
    (Div, U64, 0xffff_ffff_ffff_fff8, 3, 0x5555_5555_5555_5552),
    (Rem, U64, 7, 0, 7),
    (Rem, U64, 0xffff_ffff_ffff_ffff, 2, 1),
    (Rem, U64, 0xffff_ffff_ffff_ffff, 0xffff_ffff_ffff_ffff, 0),
    (Rem, U64, 0xffff_ffff_ffff_fff8, 3, 2),
    (Div, U32, 7, 0, 0xffff_ffff),
    (Div, U32, 0xffff_ffff_ffff_ffff, 2, 0x7fff_ffff),
    (Div, U32, 0xffff_ffff_ffff_ffff, 0xffff_ffff_ffff_ffff, 1),
    (Div, U32, 0xffff_ffff_ffff_fff8, 3, 0x5555_5552),
    (Rem, U32, 7, 0, 7),
    (Rem, U32, 0xffff_ffff_ffff_ffff, 2, 1),
    (Rem, U32, 0xffff_ffff_ffff_ffff, 0xffff_ffff_ffff_ffff, 0),
    (Rem, U32, 0xffff_ffff_ffff_fff8, 3, 2),
    (
        Div,
        I8,
        0xffff_ffff_ffff_ff80,
        0xffff_ffff_ffff_ffff,
        0xffff_ffff_ffff_ff80,
    ),
    (Rem, I8, 0xffff_ffff_ffff_ff80, 0xffff_ffff_ffff_ffff, 0),
    (Div, I8, 5, 0, 0xffff_ffff_ffff_ffff),
    (
        Div,
        I16,
        0xffff_ffff_ffff_8000,
        0xffff_ffff_ffff_ffff,
        0xffff_ffff_ffff_8000,
    ),
    (Rem, I16, 0xffff_ffff_ffff_8000, 0xffff_ffff_ffff_ffff, 0),
    (Div, I16, 5, 0, 0xffff_ffff_ffff_ffff),
    (Div, U8, 5, 0, 0xff),
    (Rem, U16, 5, 0, 5),
    (Div, Bool, 1, 0, 1),
    (Rem, Bool, 1, 0, 1),
    (Div, Bool, 0, 1, 0),
    (Shl, I64, 1, 0x3f, 0x8000_0000_0000_0000),
    (Shl, I64, 3, 0x40, 3),
    (Shl, I64, 1, 0x41, 2),
    (Shr, I64, 0xffff_ffff_ffff_fff8, 1, 0xffff_ffff_ffff_fffc),
    (Shr, I64, 0xffff_ffff_ffff_ffff, 0x3f, 0xffff_ffff_ffff_ffff),
    (Shr, I64, 0xffff_ffff_ffff_fff8, 0x40, 0xffff_ffff_ffff_fff8),
    (Shl, I64, 1, 0xffff_ffff_ffff_ffff, 0x8000_0000_0000_0000),
    (Shl, I32, 1, 0x1f, 0xffff_ffff_8000_0000),
    (Shl, I32, 3, 0x20, 3),
    (Shl, I32, 1, 0x21, 2),
    (Shr, I32, 0xffff_ffff_ffff_fff8, 1, 0xffff_ffff_ffff_fffc),
    (Shr, I32, 0xffff_ffff_ffff_ffff, 0x1f, 0xffff_ffff_ffff_ffff),
    (Shr, I32, 0xffff_ffff_ffff_fff8, 0x20, 0xffff_ffff_ffff_fff8),
    (Shl, I32, 1, 0xffff_ffff_ffff_ffff, 0xffff_ffff_8000_0000),
    (Shl, U64, 1, 0x3f, 0x8000_0000_0000_0000),
    (Shl, U64, 3, 0x40, 3),
    (Shl, U64, 1, 0x41, 2),
    (Shr, U64, 0xffff_ffff_ffff_fff8, 1, 0x7fff_ffff_ffff_fffc),
    (Shr, U64, 0xffff_ffff_ffff_ffff, 0x3f, 1),
    (Shr, U64, 0xffff_ffff_ffff_fff8, 0x40, 0xffff_ffff_ffff_fff8),
    (Shl, U64, 1, 0xffff_ffff_ffff_ffff, 0x8000_0000_0000_0000),
    (Shl, U32, 1, 0x1f, 0x8000_0000),
    (Shl, U32, 3, 0x20, 3),
    (Shl, U32, 1, 0x21, 2),
    (Shr, U32, 0xffff_ffff_ffff_fff8, 1, 0x7fff_fffc),
    (Shr, U32, 0xffff_ffff_ffff_ffff, 0x1f, 1),
    (Shr, U32, 0xffff_ffff_ffff_fff8, 0x20, 0xffff_fff8),
    (Shl, U32, 1, 0xffff_ffff_ffff_ffff, 0x8000_0000),
    (Shr, I8, 0x80, 3, 0xffff_ffff_ffff_fff0),
    (Shr, U8, 0x80, 3, 0x10),
    (Shl, U8, 1, 9, 0),
    (Shr, U8, 0xff, 9, 0),
    (Shl, I16, 1, 0xf, 0xffff_ffff_ffff_8000),
    (Shl, Bool, 1, 1, 1),
    (Shr, Bool, 1, 1, 0),
    (Add, I32, 0x7fff_ffff, 1, 0xffff_ffff_8000_0000),
    (Add, U32, 0xffff_ffff, 1, 0),
    (Add, I64, 0x7fff_ffff_ffff_ffff, 1, 0x8000_0000_0000_0000),
    (Add, U64, 0xffff_ffff_ffff_ffff, 1, 0),
    (Sub, U32, 0, 1, 0xffff_ffff),
    (Sub, I32, 0xffff_ffff_8000_0000, 1, 0x7fff_ffff),
    (Sub, U64, 0, 1, 0xffff_ffff_ffff_ffff),
    (Mul, I32, 0x1_0000, 0x8000, 0xffff_ffff_8000_0000),
    (Mul, I64, 0xffff_ffff_ffff_fffd, 5, 0xffff_ffff_ffff_fff1),
    (Mul, U64, 0xffff_ffff_ffff_ffff, 0xffff_ffff_ffff_ffff, 1),
    (Add, I8, 0x7f, 1, 0xffff_ffff_ffff_ff80),
    (Add, U8, 0xff, 1, 0),
    (Add, I16, 0x7fff, 1, 0xffff_ffff_ffff_8000),
    (Sub, U16, 0, 1, 0xffff),
    (Add, Bool, 1, 1, 1),
    (Sub, Bool, 0, 1, 1),
    (And, I32, 0xffff_ffff_ffff_fffe, 5, 4),
    (Or, I32, 0xffff_ffff_ffff_fffe, 5, 0xffff_ffff_ffff_ffff),
    (Xor, I32, 0xffff_ffff_ffff_ffff, 5, 0xffff_ffff_ffff_fffa),
    (Xor, U64, 0xff00, 0xff0, 0xf0f0),
    (Or, U8, 0x1f0, 0x10f, 0xff),
    (And, Bool, 2, 1, 1),
    (Xor, Bool, 4, 1, 0),
    (Add, U8, 0x1ff, 2, 1),
    (Div, I32, 0xffff_fff9, 2, 0xffff_ffff_ffff_fffd),
    (Shr, I32, 0x8000_0000, 4, 0xffff_ffff_f800_0000),
    (Add, I32, 0xffff, 0x7fff, 0x1_7ffe),
    (Sub, I8, 0x7fff, 3, 0xffff_ffff_ffff_fffc),
    (Mul, Bool, 0x7fff, 0x7f, 1),
    (Div, I64, 0xffff, 0x80, 0x1ff),
    (Rem, Bool, 0xffff, 0x7f, 0),
    (And, U64, 1, 0x7fff_ffff, 1),
    (Or, Bool, 0x8000_0000_0000_0000, 0x8000_0000, 1),
    (Xor, I64, 3, 1, 2),
    (Shl, U16, 0x7f, 0x8000, 0x7f),
    (Shr, U64, 0xffff, 0x8000_0000, 0xffff),
];

// Values of an independent model.
const COMPARED: [(CmpOp, IntKind, u64, u64, bool); 38] = [
    (Lt, I32, 0xffff_ffff_ffff_ffff, 0, true),
    (Lt, U32, 0xffff_ffff_ffff_ffff, 0, false),
    (Lt, I64, 5, 5, false),
    (Lt, U64, 0x8000_0000_0000_0000, 0, false),
    (Lt, I64, 0x8000_0000_0000_0000, 0, true),
    (Le, I32, 0xffff_ffff_ffff_ffff, 0, true),
    (Le, U32, 0xffff_ffff_ffff_ffff, 0, false),
    (Le, I64, 5, 5, true),
    (Le, U64, 0x8000_0000_0000_0000, 0, false),
    (Le, I64, 0x8000_0000_0000_0000, 0, true),
    (Gt, I32, 0xffff_ffff_ffff_ffff, 0, false),
    (Gt, U32, 0xffff_ffff_ffff_ffff, 0, true),
    (Gt, I64, 5, 5, false),
    (Gt, U64, 0x8000_0000_0000_0000, 0, true),
    (Gt, I64, 0x8000_0000_0000_0000, 0, false),
    (Ge, I32, 0xffff_ffff_ffff_ffff, 0, false),
    (Ge, U32, 0xffff_ffff_ffff_ffff, 0, true),
    (Ge, I64, 5, 5, true),
    (Ge, U64, 0x8000_0000_0000_0000, 0, true),
    (Ge, I64, 0x8000_0000_0000_0000, 0, false),
    (Eq, I32, 0xffff_ffff_ffff_ffff, 0, false),
    (Eq, U32, 0xffff_ffff_ffff_ffff, 0, false),
    (Eq, I64, 5, 5, true),
    (Eq, U64, 0x8000_0000_0000_0000, 0, false),
    (Eq, I64, 0x8000_0000_0000_0000, 0, false),
    (Ne, I32, 0xffff_ffff_ffff_ffff, 0, true),
    (Ne, U32, 0xffff_ffff_ffff_ffff, 0, true),
    (Ne, I64, 5, 5, false),
    (Ne, U64, 0x8000_0000_0000_0000, 0, true),
    (Ne, I64, 0x8000_0000_0000_0000, 0, true),
    (Eq, U8, 0x1ff, 0xff, true),
    (Ne, Bool, 2, 1, false),
    (Lt, I8, 0x80, 0x7f, true),
    (Lt, U8, 0x80, 0x7f, false),
    (Eq, I32, 0x1_0000_0000, 0, true),
    (Lt, I16, 0xffff_ffff_ffff_fffd, 0xffff_ffff_ffff_fffe, true),
    (Gt, U16, 0xffff_ffff_ffff_fffd, 0xffff_ffff_ffff_fffe, false),
    (Le, Bool, 0, 5, true),
];

/// The first value that is wrapped otherwise.
fn wrong_wrap() -> Option<usize> {
    for (at, &(kind, v, kept)) in WRAPPED.iter().enumerate() {
        if wrap(kind, v) != kept {
            return Some(at);
        }
    }
    None
}

/// The first value that is converted otherwise.
fn wrong_conversion() -> Option<usize> {
    for (at, &(from, to, v, kept)) in CONVERTED.iter().enumerate() {
        if convert(from, to, v) != kept {
            return Some(at);
        }
    }
    None
}

/// The first operation that gives another value.
fn wrong_result() -> Option<usize> {
    for (at, &(op, kind, a, b, computed)) in RESULTS.iter().enumerate() {
        if binary(op, kind, a, b) != computed {
            return Some(at);
        }
    }
    None
}

/// The first comparison that is answered otherwise.
fn wrong_comparison() -> Option<usize> {
    for (at, &(op, kind, a, b, holds)) in COMPARED.iter().enumerate() {
        if compare(op, kind, a, b) != holds {
            return Some(at);
        }
    }
    None
}

#[test]
fn wraps_converts_computes_and_compares(rt: HostRuntime) {
    must_all_hold(&rt, "wraps", wrong_wrap());
    must_all_hold(&rt, "converts", wrong_conversion());
    must_all_hold(&rt, "computes", wrong_result());
    must_all_hold(&rt, "compares", wrong_comparison());
}
