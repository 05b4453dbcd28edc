//! Three-address code. Each function has temps, which hold values, and a list of instructions over them.

use ck_base::{Pos, Sequence};
use ck_int::{CmpOp, IntKind, IntOp};

/// What a temp holds.
#[derive(Clone, Copy, Debug, PartialEq, Eq)]
pub enum TacKind {
    /// An integer.
    Int(IntKind),
    /// A pointer, or a capability integer; the truth value says that it is signed.
    Cap(bool),
}

/// A number of bytes.
#[derive(Clone, Copy, Debug, PartialEq, Eq)]
pub enum Amount {
    /// That of a temp.
    Temp(u32),
    Number(u64),
}

/// What is asked of a capability, or made of it (CHERI C/C++ Programming Guide, UCAM-CL-TR-947, 7.3).
#[derive(Clone, Copy, Debug, PartialEq, Eq)]
pub enum CapWork {
    Base,
    /// The address less the base.
    Offset,
    /// At most 2^64 - 1.
    Length,
    /// A `_Bool`.
    Tag,
    /// The 12 permission bits.
    Perms,
    /// The capability without its tag.
    Clear,
    /// The capability with another address, of either 64-bit kind.
    SetAddress,
    /// The capability with those of its permissions that a mask has.
    AndPerms,
    /// Whether the tags and all bits are equal.
    EqualExact,
    /// The owned length of a length.
    Rounded,
    /// The alignment mask of a length.
    Mask,
}

/// A library function.
#[derive(Clone, Copy, Debug, PartialEq, Eq)]
pub enum LibOp {
    PutChar,
    GetChar,
    Malloc,
    Exit,
}

/// An instruction. A number without another word is that of a temp; `to` is the temp that is written.
#[derive(Debug, Drop)]
pub enum TacInstr {
    /// An integer in the 64 bits of its extension, or null with that address.
    Const {
        to: u32,
        kind: TacKind,
        value: u64,
    },
    Copy {
        to: u32,
        from: u32,
    },
    /// An operation on integers of a kind; in a shift the kind of `b` may be another.
    Int {
        op: IntOp,
        kind: IntKind,
        to: u32,
        a: u32,
        b: u32,
    },
    /// A comparison, of addresses where the kind is a capability's. It gives 0 or 1 as an `int`.
    Cmp {
        op: CmpOp,
        kind: TacKind,
        to: u32,
        a: u32,
        b: u32,
    },
    /// A conversion (C11 6.3).
    Convert {
        to: u32,
        from: u32,
        old: TacKind,
        new: TacKind,
    },
    /// An intrinsic on a capability, or on a length.
    Cap {
        op: CapWork,
        to: u32,
        a: u32,
        b: Option<u32>,
    },
    /// A capability moved by bytes.
    Offset {
        to: u32,
        base: u32,
        by: Amount,
    },
    /// A capability with narrower bounds, from its address on.
    Narrow {
        to: u32,
        base: u32,
        length: Amount,
        exact: bool,
    },
    Load {
        to: u32,
        from: u32,
        kind: TacKind,
        pos: Pos,
    },
    Store {
        at: u32,
        value: u32,
        kind: TacKind,
        pos: Pos,
    },
    /// The pointer to a local that is an object, by its number among these.
    Local {
        to: u32,
        var: u32,
    },
    /// The pointer to a global, or to a string literal, by its number.
    Global {
        to: u32,
        number: u32,
        literal: bool,
    },
    /// The sentry of a function, by its number.
    Function {
        to: u32,
        fun: u32,
    },
    /// The block of a local that is an object is entered: its bytes become zero.
    Zero {
        var: u32,
    },
    /// A struct of `bytes` bytes is copied in units, with the positions of the place read and of the place written.
    CopyUnits {
        from: u32,
        to: u32,
        bytes: u64,
        unit: u8,
        from_pos: Pos,
        to_pos: Pos,
    },
    /// A place in the code, by a number of its own in the function.
    Label(u32),
    Jump(u32),
    /// A jump to a label where the truth of `on` is `when`.
    Branch {
        on: u32,
        when: bool,
        label: u32,
    },
    /// A call of a function, by its number.
    Call {
        to: Option<u32>,
        fun: u32,
        args: Sequence<u32>,
    },
    /// A call through a value, with a function type, by its number.
    CallValue {
        to: Option<u32>,
        value: u32,
        of: u32,
        args: Sequence<u32>,
        pos: Pos,
    },
    Lib {
        op: LibOp,
        to: Option<u32>,
        args: Sequence<u32>,
    },
    /// One turn is used.
    Turn,
    Return(Option<u32>),
}

/// The code of a function.
#[derive(Debug, Drop)]
pub struct TacFun {
    /// The position of the name in the function's definition.
    pub name: Pos,
    /// The first so many temps hold the arguments at entry.
    pub params: u32,
    pub temps: u32,
    /// The kind of each temp, in order.
    pub kinds: Sequence<TacKind>,
    pub code: Sequence<TacInstr>,
}

/// The code of a program: its functions in their order.
#[derive(Debug, Drop)]
pub struct Tac {
    pub funs: Sequence<TacFun>,
}
