//! The words among specifiers, counted (C11 6.7.1 to 6.7.3).

ghost use Rattle.std.specs.Prelude.{◌≡◌, ℕ, ◌+◌, ◌&&◌, ◌==◌, nat_lt, option_map, slice_get, IfOk, IfSome};
ghost use Rattle.c_tree.specs.Declarators.{is_word};
ghost use Rattle.c_tree.specs.Declarators.{has_register, parts_const};
ghost use Rattle.c_tree.specs.Syntax.{Syns, StandAt};
ghost use Rattle.c_tree.specs.Types.{Ty};
ghost use Rattle.c_tree.specs.Views.{type_from};
ghost use Rattle.c_interner.specs.Numbers.{IsPlain};
ghost use Rattle.c_declarators.specs.Words.{FirstHas, is_of, times_at, words_of, type_words, storage_words, sign_words};
ghost use Rattle.c_declarators.specs.Words.{is_alone, is_made_of, signs, sized_type, word_type};

use c_tree::{CType, NodeKind, SpecifierWord, Tree};
use ck_base::NoMemory;
use ck_int::IntKind;

/// How often each word stands among specifiers.
#[derive(Clone, Copy)]
pub struct Words {
    pub typedefs: u32,
    pub statics: u32,
    pub externs: u32,
    pub autos: u32,
    pub registers: u32,
    pub consts: u32,
    pub voids: u32,
    pub chars: u32,
    pub shorts: u32,
    pub ints: u32,
    pub longs: u32,
    pub signed: u32,
    pub unsigned: u32,
    pub bools: u32,
    pub int_caps: u32,
    pub uint_caps: u32,
}

// Whether two words are the same, of those that are counted.
fn is_word(word: SpecifierWord, other: SpecifierWord) -> bool
    ensures { result ≡ is_word word other }
{
    match (word, other) {
        (SpecifierWord::Typedef, SpecifierWord::Typedef)
        | (SpecifierWord::Static, SpecifierWord::Static)
        | (SpecifierWord::Extern, SpecifierWord::Extern)
        | (SpecifierWord::Auto, SpecifierWord::Auto)
        | (SpecifierWord::Register, SpecifierWord::Register)
        | (SpecifierWord::Const, SpecifierWord::Const)
        | (SpecifierWord::Void, SpecifierWord::Void)
        | (SpecifierWord::Char, SpecifierWord::Char)
        | (SpecifierWord::Short, SpecifierWord::Short)
        | (SpecifierWord::Int, SpecifierWord::Int)
        | (SpecifierWord::Long, SpecifierWord::Long)
        | (SpecifierWord::Signed, SpecifierWord::Signed)
        | (SpecifierWord::Unsigned, SpecifierWord::Unsigned)
        | (SpecifierWord::Bool, SpecifierWord::Bool)
        | (SpecifierWord::IntCap, SpecifierWord::IntCap)
        | (SpecifierWord::UintCap, SpecifierWord::UintCap) => true,
        _ => false,
    }
}

// Whether a node is the word.
fn is_at(tree: &Tree, node: u32, word: SpecifierWord) -> bool
    ensures { result ≡ is_of word (slice_get tree.now.nodes node) }
{
    match tree.nodes.as_slice().get(node as usize) {
        None => false,
        Some(found) => match found.kind {
            NodeKind::Specifier(other) => is_word(word, other),
            _ => false,
        },
    }
}

// How often a word stands at these nodes.
fn times(tree: &Tree, nodes: &[u32], word: SpecifierWord) -> Result<u32, NoMemory>
    ensures { IfOk result (λ n. n ≡ times_at word tree.now.nodes nodes.now) }
{
    let mut count: u32 = 0;
    for node in nodes {
        if is_at(tree, *node, word) {
            count = count.checked_add(1).ok_or(NoMemory)?;
        }
    }
    Ok(count)
}

// Whether a word stands at some of these nodes.
fn has(tree: &Tree, nodes: &[u32], word: SpecifierWord) -> bool
    ensures { result ≡ nat_lt 0 (times_at word tree.now.nodes nodes.now) }
{
    for node in nodes {
        if is_at(tree, *node, word) {
            return true;
        }
    }
    false
}

// Whether a word stands among the parts of the first of these nodes.
fn first_has(tree: &Tree, nodes: &[u32], word: SpecifierWord) -> bool
    ensures { FirstHas word tree.now.nodes nodes.now result }
{
    match nodes.first() {
        None => false,
        Some(first) => match tree.nodes.as_slice().get(*first as usize) {
            None => false,
            Some(found) => has(tree, found.kids.as_slice(), word),
        },
    }
}

/// Whether `register` stands among the specifiers, which are the first of these parts.
pub fn has_register(tree: &Tree, parts: &[u32]) -> bool
    ensures { (xs : Syns) → StandAt tree.now.nodes parts.now xs → result ≡ has_register xs }
{
    first_has(tree, parts, SpecifierWord::Register)
}

/// Whether `const` stands among the qualifiers, which are the first of these parts.
pub fn parts_const(tree: &Tree, parts: &[u32]) -> bool
    ensures { (xs : Syns) → StandAt tree.now.nodes parts.now xs → result ≡ parts_const xs }
{
    first_has(tree, parts, SpecifierWord::Const)
}

impl Words {
    /// The words among these parts.
    pub fn of(tree: &Tree, parts: &[u32]) -> Result<Words, NoMemory>
        ensures { IfOk result (λ x. (xs : Syns) → StandAt tree.now.nodes parts.now xs → x ≡ words_of xs) }
    {
        Ok(Words {
            typedefs: times(tree, parts, SpecifierWord::Typedef)?,
            statics: times(tree, parts, SpecifierWord::Static)?,
            externs: times(tree, parts, SpecifierWord::Extern)?,
            autos: times(tree, parts, SpecifierWord::Auto)?,
            registers: times(tree, parts, SpecifierWord::Register)?,
            consts: times(tree, parts, SpecifierWord::Const)?,
            voids: times(tree, parts, SpecifierWord::Void)?,
            chars: times(tree, parts, SpecifierWord::Char)?,
            shorts: times(tree, parts, SpecifierWord::Short)?,
            ints: times(tree, parts, SpecifierWord::Int)?,
            longs: times(tree, parts, SpecifierWord::Long)?,
            signed: times(tree, parts, SpecifierWord::Signed)?,
            unsigned: times(tree, parts, SpecifierWord::Unsigned)?,
            bools: times(tree, parts, SpecifierWord::Bool)?,
            int_caps: times(tree, parts, SpecifierWord::IntCap)?,
            uint_caps: times(tree, parts, SpecifierWord::UintCap)?,
        })
    }

    /// How many words for types.
    pub fn type_words(self) -> u64
        ensures { result ≡ type_words self }
    {
        u64::from(self.voids)
            + u64::from(self.chars)
            + u64::from(self.shorts)
            + u64::from(self.ints)
            + u64::from(self.longs)
            + u64::from(self.signed)
            + u64::from(self.unsigned)
            + u64::from(self.bools)
            + u64::from(self.int_caps)
            + u64::from(self.uint_caps)
    }

    /// How many words for storage.
    pub fn storage_words(self) -> u64
        ensures { result ≡ storage_words self }
    {
        u64::from(self.typedefs)
            + u64::from(self.statics)
            + u64::from(self.externs)
            + u64::from(self.autos)
            + u64::from(self.registers)
    }

    fn sign_words(self) -> u64
        ensures { result ≡ sign_words self }
    {
        u64::from(self.signed) + u64::from(self.unsigned)
    }

    // The word stands there, and no other word for a type.
    fn is_alone(self, times: u32) -> bool
        ensures { result ≡ is_alone self times }
    {
        self.type_words() == 1 && times > 0
    }

    // A word stands there so often, and so many words for types in all.
    fn is_made_of(self, times: u32, count: u32, all: u64) -> bool
        ensures { result ≡ is_made_of self times count all }
    {
        times == count && self.type_words() == all
    }

    // How many words for signs, and how often `int` stands there, and so many more.
    fn with_int(self, more: u32) -> u64
        ensures { result ≡ sign_words self + self.ints + more }
    {
        self.sign_words() + u64::from(self.ints) + u64::from(more)
    }

    // The words are `int` or words for signs.
    fn is_int(self) -> bool
        ensures { result ≡ (nat_lt 0 (type_words self) && type_words self == sign_words self + self.ints) }
    {
        self.type_words() > 0 && self.type_words() == self.with_int(0)
    }

    // The type with a sign or the one without.
    fn signs(self, signed: CType, unsigned: CType) -> Option<CType>
        requires signed { IsPlain signed }
        requires unsigned { IsPlain unsigned }
        ensures is { (go : ℕ → Ty) →
            option_map (λ c. type_from c go) result ≡ signs self (type_from signed go) (type_from unsigned go) }
        ensures plain { IfSome result IsPlain }
    {
        if self.sign_words() > 1 {
            return None;
        }
        if self.unsigned > 0 {
            return Some(unsigned);
        }
        Some(signed)
    }

    // The types that are made of `short`, `long` and `int`.
    fn sized_type(self) -> Option<CType>
        ensures is { (go : ℕ → Ty) → option_map (λ c. type_from c go) result ≡ sized_type self }
        ensures plain { IfSome result IsPlain }
    {
        if self.ints > 1 {
            return None;
        }
        if self.is_made_of(self.shorts, 1, self.with_int(1)) {
            return self.signs(CType::Int(IntKind::I16, 0), CType::Int(IntKind::U16, 0));
        }
        if self.is_made_of(self.longs, 1, self.with_int(1)) {
            return self.signs(CType::Int(IntKind::I64, 0), CType::Int(IntKind::U64, 0));
        }
        if self.is_made_of(self.longs, 2, self.with_int(2)) {
            return self.signs(CType::Int(IntKind::I64, 1), CType::Int(IntKind::U64, 1));
        }
        if self.is_int() {
            return self.signs(CType::Int(IntKind::I32, 0), CType::Int(IntKind::U32, 0));
        }
        None
    }

    /// The type that the words name, if they name one (C11 6.7.2p2).
    pub fn word_type(self) -> Option<CType>
        ensures is { (go : ℕ → Ty) → option_map (λ c. type_from c go) result ≡ word_type self }
        ensures plain { IfSome result IsPlain }
    {
        if self.is_alone(self.voids) {
            return Some(CType::Void);
        }
        if self.is_alone(self.bools) {
            return Some(CType::Int(IntKind::Bool, 0));
        }
        if self.is_alone(self.int_caps) {
            return Some(CType::Cap(true));
        }
        if self.is_alone(self.uint_caps) {
            return Some(CType::Cap(false));
        }
        if self.is_alone(self.chars) {
            return Some(CType::Int(IntKind::U8, 0));
        }
        if self.is_made_of(self.chars, 1, self.sign_words() + 1) {
            return self.signs(CType::Int(IntKind::I8, 0), CType::Int(IntKind::U8, 1));
        }
        self.sized_type()
    }
}
