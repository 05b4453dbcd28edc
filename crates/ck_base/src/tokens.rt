//! Tokens of C and the integers that its literals name.

/// The kinds of tokens (C11 6.4, narrowed to the language that is compiled).
#[derive(Clone, Copy, Debug, PartialEq, Eq)]
pub enum TokenKind {
    /// An identifier or a keyword (C11 6.4.1, 6.4.2).
    Word,
    /// An integer constant (C11 6.4.4.1).
    Number,
    /// A character constant (C11 6.4.4.4).
    Char,
    /// A string literal (C11 6.4.5).
    Text,
    /// A punctuator (C11 6.4.6).
    Punct,
}

/// What an integer constant says (C11 6.4.4.1).
#[derive(Clone, Copy, Debug, PartialEq, Eq)]
pub struct Integer {
    pub value: u64,
    /// It has the suffix `u` or `U`.
    pub unsigned: bool,
    /// 0 with no long suffix, 1 with `l` or `L`, 2 with `ll` or `LL`.
    pub longs: u8,
    /// It is decimal, and not octal or hexadecimal.
    pub decimal: bool,
}
