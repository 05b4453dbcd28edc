//! The codes by which a C file is refused: each names the rule that the file breaks.

/// The file has a byte that begins no token.
pub const NO_TOKEN: u16 = 100;

/// The file has a literal or comment that is not closed.
pub const UNCLOSED: u16 = 101;

/// The file has a literal outside the language, or too wide.
pub const INVALID_LITERAL: u16 = 102;

/// The file has a word that the language leaves out.
pub const EXCLUDED_WORD: u16 = 103;

/// The file has `#pragma pack`.
pub const PRAGMA_PACK: u16 = 104;

/// The file has no syntax tree of at most 200 levels.
pub const NO_TREE: u16 = 120;

/// The file opens 201 brackets more than it closes.
pub const TOO_MANY_BRACKETS: u16 = 121;

/// The file uses a name that is not declared, or never defined.
pub const UNDEFINED_NAME: u16 = 130;

/// The file declares something twice in one scope.
pub const DECLARED_TWICE: u16 = 131;

/// The file has an incomplete type where a complete one is needed.
pub const INCOMPLETE_TYPE: u16 = 132;

/// The file has types that do not fit.
pub const MISFIT: u16 = 133;

/// The file has no constant where one is needed, or one out of range.
pub const NO_CONSTANT: u16 = 134;

/// The file has no `int main(void)`.
pub const NO_MAIN: u16 = 135;

/// The file has a call with a wrong number of arguments.
pub const WRONG_ARGUMENT_COUNT: u16 = 136;

/// The file has a type of more than 67,108,864 bytes.
pub const TYPE_TOO_LARGE: u16 = 140;

/// The file has globals and literals, or locals of one function, of more than 67,108,864 bytes.
pub const OBJECTS_TOO_LARGE: u16 = 141;

/// A function has a weight of more than 7,780, or the file one of more than 250,000.
pub const TOO_HEAVY: u16 = 142;

/// The file has more than 4,194,304 bytes.
pub const FILE_TOO_LONG: u16 = 143;
