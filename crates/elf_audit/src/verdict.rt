//! What an audit answers.

/// What an audit answers: that the image is contained, or the first word or relocation that breaks a rule, with the
/// least reason.
#[derive(Clone, Copy, Debug, PartialEq, Eq)]
pub enum Verdict {
    /// The image is contained.
    Yes,
    /// The address of a word, and why it breaks a rule:
    /// 1, it is no instruction;
    /// 2, it is `ebreak`, `auipcc` or `csealentry`;
    /// 3, it is a branch or `cjal` that leads to no multiple of 4 inside the text;
    /// 4, it is an `ecall` that does not stand directly after `addi x17,x0,k` with k from 1 to 3;
    /// 5, it is an `ecall` to which a branch, a `cjal` or an entry place leads;
    /// 6, it is the last word, and no `cjal` or `cjalr` with rd 0.
    Word(u64, u8),
    /// The number of a relocation, from 0, and why it breaks a rule:
    /// 7, it has Execute, and is no sentry with the text's bounds at a multiple of 4 inside the text;
    /// 8, it has no Execute, and its extent meets the text.
    Reloc(u64, u8),
}
