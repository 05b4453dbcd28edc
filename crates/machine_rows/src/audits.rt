//! Images of four words and one relocation, and what their audit answers.

use crate::answers::must_all_hold;
use crate::loading::{Wanted, is_answered};
use crate::made::Parts;
use elf_audit::Verdict;
use elf_file::Reloc;
use std::alloc::Global;

const DATA: u64 = 65_536;

const TEXT: u64 = 131_072;

const SENTRY: u64 = 1 << 63;

const ADDI: [u8; 4] = [0x93, 0x08, 0x30, 0];

const ECALL: [u8; 4] = [0x73, 0, 0, 0];

const NOP: [u8; 4] = [0x13, 0, 0, 0];

const STAY: [u8; 4] = [0x6f, 0, 0, 0];

// `cjal x0,-4` and `cjal x0,16`
const BACK: [u8; 4] = [0x6f, 0xf0, 0xdf, 0xff];

const OUT: [u8; 4] = [0x6f, 0, 0, 0x01];

const EBREAK: [u8; 4] = [0x73, 0, 0x10, 0];

/// Four words, a relocation's offset in the text and its permission word, and the answer.
type Row = ([[u8; 4]; 4], u64, u64, Verdict);

const ROWS: [Row; 10] = [
    ([ADDI, ECALL, NOP, STAY], 8, SENTRY + 3, Verdict::Yes),
    ([[0; 4]; 4], 8, SENTRY + 3, Verdict::Word(TEXT, 1)),
    (
        [EBREAK, ECALL, NOP, STAY],
        8,
        SENTRY + 3,
        Verdict::Word(TEXT, 2),
    ),
    (
        [ADDI, ECALL, OUT, STAY],
        8,
        SENTRY + 3,
        Verdict::Word(TEXT + 8, 3),
    ),
    (
        [NOP, ECALL, NOP, STAY],
        8,
        SENTRY + 3,
        Verdict::Word(TEXT + 4, 4),
    ),
    (
        [ADDI, ECALL, BACK, STAY],
        8,
        SENTRY + 3,
        Verdict::Word(TEXT + 4, 5),
    ),
    (
        [ADDI, ECALL, NOP, STAY],
        4,
        SENTRY + 3,
        Verdict::Word(TEXT + 4, 5),
    ),
    (
        [ADDI, ECALL, STAY, NOP],
        8,
        SENTRY + 3,
        Verdict::Word(TEXT + 12, 6),
    ),
    ([ADDI, ECALL, NOP, STAY], 8, 3, Verdict::Reloc(0, 7)),
    ([ADDI, ECALL, NOP, STAY], 8, 125, Verdict::Reloc(0, 8)),
];

fn is_audited(alloc: Global, &(ref words, offset, perms, verdict): &Row) -> bool {
    let reloc = Reloc {
        place: DATA,
        base: TEXT,
        offset,
        length: 16,
        perms,
    };
    let parts = Parts {
        version: 1,
        entry: TEXT,
        text: (TEXT, words.as_flattened()),
        initial: (DATA, &[0; 16]),
        table: (DATA, 16),
        heap: (196_608, 0),
        stack: (262_144, 4_096),
        relocs: &[reloc],
        lines: &[],
        count: 0,
    };
    is_answered(alloc, &parts, Wanted::Audited(verdict)) == Some(true)
}

/// The first row with another answer.
fn wrong_answer(alloc: Global) -> Option<usize> {
    for (at, row) in ROWS.iter().enumerate() {
        if !is_audited(alloc, row) {
            return Some(at);
        }
    }
    None
}

#[test]
fn answers_the_first_word_or_relocation(rt: HostRuntime) {
    must_all_hold(&rt, "answers", wrong_answer(rt.alloc()));
}
