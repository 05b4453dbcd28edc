//! A hostile outside: each read and each put fails in turn, and the notes fail in each mode.

use crate::calls::{Table, calls_are_answered};

/// A file that copies its input.
pub const COPY: &str = "int main(void){int c;while((c=getchar())!=-1)putchar(c);return 0;}";

const COPYING: [Table; 1] = [Table {
    file: COPY,
    is_built: true,
    input: "abc",
    cases: "\
cheric run a.c ! 0 1 0 0 | 21 | input
cheric run a.c ! 0 2 0 0 | 21 | input | a
cheric run a.c ! 0 3 0 0 | 21 | input | ab
cheric run a.c ! 0 4 0 0 | 21 | input | abc
cheric run a.c ! 0 5 0 0 | 0 | exit 0 | abc
cheric run a.c ! 0 0 1 0 | 22 | output
cheric run a.c ! 0 0 2 0 | 22 | output | a
cheric run a.c ! 0 0 3 0 | 22 | output | ab
cheric run a.c ! 0 0 4 0 | 0 | exit 0 | abc
cheric exec a.c.elf ! 0 1 0 0 | 21 | input
cheric exec a.c.elf ! 0 2 0 0 | 21 | input | a
cheric exec a.c.elf ! 0 3 0 0 | 21 | input | ab
cheric exec a.c.elf ! 0 4 0 0 | 21 | input | abc
cheric exec a.c.elf ! 0 5 0 0 | 0 | exit 0 | abc
cheric exec a.c.elf ! 0 0 1 0 | 22 | output
cheric exec a.c.elf ! 0 0 2 0 | 22 | output | a
cheric exec a.c.elf ! 0 0 3 0 | 22 | output | ab
cheric exec a.c.elf ! 0 0 4 0 | 0 | exit 0 | abc",
}];

#[test]
fn each_read_and_each_put_fails(rt: HostRuntime) {
    calls_are_answered(&rt, rt.alloc(), &COPYING);
}

/// Words in each mode, each with its own message, which the notes don't take.
const MODES: [Table; 1] = [Table {
    file: COPY,
    is_built: true,
    input: "",
    cases: "\
cheric run a.c ! 0 0 0 1 | 22
cheric run a.c --steps 1 ! 0 0 0 1 | 22
cheric run b.c ! 0 0 0 1 | 22
cheric run a.c.elf ! 0 0 0 1 | 22
cheric build a.c ! 0 0 0 1 | 22
cheric exec a.c.elf ! 0 0 0 1 | 22
cheric exec a.c ! 0 0 0 1 | 22
cheric audit a.c.elf ! 0 0 0 1 | 22
cheric mean a.c --turns 0 ! 0 0 0 1 | 22
cheric mean b.c ! 0 0 0 1 | 22
cheric map b.c ! 0 0 0 1 | 22
cheric list b.c ! 0 0 0 1 | 22
cheric gen 0 ! 0 0 0 1 | 22
cheric ! 0 0 0 1 | 22",
}];

#[test]
fn the_notes_fail_in_each_mode(rt: HostRuntime) {
    calls_are_answered(&rt, rt.alloc(), &MODES);
}
