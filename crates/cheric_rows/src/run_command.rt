//! The mode `run` of the command, over files, an input and sinks in memory, and over ones that tell nothing.

ghost use Rattle.std.specs.Prelude.{◌<◌, ◌-◌, ◌^◌};

use crate::calls::{Table, calls_are_answered, files_are_answered, is_answered, words_of};
use crate::hostile::COPY;
use cheric_top::cheric;
use ck_base::{Files, HostFiles, StdInput, StdOutput};
use std::alloc::Global;
use std::fs;
use std::test::Fail;

const HI: &str = "int main(void){putchar(72);putchar(105);return 0;}";

/// Files, with the answers to their runs.
const FILES: &str = "\
0 | exit 0 | Hi
int main(void){putchar(72);putchar(105);return 0;}

0 | exit 0 | Hi
int main(void){putchar(328);putchar(361);return 0;}

1 | exit 44
int main(void){return 300;}

1 | exit 255
int main(void){return 2047;}

0 | exit 0
int main(void){return 2048;}

0 | exit 0
int main(void){return 256;}

1 | exit 255
int main(void){return -1;}

0 | exit 0 | \0
int main(void){putchar(2048);return 0;}

0 | exit 0
int main(void){}

0 | exit 0 | AB
int main(void){int a=7,z=0,m=-2147483647-1,k=-1;if(a/z==-1)putchar(65);if(m/k==m)putchar(66);return 0;}

0 | exit 0 | ---?@A
int main(void){unsigned char c=250;while(c){if(c>252)putchar(c-190);else putchar('-');c=c+1;}return c;}

10 | refused 135 1:1

10 | refused 133 1:16
int main(void){return ;}

10 | refused 100 1:26
int main(void){return 0;}@

0 | exit 0 | | objects of each kind
int g;int main(void){return 0;}

0 | exit 0
int main(void){int a[2];a[1]=0;return a[1];}

0 | exit 0
int main(void){char *p=malloc(9);return !p;}";

#[test]
fn files_are_run(rt: HostRuntime) {
    files_are_answered(&rt, rt.alloc(), "cheric run a.c", FILES);
    let file = b"int main(void) { return 00; } // and no more\n";
    assert!(rt; is_answered(rt.alloc(), file, "cheric run a.c", (0, "", "exit 0\n")));
}

/// Words, and words that are no line.
const LINES: [Table; 1] = [Table {
    file: HI,
    is_built: false,
    input: "",
    cases: "\
cheric run a.c --steps 0 | 4 | steps
cheric run a.c --steps 1 | 4 | steps
cheric run a.c --steps 0000000099999 | 0 | exit 0 | Hi
cheric run a.c --steps 1000000000000 | 0 | exit 0 | Hi
// options in any order, and one that the mode does not use
cheric run a.c --heap 33554432 --steps 0 | 4 | steps
cheric run a.c --steps 0 --stack 65536 | 4 | steps
cheric run a.c --stack 131072 --heap 16842752 | 0 | exit 0 | Hi
cheric run a.c --out b | 0 | exit 0 | Hi
cheric run a.c --turns 7 | 0 | exit 0 | Hi
// options anywhere, and a value in the option's own word
cheric run a.c --steps=5 | 4 | steps
cheric --steps 5 run a.c | 4 | steps
cheric run --steps 5 a.c | 4 | steps
cheric run -- a.c | 0 | exit 0 | Hi
cheric exec a.c --heap 16777216 --out b | 12 | image 1
cheric run b.c | 20 | file
cheric exec b.c --steps 9 | 20 | file
// words that are no line
 | 11 | words
cheric | 11 | words
cheric run | 11 | words
cheric fly a.c | 11 | words
cheric runs a.c | 11 | words
cheric run a.c b.c | 11 | words
cheric run a.c --steps | 11 | words
cheric run a.c --steps x | 11 | words
cheric run a.c --steps 9x | 11 | words
cheric run a.c --steps +9 | 11 | words
cheric run a.c --steps -9 | 11 | words
cheric run a.c --step 9 | 11 | words
cheric run a.c --steps 9 9 | 11 | words
cheric run a.c --steps 9 --steps 9 | 11 | words
cheric run a.c --steps 00000000000009 | 11 | words
cheric run a.c --steps 1000000000001 | 11 | words
cheric run a.c --steps= 9 | 11 | words
cheric --help | 11 | words
cheric run a.c --help | 11 | words
cheric run a.c --fly | 11 | words
cheric run a.c --turns x | 11 | words
cheric run a.c --turns 10000000000000 | 11 | words
cheric gen 0 | 11 | words
cheric gen 65 | 11 | words
cheric gen 07 | 11 | words
cheric gen +7 | 11 | words
cheric gen a.c | 11 | words
cheric gen | 11 | words
cheric build a.c --out | 11 | words
cheric build a.c --out b --out b | 11 | words
// sizes that no heap and no stack may have
cheric run a.c --heap 100000 | 11 | words
cheric run a.c --heap 65536 | 11 | words
cheric run a.c --heap 16777217 | 11 | words
cheric run a.c --heap 67174400 | 11 | words
cheric run a.c --stack 0 | 11 | words
cheric run a.c --stack 65537 | 11 | words
cheric run a.c --stack 33619968 | 11 | words
cheric build a.c --heap 0 | 11 | words
cheric exec a.c --stack 1 | 11 | words
cheric audit a.c --heap x | 11 | words
cheric run a.c --heap 16777216 --stack 65536 --heap 16777216 | 11 | words
cheric audit | 11 | words",
}];

#[test]
fn lines_are_answered(rt: HostRuntime) {
    calls_are_answered(&rt, rt.alloc(), &LINES);
}

/// Calls whose files, output or notes fail, whose input ends or fails, and that reach the limit.
const ENDS: [Table; 4] = [
    Table {
        file: HI,
        is_built: false,
        input: "",
        cases: "\
cheric run a.c ! 1 0 0 0 | 20 | file
cheric run a.c ! 0 0 1 0 | 22 | output
cheric run a.c ! 0 0 2 0 | 22 | output | H
cheric run a.c ! 0 0 3 0 | 0 | exit 0 | Hi
cheric run a.c ! 0 0 0 1 | 22 | | Hi",
    },
    Table {
        file: COPY,
        is_built: false,
        input: "",
        cases: "cheric run a.c | 0 | exit 0",
    },
    Table {
        file: COPY,
        is_built: false,
        input: "abc",
        cases: "\
cheric run a.c | 0 | exit 0 | abc
cheric run a.c ! 0 2 0 0 | 21 | input | a
cheric run a.c ! 0 4 0 0 | 21 | input | abc",
    },
    Table {
        file: "int main(void){while(1){}}",
        is_built: false,
        input: "",
        cases: "cheric run a.c --steps 1000 | 4 | steps",
    },
];

#[test]
fn runs_end_by_faults_and_limits(rt: HostRuntime) {
    calls_are_answered(&rt, rt.alloc(), &ENDS);
}

/// The status of words without input, and what they put to an output and to notes of so much room, which tell nothing.
fn told<F: Files>(alloc: Global, words: &Vec<String>, files: &mut F) -> (u8, [u8; 2], [u8; 7])
    requires { F.faults files.old < 2 ^ 64 - 1 }
{
    let mut room = [0u8; 2];
    let mut line = [0u8; 7];
    let status = {
        let mut input = StdInput::new(b"".as_slice());
        let mut out = StdOutput::new(room.as_mut_slice());
        let mut notes = StdOutput::new(line.as_mut_slice());
        cheric(alloc, words, files, &mut input, &mut out, &mut notes)
    };
    (status, room, line)
}

#[test]
fn input_and_files_that_tell_nothing(rt: HostRuntime) -> Result<(), Fail> {
    let alloc = rt.alloc();
    let name = "cheric_rows_test.c";
    let words = words_of(alloc, "cheric run cheric_rows_test.c")?;
    let mut files = HostFiles::new(rt.clone()?);
    assert_eq!(rt; files.put(alloc, name, HI.as_bytes()), Ok(()));
    let told = told(alloc, &words, &mut files);
    fs::remove_file(&rt, name)?;
    assert_eq!(rt; told, (0, *b"Hi", *b"exit 0\n"));
    Ok(())
}
