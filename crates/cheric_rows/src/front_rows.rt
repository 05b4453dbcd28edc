//! What is said of files by the front end and by `build`.

use crate::calls::elf_of;
use crate::{
    constant_files, declared_files, front_tables, initialised_files, typed_files, whole_language,
};
use cheric_build::front;
use ck_base::{Pos, Refusal};
use std::alloc::{AllocError, Global};
use std::process::Abort;

/// By which of the two a file is taken or refused.
#[derive(Clone, Copy)]
pub enum By {
    Front,
    Build,
}

fn refusal(alloc: Global, by: By, text: &[u8]) -> Option<Refusal> {
    match by {
        By::Front => front(alloc, text).err(),
        By::Build => elf_of(alloc, text).err(),
    }
}

/// `typed` or `built`, or the code and the place of the refusal, or `no memory`.
fn answer(alloc: Global, by: By, text: &[u8]) -> Result<String, AllocError> {
    match (refusal(alloc, by, text), by) {
        (None, By::Front) => String::from_str(alloc, "typed"),
        (None, By::Build) => String::from_str(alloc, "built"),
        (Some(Refusal::Code(code, Pos { line, col })), _) => format!(in alloc;
            "{code} {line}:{col}"
        ),
        (Some(Refusal::NoMemory), _) => String::from_str(alloc, "no memory"),
    }
}

/// Whether a file is answered so. A refusal by 120 may be at any place.
pub fn is_as_wanted(alloc: Global, by: By, text: &[u8], want: &str) -> bool {
    let Ok(got) = answer(alloc, by, text) else {
        return false;
    };
    got.as_str() == want || (want == "120" && got.as_str().starts_with("120 "))
}

/// Whether the file of a row is answered as the row says.
fn is_so(alloc: Global, by: By, row: &str) -> Option<bool> {
    let (head, file) = row.split_once('\n').unwrap_or((row, ""));
    let (want, _) = head.split_once(": ")?;
    Some(is_as_wanted(alloc, by, file.as_bytes(), want))
}

/// Each row of a table, as `front_tables` writes them, is answered as it says.
fn are_so(rt: &impl Abort, alloc: Global, by: By, table: &str) {
    for row in table.split("\n\n") {
        assert!(rt;
            row.starts_with("//") || is_so(alloc, by, row) == Some(true),
            "{row}"
        );
    }
}

#[test]
fn files_of_each_kind_are_typed_or_refused(rt: HostRuntime) {
    are_so(&rt, rt.alloc(), By::Front, front_tables::FILES);
}

#[test]
fn declarations_are_typed_or_refused(rt: HostRuntime) {
    are_so(&rt, rt.alloc(), By::Front, declared_files::FILES);
}

#[test]
fn initialisers_are_typed_or_refused(rt: HostRuntime) {
    are_so(&rt, rt.alloc(), By::Front, initialised_files::FILES);
}

#[test]
fn expressions_are_typed_or_refused(rt: HostRuntime) {
    are_so(&rt, rt.alloc(), By::Front, typed_files::FILES);
}

#[test]
fn constants_are_typed_or_refused(rt: HostRuntime) {
    are_so(&rt, rt.alloc(), By::Front, constant_files::FILES);
}

/// Files, and what `build` says of each.
const BUILT: &str = "\
built: an object that nothing uses
int g;int main(void){return 0;}

built: a pointer that is null
int main(void){int *p=0;return !p;}

built: a call
int f(void){return 0;}int main(void){return f();}

141 1:1: objects that are too large in sum
char a[40000000];char b[40000000];int main(void){return 0;}

141 1:1: a frame that the stack has no room for
int main(void){char a[67108800];return 0;}

134 1:24: an address past 2^63 bytes, in an array that is too short when its length is known
extern char c[];char*p=c+0x7fffffffffffffff+0x7fffffffffffffff;char c[1];
int main(void){return 0;}

no memory: a list of locals with more than 4,194,304 scalars, answered before a zero is made of the last one
int main(void){char a[67108864]={1};return 0;}

no memory: the same of empty braces
int main(void){char a[67108864]={};return 0;}

no memory: the same of two locals in sum
int main(void){char a[65536]=\"\",b[4128769]={1};return 0;}";

#[test]
fn files_are_built_or_refused(rt: HostRuntime) {
    are_so(&rt, rt.alloc(), By::Build, BUILT);
}

#[test]
fn a_whole_program_is_built(rt: HostRuntime) {
    let file = whole_language::WORDS.as_bytes();
    assert!(rt; is_as_wanted(rt.alloc(), By::Build, file, "built"));
}
