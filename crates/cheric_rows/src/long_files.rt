//! Long files: chains of types of which each is made of the one before, so that what has to be judged doubles at each
//! or is very deep, brackets in one another, and files that are large in one thing.

use crate::calls::is_answered;
use crate::front_rows::{By, is_as_wanted};
use cheric_build::front;
use std::alloc::{AllocError, Global};
use std::fmt::Write;
use std::process::Abort;

/// A text by its parts, each with how often it stands there. In a part `#` is the number of the time, from 1 on, and
/// `@` the number before it.
type Text = &'static [(&'static str, u32)];

/// Files, and what is said of each.
type Long = (Text, &'static str);

const CHAINS: [Long; 8] = [
    // the layout of a union with two members of the one before is not computed anew for each
    (
        &[
            ("union U0{int a;};", 1),
            ("union U#{union U@ a,b;};", 40),
            (
                "union U40 v;int z[sizeof v==4?1:-1];int main(void){union U40 u;return sizeof u+z[0];}",
                1,
            ),
        ],
        "typed",
    ),
    // the 24th has exactly 67,108,864 bytes, and the 25th is too large, at its keyword
    (
        &[
            ("struct S0{int a;};", 1),
            ("struct S#{struct S@ a,b;};", 25),
            ("int main(void){return 0;}", 1),
        ],
        "140 1:672",
    ),
    // types that share their parts 2^30 times, compatible up to one length
    (
        &[
            (
                "typedef void(*F0)(int(*)[]);typedef void(*G0)(int(*)[3]);",
                1,
            ),
            ("typedef void(*F#)(F@,F@);typedef void(*G#)(G@,G@);", 30),
            ("extern F30 x;G30 x;int main(void){return x==0;}", 1),
        ],
        "typed",
    ),
    // the same, not compatible at the bottom
    (
        &[
            (
                "typedef void(*F0)(int(*)[]);typedef void(*G0)(char(*)[3]);",
                1,
            ),
            ("typedef void(*F#)(F@,F@);typedef void(*G#)(G@,G@);", 30),
            ("extern F30 x;G30 x;int main(void){return 0;}", 1),
        ],
        "131 1:1698",
    ),
    // 400 pointers deep, const at the bottom: no type is bounded by the height of the tree
    (
        &[
            ("typedef int P0;typedef const int Q0;", 1),
            ("typedef P@*P#;typedef Q@*Q#;", 400),
            ("extern P400 x;extern Q400 x;int main(void){return 0;}", 1),
        ],
        "131 1:14027",
    ),
    // function, block, return, 196 operators and a literal are 200 high; so are 197 brackets; and on the left
    (
        &[("int main(void){return ", 1), ("!", 196), ("1;}", 1)],
        "typed",
    ),
    (
        &[
            ("int main(void){return ", 1),
            ("(", 196),
            ("1", 1),
            (")", 196),
            (";}", 1),
        ],
        "typed",
    ),
    (
        &[("int main(void){return 1", 1), ("+1", 196), (";}", 1)],
        "typed",
    ),
];

const TYPED: [Long; 6] = [
    (
        &[
            ("typedef int T0;", 1),
            ("typedef T@*T#;", 5_000),
            ("T5000 x;int main(void){return 0;}", 1),
        ],
        "typed",
    ),
    (
        &[
            ("typedef int T0;", 1),
            ("typedef T@ T#[1];", 5_000),
            ("int main(void){T5000 x={};return 0;}", 1),
        ],
        "typed",
    ),
    (UNIONS, "typed"),
    (
        &[
            ("int a[50000]={", 1),
            ("1,", 50_000),
            ("};int main(void){return 0;}", 1),
        ],
        "typed",
    ),
    (
        &[("int g@=1;", 10_000), ("int main(void){return 0;}", 1)],
        "typed",
    ),
    (LARGE, "typed"),
];

/// Unions with two members of the one before, and an array of one element if the last is as large as `int`.
const UNIONS: Text = &[
    ("union U0{int a;};", 1),
    ("union U#{union U@ a;union U@ b;};", 10_000),
    (
        "union U10000 u;int a[sizeof u==sizeof(int)];int main(void){return 0;}",
        1,
    ),
];

/// Objects that are far too large in sum.
const LARGE: Text = &[
    ("char g@[60000000];", 20_000),
    ("int main(void){return 0;}", 1),
];

const BUILT: [Long; 4] = [
    (UNIONS, "built"),
    (
        &[
            ("struct S0{int a;};", 1),
            ("struct S#{struct S@ a;};", 50_000),
            ("struct S50000 s;int main(void){return 0;}", 1),
        ],
        "built",
    ),
    (LARGE, "141 1:1"),
    (
        &[
            ("int main(void){return ", 1),
            ("(", 199),
            ("1", 1),
            (")", 199),
            (";}", 1),
        ],
        "120",
    ),
];

/// Words and files, with the status, output and line.
type Called = (&'static str, Text, u8, Text, &'static str);

const CALLED: [Called; 9] = [
    // in brackets; with the function's body there are more than 200 in one another
    (
        "cheric run a.c",
        &[
            ("int main(void){return ", 1),
            ("(", 100),
            ("1", 1),
            (")", 100),
            (";}", 1),
        ],
        1,
        &[],
        "exit 1\n",
    ),
    (
        "cheric run a.c",
        &[
            ("int main(void){return ", 1),
            ("(", 200),
            ("1", 1),
            (")", 200),
            (";}", 1),
        ],
        10,
        &[],
        "refused 121 1:222\n",
    ),
    // each put weighs 6, and the rest 11
    (
        "cheric run a.c",
        &[
            ("int main(void){", 1),
            ("putchar(65);", 14),
            ("return 0;}", 1),
        ],
        0,
        &[("A", 14)],
        "exit 0\n",
    ),
    (
        "cheric run a.c",
        &[
            ("int main(void){", 1),
            ("putchar(65);", 15),
            ("return 0;}", 1),
        ],
        0,
        &[("A", 15)],
        "exit 0\n",
    ),
    (
        "cheric run a.c",
        &[
            ("int main(void){", 1),
            ("putchar(65);", 1_294),
            ("return 0;}", 1),
        ],
        0,
        &[("A", 1_294)],
        "exit 0\n",
    ),
    (
        "cheric run a.c",
        &[
            ("int main(void){", 1),
            ("putchar(65);", 1_295),
            ("return 0;}", 1),
        ],
        10,
        &[],
        "refused 142 1:1\n",
    ),
    // each statement weighs 2, the function 8 and its block 1
    (
        "cheric run a.c",
        &[("int g;int main(void){", 1), ("7;", 3_885), ("}", 1)],
        0,
        &[],
        "exit 0\n",
    ),
    (
        "cheric run a.c",
        &[("int g;int main(void){", 1), ("7;", 3_886), ("}", 1)],
        10,
        &[],
        "refused 142 1:1\n",
    ),
    // 3,800 parameters: each of four among them has its argument
    (
        "cheric run a.c",
        &[
            ("int f(int z", 1),
            (",int a#", 3_799),
            (
                "){return a3799-3799+a1900-1900+a1-1+z-6;}int main(void){return f(7",
                1,
            ),
            (",#", 3_799),
            (");}", 1),
        ],
        1,
        &[],
        "exit 1\n",
    ),
];

const HEAVY: [Called; 5] = [
    // the limit is each function's: two of the most weight, and one that weighs one more than it may
    (
        "cheric run a.c",
        &[
            ("int f(void){", 1),
            ("7;", 3_885),
            (";}int main(void){", 1),
            ("7;", 3_885),
            (";}", 1),
        ],
        0,
        &[],
        "exit 0\n",
    ),
    (
        "cheric run a.c",
        &[
            ("int f(void){", 1),
            ("7;", 3_886),
            ("}int main(void){return 0;}", 1),
        ],
        10,
        &[],
        "refused 142 1:1\n",
    ),
    // and one for all together: 10,000 functions of 25, and one unit more
    (
        "cheric run a.c",
        &[
            ("int f#(void){7;7;7;7;7;7;7;7;}", 9_999),
            ("int main(void){7;7;7;7;7;7;7;7;}", 1),
        ],
        0,
        &[],
        "exit 0\n",
    ),
    (
        "cheric run a.c",
        &[
            ("int f#(void){7;7;7;7;7;7;7;7;}", 9_999),
            ("int main(void){7;7;7;7;7;7;7;7;;}", 1),
        ],
        10,
        &[],
        "refused 142 1:1\n",
    ),
    // calls both ways across a text of more than 1,048,576 bytes
    (
        "cheric run a.c",
        &[
            ("long last(void);long f0(void){return last();}", 1),
            (
                "long f#(void){return f@()+0x7123456789abcdef-0x7123456789abcdef;}",
                10_000,
            ),
            (
                "long last(void){return 7;}int main(void){return f10000();}",
                1,
            ),
        ],
        1,
        &[],
        "exit 7\n",
    ),
];

const EQUAL: [Called; 6] = [
    // brackets that are never closed
    (
        "cheric run a.c",
        &[("(", 201)],
        10,
        &[],
        "refused 121 1:201\n",
    ),
    (
        "cheric build a.c",
        &[("(", 201)],
        10,
        &[],
        "refused 121 1:201\n",
    ),
    // as long as a file may be, and longer
    (
        "cheric run a.c",
        &[(" ", 4_194_305)],
        10,
        &[],
        "refused 143 1:1\n",
    ),
    (
        "cheric build a.c",
        &[(" ", 4_194_305)],
        10,
        &[],
        "refused 143 1:1\n",
    ),
    (
        "cheric run a.c",
        &[(" ", 4_194_304)],
        10,
        &[],
        "refused 135 1:1\n",
    ),
    (
        "cheric build a.c",
        &[(" ", 4_194_304)],
        10,
        &[],
        "refused 135 1:1\n",
    ),
];

/// Files, with the number of the objects, and of the bytes that are kept of the first: no zeros behind its last value.
const OBJECTS: [(Text, usize, usize); 2] = [
    (LARGE, 20_000, 0),
    (
        &[("char big[60000000]={1};int main(void){return 0;}", 1)],
        1,
        1,
    ),
];

/// Appends a part at its time of this number.
fn push_part(text: &mut String, part: &str, number: u32) -> Result<(), AllocError> {
    for letter in part.chars() {
        match letter {
            '#' => write!(text, "{number}")?,
            '@' => {
                let before = number.saturating_sub(1);
                write!(text, "{before}")?;
            }
            c => text.push(c)?,
        }
    }
    Ok(())
}

fn text_of(alloc: Global, parts: Text) -> Result<String, AllocError> {
    let mut text = String::new(alloc);
    for &(part, count) in parts {
        for number in 1..=count {
            push_part(&mut text, part, number)?;
        }
    }
    Ok(text)
}

fn is_said(alloc: Global, by: By, file: Text, want: &str) -> bool {
    let Ok(text) = text_of(alloc, file) else {
        return false;
    };
    is_as_wanted(alloc, by, text.as_bytes(), want)
}

fn are_said(rt: &impl Abort, alloc: Global, by: By, rows: &[Long]) {
    for &(file, want) in rows {
        assert!(rt; is_said(alloc, by, file, want), "{want}");
    }
}

#[test]
fn chains_are_typed_or_refused(rt: HostRuntime) {
    are_said(&rt, rt.alloc(), By::Front, &CHAINS);
}

#[test]
fn long_files_are_typed(rt: HostRuntime) {
    are_said(&rt, rt.alloc(), By::Front, &TYPED);
}

#[test]
fn long_files_are_built_or_refused(rt: HostRuntime) {
    are_said(&rt, rt.alloc(), By::Build, &BUILT);
}

fn is_called(alloc: Global, &(words, file, status, put, line): &Called) -> bool {
    let (Ok(file), Ok(put)) = (text_of(alloc, file), text_of(alloc, put)) else {
        return false;
    };
    is_answered(alloc, file.as_bytes(), words, (status, &put, line))
}

fn are_called(rt: &impl Abort, alloc: Global, rows: &[Called]) {
    for row in rows {
        assert!(rt; is_called(alloc, row), "{}", row.4);
    }
}

#[test]
fn long_files_are_called(rt: HostRuntime) {
    are_called(&rt, rt.alloc(), &CALLED);
}

#[test]
fn heavy_files_are_called(rt: HostRuntime) {
    are_called(&rt, rt.alloc(), &HEAVY);
}

#[test]
fn files_of_equal_bytes_are_refused(rt: HostRuntime) {
    are_called(&rt, rt.alloc(), &EQUAL);
}

/// How many objects a file has, and how many bytes are kept of the first.
fn kept(alloc: Global, file: Text) -> Option<(usize, usize)> {
    let text = text_of(alloc, file).ok()?;
    let p = front(alloc, text.as_bytes()).ok()?;
    let globals = p.globals.as_slice();
    Some((globals.len(), globals.first()?.bytes.as_slice().len()))
}

#[test]
fn objects_keep_their_values_alone(rt: HostRuntime) {
    for &(file, count, bytes) in &OBJECTS {
        assert!(rt; kept(rt.alloc(), file) == Some((count, bytes)), "{count}");
    }
}
