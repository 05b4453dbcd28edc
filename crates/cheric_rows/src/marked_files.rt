//! Files with line markers: the places that the command prints are the user's own.

use crate::calls::{Table, answers_on, calls_are_answered, files_are_answered, is_answered};
use std::alloc::{AllocError, Global};

/// Files, and how their runs are answered.
const RUN: &str = "\
10 | refused 130 useh.c:2:23
# 1 \"useh.c\"
int x;
int main(void){return y;}

10 | refused 130 a.c:3:23 | | as gcc writes it
# 0 \"a.c\"
# 0 \"<built-in>\"
# 1 \"a.c\"
# 1 \"h.h\" 1 3 4
int f(void);
# 3 \"a.c\" 2
int main(void){return y;}

10 | refused 103 h.h:5:3 | | in a header
# 1 \"a.c\"
 # 5 \"h.h\" 1
  float x;

10 | refused 130 dir/b \\\"q\\\".c:41:23 | | by `#line`, and a name with escapes
#pragma once
\t# line 40 \"dir/b \\\"q\\\".c\"
int f(void);
int main(void){return y;}

10 | refused 130 a.c:9:23 | | a marker without a name keeps the one in force
# 1 \"a.c\"
#line 8
int f(void);
int main(void){return y;}

10 | refused 130 8:23 | | and there may be none
#line 8
int main(void){return y;}

10 | refused 130 a.c:7:23 | | a name that is not closed
# 1 \"a.c\"
# 7 \"b.c
int main(void){return y;}

10 | refused 130 a.c:2:23 | | a number of 2^32 is no marker
# 1 \"a.c\"
# 4294967296 \"b.c\"
int main(void){return y;}

10 | refused 130 b.c:4294967296:23 | | one below is
# 4294967295 \"b.c\"
int f(void);
int main(void){return y;}

10 | refused 130 a.c:6:35 | | in comments and literals nothing is a marker, and nothing opens a comment
# 1 \"a.c\" /*
// /*
int c='\"';char*s=\"/*\\\"\"; /*
# 70 \"b.c\"
# 71 \"c.c\" /**/ int f(void); /**
#line 72 */
int g(void);int main(void){return y;}

10 | refused 135 1:1 | | where a file begins there is no marker before
# 5 \"b.c\"
int x;

10 | refused 120 a.c:1:24 | | nothing stands behind the last line
# 1 \"a.c\"
int main(void){return 0;
 # 5 \"b.c\"

2 | trap bounds m.c:31:54 | ABCDEFGHIJ
# 31 \"m.c\"
int main(void){int a[10];int i;for(i=0;i<=10;i=i+1){a[i]=i;putchar(65+i);}return 0;}

3 | stack h.h:9:5
# 9 \"h.h\"
int f(int n){return f(n+1)+1;}
# 2 \"m.c\"
int main(void){return f(0);}";

#[test]
fn runs_name_marked_places(rt: HostRuntime) {
    files_are_answered(&rt, rt.alloc(), "cheric run a.c", RUN);
}

/// Files, and how their strict meanings are answered.
const MEANT: &str = "\
5 | unspecified undefined x.c:9:24
#line 9 \"x.c\"
int main(void){return 1<<32;}

5 | outside x.c:10:66
# 9 \"x.c\" 2
int g;
int *f(void){int x=1;return &x;}int main(void){int *p=f();return *p;}";

#[test]
fn meanings_name_marked_places(rt: HostRuntime) {
    files_are_answered(&rt, rt.alloc(), "cheric mean a.c", MEANT);
}

/// An image keeps the positions of the bytes that it was built of.
const BUILT: [Table; 1] = [Table {
    file: "# 31 \"m.c\"\nint main(void){int a[2];int i=2;return a[i];}",
    is_built: true,
    input: "",
    cases: "\
cheric run a.c | 2 | trap bounds m.c:31:41
cheric exec a.c.elf | 2 | trap bounds 2:41
cheric exec a.c | 12 | image 1
cheric map b.c | 20 | file",
}];

#[test]
fn images_have_no_marks(rt: HostRuntime) {
    calls_are_answered(&rt, rt.alloc(), &BUILT);
}

/// A file whose name has 100,000 bytes, and the line that refuses it.
fn long_name(alloc: Global) -> Result<(String, String), AllocError> {
    let name = "n".repeat(alloc, 100_000)?;
    let file = format!(in alloc; "# 3 \"{name}\"\nint main(void){{return y;}}")?;
    let line = format!(in alloc; "refused 130 {name}:3:23\n")?;
    Ok((file, line))
}

#[test]
fn names_have_any_length(rt: HostRuntime) {
    let Ok((file, line)) = long_name(rt.alloc()) else {
        return;
    };
    let answer = (10, "", line.as_str());
    assert!(rt; is_answered(rt.alloc(), file.as_bytes(), "cheric build a.c", answer));
}

#[test]
fn notes_fail_within_a_line(rt: HostRuntime) {
    let file = b"# 3 \"b.c\"\nint main(void){return y;}";
    let answer = (22, "", "refused 130 b.c");
    let failing = [0, 0, 0, 3];
    let done = answers_on(
        rt.alloc(),
        "a.c",
        file,
        "cheric run a.c",
        "",
        failing,
        answer,
    );
    assert!(rt; done == Ok(true));
}
