//! The programs of `examples/` that show where the strict meaning ends: what `run` and `mean` put, and how they end.

use crate::calls::{Row, programs_are_answered};

const ADDRESS: &str =
    r#"/* Which of two objects stands first is not said by C: another map may order them the other way.
   By `run`: output <. Then `exit 0`, status 0. By `mean`: `unspecified address 6:15`, status 5. */
int first[4];
int second[4];
int main(void) {
    if (first < second) putchar('<');
    else putchar('>');
    return 0;
}
"#;

const UNDEFINED: &str =
    r#"/* A sum of ints that is larger than INT_MAX has no meaning in C; here it wraps.
   By `run`: output 3N. Then `exit 0`, status 0. By `mean`: output 3. Then `unspecified undefined 9:14`, status 5. */
static int add(int a, int b) {
    return a + b;
}
int main(void) {
    int most = 2147483647;
    putchar('0' + add(1, 2));
    if (most + 1 < 0) putchar('N');
    return 0;
}
"#;

const UNWRITTEN: &str =
    r#"/* A local that nothing wrote has no value that C tells; here a block's variables are 0 when it is entered.
   By `run`: output 10. Then `exit 0`, status 0. By `mean`: output 1. Then `unspecified unwritten 7:24`, status 5. */
int main(void) {
    int known[2], k = 0;
    known[0] = 1;
    putchar('0' + known[0]);
    putchar('0' + known[1]);
    return k;
}
"#;

const PADDING: &str =
    r#"/* Bounds of 100,000 bytes cannot be told exactly, so that the object has padding behind it. A use of it reaches
   no other object, but another length or another format of capabilities has it not.
   By `run`: output ab. Then `exit 0`, status 0. By `mean`: output a. Then `unspecified padding 8:6`, status 5. */
int main(void) {
    char *p = malloc(100000);
    p[99999] = 'a';
    putchar(p[99999]);
    p[100000] = 'b';
    putchar(p[100000]);
    return 0;
}
"#;

const ROUNDING: &str =
    r#"/* Bounds of 5,000 bytes are exact at some addresses alone: how long they come out depends on the object's place.
   By `run`: output >. Then `exit 0`, status 0. By `mean`: `unspecified rounding 5:31`, status 5. */
int main(void) {
    char *p = malloc(9000);
    char *q = cheri_bounds_set(p + 1, 5000);
    putchar(cheri_length_get(q) > 5000 ? '>' : '=');
    return 0;
}
"#;

const EXCURSION: &str =
    r#"/* A pointer may leave its object and come back while it is near. How far a tag lives depends on the
   object's length and place: 1,024 bytes are always too many to be told.
   By `run`: output 1. Then `exit 0`, status 0. By `mean`: output 1. Then `unspecified excursion 8:19`, status 5. */
int main(void) {
    char a[4] = {1, 2, 3, 4};
    char *near = a + 100;
    putchar('0' + *(near - 100));
    char *far = a + 2000;
    return far == a;
}
"#;

const HEAP: &str =
    r#"/* How large a heap is, no program can know: here it has 16,777,216 bytes, and what does not fit gives null.
   By `run`: output YN. Then `exit 0`, status 0. By `mean`: output Y. Then `unspecified heap 6:21`, status 5. */
int main(void) {
    char *p = malloc(16);
    putchar(p ? 'Y' : 'N');
    char *q = malloc(16777216);
    putchar(q ? 'Y' : 'N');
    return 0;
}
"#;

const OVERLAP: &str =
    r#"/* A struct is not to be copied over a part of itself: here it goes unit by unit from the front.
   By `run`: output 1. Then `exit 0`, status 0. By `mean`: output 1. Then `unspecified overlap 9:10`, status 5. */
struct S {
    int a[4];
} s[2] = {{{1, 2, 3, 4}}};
int main(void) {
    struct S *p = (struct S *)((int *)s + 1);
    putchar('0' + s[0].a[0]);
    s[0] = *p;
    return 0;
}
"#;

const OUTSIDE: &str =
    r#"/* A local of a function that has returned is no more. What a pointer to it reads is told by no meaning.
   By `mean`: output 7. Then `outside 9:19`, status 5. */
static int *local(void) {
    int x = 7;
    return &x;
}
int main(void) {
    putchar('7');
    putchar('0' + *local());
    return 0;
}
"#;

const RUN: [Row; 8] = [
    (ADDRESS, 0, "<", "exit 0\n"),
    (UNDEFINED, 0, "3N", "exit 0\n"),
    (UNWRITTEN, 0, "10", "exit 0\n"),
    (PADDING, 0, "ab", "exit 0\n"),
    (ROUNDING, 0, ">", "exit 0\n"),
    (EXCURSION, 0, "1", "exit 0\n"),
    (HEAP, 0, "YN", "exit 0\n"),
    (OVERLAP, 0, "1", "exit 0\n"),
];

const MEANT: [Row; 9] = [
    (ADDRESS, 5, "", "unspecified address 6:15\n"),
    (UNDEFINED, 5, "3", "unspecified undefined 9:14\n"),
    (UNWRITTEN, 5, "1", "unspecified unwritten 7:24\n"),
    (PADDING, 5, "a", "unspecified padding 8:6\n"),
    (ROUNDING, 5, "", "unspecified rounding 5:31\n"),
    (EXCURSION, 5, "1", "unspecified excursion 8:19\n"),
    (HEAP, 5, "Y", "unspecified heap 6:21\n"),
    (OVERLAP, 5, "1", "unspecified overlap 9:10\n"),
    (OUTSIDE, 5, "7", "outside 9:19\n"),
];

#[test]
fn examples_run_to_their_ends(rt: HostRuntime) {
    programs_are_answered(&rt, rt.alloc(), "cheric run a.c", &RUN);
}

#[test]
fn strict_meanings_of_examples_end_by_their_reasons(rt: HostRuntime) {
    programs_are_answered(&rt, rt.alloc(), "cheric mean a.c", &MEANT);
}
