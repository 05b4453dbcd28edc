//! Files that the command refuses, by each code.

use crate::calls::files_are_answered;

/// Files, and what the command says of them.
const REFUSED: &str = "\
10 | refused 135 1:1

10 | refused 100 1:26
int main(void){return 0;}@

10 | refused 101 1:26
int main(void){return 0;}/*

10 | refused 102 1:23
int main(void){return 18446744073709551616;}

10 | refused 103 1:1
float x;

10 | refused 104 1:1
#pragma pack(1)

10 | refused 120 1:24 | | the last token
int main(void){return 0;

10 | refused 130 1:23
int main(void){return x;}

10 | refused 131 1:12
int a;char a;int main(void){return 0;}

10 | refused 132 1:10
struct S s;int main(void){return 0;}

10 | refused 132 1:42
struct S;struct S f(void);int main(void){f();return 0;}

10 | refused 133 1:23
int main(void){int *p=5;return 0;}

10 | refused 134 1:13
int n;int a[n];int main(void){return 0;}

10 | refused 136 1:16
int main(void){putchar();return 0;}

10 | refused 140 1:6
char a[67108865];int main(void){return 0;}

10 | refused 141 1:1
char a[40000000];char b[40000000];int main(void){return 0;}

10 | refused 141 1:1 | | static locals are globals, with room for their bounds
int main(void){static char a[67043328];static char b;return a[0]+b;}";

/// Running and building are refused alike.
#[test]
fn files_are_refused_by_their_first_rule(rt: HostRuntime) {
    files_are_answered(&rt, rt.alloc(), "cheric run a.c", REFUSED);
    files_are_answered(&rt, rt.alloc(), "cheric build a.c", REFUSED);
}
