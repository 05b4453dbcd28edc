//! The mode `mean`: where the strict meaning of a program ends.

use crate::calls::{Table, calls_are_answered, files_are_answered};
use crate::hostile::COPY;

/// Files, and how their strict meanings end, with eleven turns.
const MEANT: &str = "\
2 | trap bounds 1:54 | ABCDEFGHIJ
int main(void){int a[10];int i;for(i=0;i<=10;i=i+1){a[i]=i;putchar(65+i);}return 0;}

5 | unspecified padding 1:40
int main(void){char *p=malloc(100000);p[100095]=1;putchar(79);p[100096]=1;return 0;}

5 | unspecified address 1:76
int main(void){int x=5;int *p=&x;unsigned char *c=(unsigned char*)&p;c[0]=c[0];putchar(48+*p);return 0;}

5 | unspecified excursion 3:4 | A
int main(void){
char a[40];char *p=a+400;p=p-400;p[0]=65;putchar(a[0]);
p=a+20000;p=p-20000;
p[0]=66;return 0;}

4 | turns
int main(void){while(1){}}

5 | unspecified undefined 1:53
int main(void){int a=7,z=0,m=-2147483647-1,k=-1;if(a/z==-1)putchar(65);if(m/k==m)putchar(66);return 0;}

2 | trap store 1:44 | a
int main(void){char *s=\"ab\";putchar(s[0]);s[1]=65;return 0;}

0 | exit 0 | 8
int main(void){int x=8;struct P{int *p;char c;}a,b;a.p=&x;b=a;putchar(48+*b.p);return 0;}

5 | outside 1:66
int *f(void){int x=1;return &x;}int main(void){int *p=f();return *p;}

5 | unspecified unwritten 1:29
int main(void){int x;return x;}

5 | unspecified address 1:78
int *f(void){int x=1;return &x;}int main(void){int *p=f();int *q=f();return p==q;}

0 | exit 0
int main(void){int x=1,y=2;return &x==&y;}

5 | unspecified address 1:37
int main(void){int x=1,y=2;return &x<&y;}

5 | unspecified undefined 1:24
int main(void){return 1<<32;}

5 | unspecified overlap 1:79
struct S{int a[4];}s[2];int main(void){struct S *p=(struct S*)((int*)s+1);s[0]=*p;return 0;}

10 | refused 130 1:23
int main(void){return x;}";

#[test]
fn strict_meanings_end_so(rt: HostRuntime) {
    files_are_answered(&rt, rt.alloc(), "cheric mean a.c --turns 11", MEANT);
}

/// Where the input, the output or the notes fail, `mean` answers as `run` does.
const FAULTS: [Table; 1] = [Table {
    file: COPY,
    is_built: false,
    input: "abc",
    cases: "\
cheric mean a.c | 0 | exit 0 | abc
cheric mean a.c ! 0 2 0 0 | 21 | input | a
cheric mean a.c ! 0 0 2 0 | 22 | output | a
cheric mean a.c ! 0 0 0 1 | 22 | | abc",
}];

#[test]
fn faults_end_strict_meanings(rt: HostRuntime) {
    calls_are_answered(&rt, rt.alloc(), &FAULTS);
}
