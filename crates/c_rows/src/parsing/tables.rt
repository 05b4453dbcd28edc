//! Texts, and whether C's grammar has a tree for them (C11 6.5 to 6.9, without declarations of parameters by old style
//! lists and without implicit `int`).

/// Each line has `tree`, or the code of the refusal and mostly its place, and then a file. A backquote parts what is
/// there once from what is there as often as the number before a `*` says. A remark stands behind `//`.
pub(super) const FILES: &str = "\
// tokens before brackets, brackets before trees
100 1:26: int main(void){return 0;}@
101 1:26: int main(void){return 0;}/*
102 1:23: int main(void){return 18446744073709551616;}
103 1:1: float x;
104 1:1: #pragma pack(1)
100 1:7: ((( ) @ float
// no tree: at the token where none goes on, or at the last one
120 1:24: int main(void){return 0;
120 1:5: int x
120 1:1: x;
120 1:8: int a[(;
120: int f(void) { case 1: ; }
// names of types: declared again as something else, in inner blocks, and forgotten at a block's end
120: typedef int T;int main(void){T T=3;return T;}
120: typedef int T; T T;
120: typedef int T; int T(void);
120: typedef int T; int f(int T);
120: typedef int T; enum { T };
120: typedef int T; int f(void) { T = 1; }
120: typedef int T; int f(void) { typedef int T; }
tree: typedef int T; typedef int T;
tree: typedef int T; typedef T T;
tree: int f(void) { { typedef int T; T x; } int T; T = 1; }
120: int f(void) { { typedef int T; T x; } T y; }
tree: int f(void) { typedef int T; { T x; { T *y; } } T z; } int T;
120: int f(void) { typedef int T; } T x;
tree: int f(void) { for (typedef int T; ; ) { T x; } int T; }
120: int f(void) { for (typedef int T; ; ) ; T x; }
tree: int f(void) { switch (1) { typedef int T; T x; } int T; }
tree: typedef int A, B[sizeof(A)], C; C f(B, A);
tree: typedef int A = sizeof(A); A x;
// as a tag, as a member and behind a dot and an arrow
tree: typedef int T; struct T { int T, *U; } s; int f(void) { s.T = 1; (&s)->T = 2; }
tree: typedef int T; union T { T T; T U; }; enum T { A };
120: typedef int T; struct S { const T; };
tree: int f(size_t n, uint8_t *p, ptraddr_t a); intptr_t size;
// Files that have a tree, by production.
// file, external
tree: 
tree: ;;
tree: int x; int f(void) { } ;
tree: static inline int f(void) { return 1; }
// that what is defined is a function is no rule of the grammar (6.9.1p2)
tree: int x { }
// declaration, initd
tree: int;
tree: struct S;
tree: int x, *y = 0, z[2];
tree: int x = 1;
// init
tree: int a[2] = { 1, 2 };
tree: int a[2] = { 1, { 2, }, };
tree: int a[2] = { };
tree: int x = y = 3;
// specs
tree: const unsigned long long volatile x;
tree: extern _Bool x; static __intcap_t y; auto __uintcap_t z; register char w;
tree: int typedef T; T t; T const u; static T v;
// which words make a type is no rule of the grammar (6.7.2p2)
tree: signed char void short restrict x; const y;
// record_t, member
tree: struct S { int a; } s;
tree: union { int a, *b; struct { char c; } d; } u;
tree: struct S s, *t;
tree: typedef int T; struct S { int T; const int (T); };
// enum_t, elist
tree: enum E;
tree: enum { A };
tree: enum E { A = 1, B, C = 2 + 3, } e;
// declr, direct
tree: int *x, **y, *const volatile *restrict z;
tree: int (x), (*y), ((z));
tree: int a[1][2], b[], c[sizeof(int)];
tree: int f(), g(void), (*h)(int), *i(int);
tree: int (*(*f)(void))[3];
// params, param, adeclr
tree: int f(int x, char *y, int z[], int (*g)(int));
tree: int f(int, char *, int [], int (*)(int), int ());
tree: typedef int T; int f(T, T *, T (*)(T), int (T));
tree: int f(int [3][4], int *(int));
// block
tree: int f(void) { { } { int x; x; } }
tree: int f(void) { int x; ; int y; }
// typename
tree: int x = sizeof(int) + sizeof(int *[3]) + (int)2;
tree: int x = sizeof(struct { int a; }) + sizeof(const unsigned);
tree: int x = (int (*)(void))0;
// text
tree: char *s = \"a\" \"b\" \"c\";
tree: char s[] = \"a\", c = 'x';
tree: int a = 0x1F + 010 + 1ULL;
// Files that have none.
// file, external
120: }
120: int f(void) { };}
120: f(void) { }
120: int f(void) return 1;
120: int f(void) { } { }
// declaration, initd
120: int x
120: int x y;
120: int x,;
120: int ,x;
120: int = 1;
120: x = 1;
// init
120: int a[2] = { 1 2 };
120: int a[2] = { , };
120: int a[2] = { 1, , };
120: int x = ;
120: int x = 1, = 2;
// specs
120: typedef int T; T int x;
120: typedef int T; int T x;
120: typedef int T; T T x;
120: sizeof x;
// record_t, member
120: struct { } s;
120: struct;
120: struct S { int; };
120: struct S { int a };
120: struct S { int a = 1; };
120: struct S { int a, ; };
// enum_t, elist
120: enum { };
120: enum;
120: enum E { , A };
120: enum E { A = };
120: enum E { A B };
// declr, direct
120: int *;
120: int * x y;
120: int ();
120: int (x;
120: int x[;
120: int x[1, 2];
120: int [3];
120: int x(void;
// params, param
120: int f(x) { }
120: int f(int,);
120: int f(, int);
120: int f(int x = 1);
120: int f(int x; int y);
// What stands in a function and has a tree.
tree: int f(void) { ; {} { ; } }
tree: int f(void) { x; x, y; f(x); }
tree: int f(void) { if (a) b; }
tree: int f(void) { if (a) b; else c; }
tree: int f(void) { if (a) if (b) c; else d; else e; }
tree: int f(void) { if (a) { } else if (b) { } else { } }
tree: int f(void) { while (a) b; }
tree: int f(void) { while (a) while (b) { c; } }
tree: int f(void) { do a; while (b); }
tree: int f(void) { do { a; } while (b); c; }
tree: int f(void) { do if (a) b; while (c); else_ = 1; }
tree: int f(void) { for (;;) ; }
tree: int f(void) { for (a; b; c) d; }
tree: int f(void) { for (int i = 0, *j; i < 3; ++i) { int i; } }
tree: int f(void) { for (int; ; ) { } }
tree: int f(void) { switch (a) { } }
tree: int f(void) { switch (a) { case 1: case 2 ? 3 : 4: b; default: c; } }
tree: int f(void) { switch (a) { case 1: int x; x = 1; break; b; default: } }
tree: int f(void) { while (a) { break; continue; } }
tree: int f(void) { return; }
tree: int f(void) { return a, b; }
tree: int f(void) { int x; struct S { int a; } s; typedef int T; T t; }
// What stands in a function and has none.
120: int f(void) { x }
120: int f(void) { x y; }
120: int f(void) { ) ; }
120: int f(void) { if a b; }
120: int f(void) { if (a)  }
120: int f(void) { if (a) int x; }
120: int f(void) { if (a) b; else }
120: int f(void) { else b; }
120: int f(void) { if (a) b; c; else d; }
120: int f(void) { if () a; }
120: int f(void) { while (a) }
120: int f(void) { while a; }
120: int f(void) { do a while (b); }
120: int f(void) { do a; while (b) }
120: int f(void) { do a; b; while (c); }
120: int f(void) { for (;) ; }
120: int f(void) { for (;;;) ; }
120: int f(void) { for (a) b; }
120: int f(void) { for (int i) ; }
120: int f(void) { for (;;) int x; }
120: int f(void) { switch (a) ; }
120: int f(void) { switch (a) b; }
120: int f(void) { switch (a) { case: b; } }
120: int f(void) { switch (a) { case 1, 2: b; } }
120: int f(void) { switch (a) { { case 1: b; } } }
120: int f(void) { default: a; }
120: int f(void) { break }
120: int f(void) { continue a; }
120: int f(void) { return }
120: int f(void) { int f(void) { } }
// Initial values that have a tree.
// primary
tree: int x = a;
tree: int x = ((1));
tree: int x = 'c' + \"s\"[0];
tree: int x = (a, b);
// postfix
tree: int x = a[b, c][d];
tree: int x = f()(a)(b, c = d);
tree: int x = a.b->c.d;
tree: int x = a++ -- [1]++;
// unary
tree: int x = ++--a;
tree: int x = &*+-~!a;
tree: int x = -(int)a + !(char)b;
tree: int x = sizeof a + sizeof(a) + sizeof(int);
tree: int x = sizeof(int) * a;
tree: int x = sizeof sizeof(int);
tree: int x = sizeof -a[1];
// cast
tree: int x = (int)(char)a;
tree: int x = (int)-a * (int)sizeof(char);
tree: int x = (const int *)a;
// binary
tree: int x = a * b / c % d + e - f;
tree: int x = a << b >> c < d > e <= f >= g;
tree: int x = a == b != c & d ^ e | f && g || h;
tree: int x = a - b - c * d;
tree: int x = a & &b && *c * *d;
// cond
tree: int x = a ? b : c;
tree: int x = a ? b, c : d ? e : f;
tree: int x = a ? b ? c : d : e;
tree: int x = a || b ? c : d;
// assign
tree: int x = a = b = c;
tree: int x = a += b -= c *= d /= e %= f;
tree: int x = a <<= b >>= c &= d ^= e |= f;
tree: int x = *a++ = b ? c : d;
tree: int x = -a = !b = sizeof c = d;
// Initial values that have none.
// primary
120: int x = ;
120: int x = ();
120: int x = (a;
120: int x = a b;
120: int x = \"a\" 1;
120: int x = int;
// postfix
120: int x = a[];
120: int x = a. 1;
120: int x = f(a,);
120: int x = f(,);
120: int x = a. 1;
120: int x = a->;
120: int x = a.(b);
// unary
120: int x = ++;
120: int x = a ++ b;
120: int x = ++(int)a;
120: int x = - ;
120: int x = sizeof;
120: int x = sizeof(int)a;
120: int x = sizeof(int)++;
120: int x = sizeof int;
120: int x = sizeof (int)-a--b;
// cast
120: int x = (int);
120: int x = (int)a = b;
120: int x = (int x)a;
120: int x = (a)b;
// binary
120: int x = a *;
120: int x = / b;
120: int x = a + * + ;
120: int x = a < > b;
120: int x = a && || b;
// cond
120: int x = a ? b;
120: int x = a ? : b;
120: int x = a : b;
120: int x = a ? b : c = d;
120: int x = a ? b : c, d = ;
// assign
120: int x = a + b = c;
120: int x = a = ;
120: int x = = b;
120: int x = a = b + c = d;
// Nestings. A function, its block, a statement and what is innermost count four levels.
121 1:222: int main(void){return `200*(`1`200*)`;}
120: int main(void){return `199*(`1`199*)`;}
120: int main(void){return `197*(`1`197*)`;}
tree: int main(void){return `196*(`1`196*)`;}
tree: int main(void){return `100*(`1`100*)`;}
121 1:422: int main(void){return `200*a[`1`200*]`;}
120: int main(void){return `197*a[`1`197*]`;}
tree: int main(void){return `196*a[`1`196*]`;}
121 1:215: int main(void)`201*{``201*}
120: int main(void)`200*{``200*}
tree: int main(void)`199*{``199*}
// all kinds together
121 1:201: `67*([{`
120: `66*([{`
// what closes before it opens
120: `300*)``300*(
120: ))`202*(`
121 1:205: ))`203*(`
120: `300*()[]{}`
// operators and declarators
tree: int x = `197*- `1`;
120: int x = `198*- `1`;
tree: int x = a`197*[1]``;
120: int x = a`198*[1]``;
tree: int `197**`x`;";
