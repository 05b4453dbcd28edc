//! Initialisers, statements and `main` (C11 6.7.9, 6.8, 5.1.2.2.1).

/// Files, and what the front end says of each, as in `front_tables`.
pub(super) const FILES: &str = "\
133 1:20: inner braces are not left out: 3 does not convert to an array
int a[2][2]={{1,2},3};int main(void){return 0;}

133 1:61: inner braces of a struct are not left out
struct T{struct{int x;}s;int b;};int main(void){struct T t={1,2};return t.b;}

typed: strings without room for the last zero, in braces, in adjacent pieces
char s[2][3]={\"abc\",{\"de\"}},t[]={\"x\" \"y\"},u[4]=\"ab\" \"cd\";int z[sizeof t==3?1:-1];int main(void){\
    return s[1][2]+u[3]+z[0];}

133 1:20: four bytes and a zero for three: at the string
char s[2][3]={\"ab\",\"abcd\"};int main(void){return 0;}

133 1:56: a braced string for a member: at the string, not at a brace
struct N{char n[2];int v;};int main(void){struct N a={{\"abc\"},1};return a.v;}

133 1:11: two items are items of the array: a pointer for a char
char s[]={\"ab\",\"c\"};int main(void){return 0;}

133 1:12: _Bool is no character type
_Bool s[3]=\"ab\";int main(void){return 0;}

133 1:11: a string for an array of pointers
char*s[2]=\"ab\";int main(void){return 0;}

typed: braces around scalars, empty ones too: the missing item is zero
int x={{1}},*p={0},a[2]={{},{2}};int main(void){return x+a[0]+(p!=0);}

133 1:11: a scalar has one item: at the inner brace
int a[2]={{1,2}};int main(void){return 0;}

133 1:10: three items for two: at the outer brace
int a[2]={{},{},{}};int main(void){return 0;}

133 1:10: an excess item is not typed, so not 130
int a[1]={1,q};int main(void){return 0;}

130 1:11: an item within the limit is typed first
int a[1]={q,2};int main(void){return 0;}

133 1:37: a union's braces fill its first member; three items for its two: at the inner brace
union U{struct{int x,y;}s;int z;}u={{1,2,3}};int main(void){return 0;}

typed: a union from a value and from braces
union U{struct{int x,y;}s;int z;}u={{1,2}};int main(void){union U v=u,w={{3}};return v.s.y+w.s.y;}

typed: struct values as items and as whole initialisers, missing parts, a const one
int main(void){struct S{int a,b;}s={1},t[3]={s,{2}},u=s;const struct S c={s.a},d=c;return t[0].a+u.b+t[2].a+d.a;}

133 1:50: the first item is for the member, an int
struct S{int a;}s={1};int main(void){struct S t={s};return t.a;}

134 1:34: a struct value is neither a constant nor an address
struct S{int a;}s={1};struct S t=s;int main(void){return 0;}

133 1:13: 133 before 134 at one item
int n;int*p=n;int main(void){return 0;}

134 1:19: the second item fails before the third is typed
int n;int a[3]={1,n,\"x\"};int main(void){return 0;}

134 1:37: a local has no constant address
int main(void){int x=1;static int*p=&x;return *p;}

134 1:37: a const variable's value is no constant
const char*const p=\"a\";const char*q=p;int main(void){return 0;}

typed: a static local is completed by its initialiser, and has a constant address
int main(void){static int a[]={1,2,3},*p=a+2;int z[sizeof a==12?1:-1];z[0]=*p;return z[0];}

133 1:25: nothing converts to an array
int main(void){int a[3]=0;return a[0];}

133 1:27: a block's extern array with an initialiser: at the name
int main(void){extern int a[]={1};return a[0];}

typed: 1036 of 16 bytes is less than 1024 outside, and so is -1020
int g[4],*p=g+259,*q=g-255;int main(void){return p==q;}

134 1:13: 1024 bytes above the top
int g[4],*p=g+260;int main(void){return 0;}

134 1:13: 1024 bytes below the base
int g[4],*p=g-256;int main(void){return 0;}

134 1:13: at any step of its computation
int g[4],*p=g+10000-10000;int main(void){return 0;}

typed: bounds are the owned length, 4104: 1023 bytes above the top
char b[4097],*p=b+5127;int main(void){return p==b;}

134 1:24: judged with the real bounds, 1024 above 4104; of the failures at the end the first place, before 132 of s
extern char b[];char*p=b+5128;struct S s;char b[4097];int main(void){return 0;}

typed: the same one byte nearer
extern char b[];char*p=b+5127;char b[4097];int main(void){return p==b;}

134 1:36: 1024 above the member's top, though not above the struct's
struct S{char a[4];int b;}s;char*p=s.a+1028;int main(void){return 0;}

134 1:35: a narrowing that leaves the narrowed bounds does not succeed
struct S{char a[4];int b;}s;int*p=&((struct S*)s.a)->b;int main(void){return 0;}

134 1:47: one past the end is an address, a member of it cannot be narrowed to
struct S{int a,b;}a[2];struct S*p=&a[2];int*q=&a[2].b;int main(void){return 0;}

typed: a literal of 3 bytes: 1023 above its top; through a capability integer
char*p=\"ab\"+1026;uintptr_t u=(uintptr_t)\"c\";int main(void){return p==(char*)u;}

134 1:8: 1024 above a literal's top
char*p=\"ab\"+1027;int main(void){return 0;}

typed: a function's address in all spellings
int f(void){return 0;}int(*p)(void)=&f,(*q)(void)=*f,(*r)(void)=(int(*)(void))(intptr_t)f;int main(void){\
    return p()+q()+r();}

134 1:34: a number is added to a function's address, also 0
int f(void){return 0;}intptr_t i=(intptr_t)f+0;int main(void){return 0;}

typed: on a capability integer the result derives from the address: from either side, from a cast number too
int g;intptr_t i=1+(intptr_t)&g,j=(intptr_t)&g-4,k=(intptr_t)&g+(uintptr_t)2;int main(void){return i==j+k;}

134 1:18: an address is not taken from a constant
int g;intptr_t i=5-(intptr_t)&g;int main(void){return 0;}

134 1:19: nothing but adding and taking
int g;uintptr_t u=(uintptr_t)&g|0;int main(void){return 0;}

134 1:14: an address goes through casts of pointers and capability integers only
int g;long n=(long)&g;int main(void){return 0;}

134 1:12: a conditional is none of the forms of an address
int g,h,*p=1?&g:&h;int main(void){return 0;}

134 1:31: a pointer variable is read
struct S{int a;}s,*p=&s;int*q=&p->a;int main(void){return 0;}

typed: members and constant elements of a global in many spellings
struct S{int a,b[2];}s[2];int*p=&(&s[1])->a,*q=s[1].b+1,*r=&1[s].b[1],*t=*&s[0].b;int main(void){return p==q||r==t;}

typed: what is declared and unused gets no number, and a string under sizeof no literal
extern int u;int h(void);int a=1,*p=&a;int g(void){return a;}int(*q)(void)=g;int z=sizeof\"abc\";char*t=\"d\";\
    int main(void){return q()+*p+z+t[0]+sizeof(\"x\");}

typed: computed as in the placed meaning: sums wrap, counts are modulo the width
enum{A=2147483647,B=A+1};int z[B<0&&(1<<33)==2?1:-1];int main(void){return z[0];}

134 1:13: a variable's name in a constant expression, though not evaluated
int n;int a[1?2:n];int main(void){return 0;}

134 1:7: a comma, at the first byte of the whole constant expression
int a[(1,2)];int main(void){return 0;}

134 1:13: an address is no part of a constant expression
int n;int a[&n==0];int main(void){return 0;}

134 1:8: an enumerator below int
enum{A=-2147483649};int main(void){return 0;}

131 1:34: labels are converted to int before they are compared: at the word
int main(void){switch(1){case 1:;case 4294967297:;}return 0;}

typed: the operand is promoted to int, so 257 is another label; a label may stand last
int main(void){char c=1;switch(c){case 1:;case 257:;default:}return 0;}

131 1:62: -1 becomes the greatest unsigned long
int main(void){unsigned long u=1;switch(u){default:;case -1:;case 18446744073709551615u:;}return 0;}

134 1:39: 134 of a label's value, at the value
int main(void){switch(1){case 1:;case 1/0:;}return 0;}

typed: a capability integer is an integer
int main(void){intptr_t i=1;switch(i){case 1:return 0;default:return 2;}}

typed: continue in a switch in a loop
int main(void){for(;;){switch(1){case 1:continue;case 2:break;}break;}return 0;}

typed: declarations before, behind and between labels
int main(void){switch(1){int y=2;case 1:;int z=y;case 2:y=z;}return 0;}

133 1:28: a return with a value where none is given: at return
void g(void){}void f(void){return g();}int main(void){return 0;}

130 1:21: the value is typed before the rule on return
void f(void){return x;}int main(void){return 0;}

133 1:20: a pointer for an int: at the right side
int f(void){return f;}int main(void){return 0;}

133 1:36: a condition takes a scalar
void f(void){}int main(void){while(f())break;return 0;}

133 1:43: the test of a do, behind its body
struct S{int a;}s;int main(void){do;while(s);return 0;}

133 1:22: no loop stands around it
int main(void){if(1){continue;}for(;;)return 0;}

133 1:36: behind a switch, not in it
int main(void){switch(1){default:;}break;return 0;}

typed: what a function gives has no const of its own, so this is int(void) (C17 6.7.6.3p5)
const int main(void){return 0;}

typed: int(void) by a typedef name, an enumeration, parentheses and static
typedef int F(void);static F main;enum E{A};enum E(main)(void){return A;}

135 1:1: main is a typedef name
typedef int main;int f(void){return 0;}

typed: arrays and own qualifiers of parameters make no difference
int f(int a[2]);int f(int*const a);int f(int a[5]){return a[0];}int main(void){int b[5]={7};return f(b);}

typed: an array member is narrowed to its 4 bytes when it decays: 1023 above its top; b begins at 4: 1023 below it
struct S{char a[4];int b;}s;char*p=s.a+1027;char*q=(char*)&s.b-1023;int main(void){return p==q;}

134 1:36: 1024 below the member's base, though only 1020 below the struct's
struct S{char a[4];int b;}s;char*q=(char*)&s.b-1024;int main(void){return 0;}

133 1:47: const of an array type stands on its elements
typedef int A[2];int main(void){const A a={1};a[0]=1;return 0;}

133 1:59: a member of a const struct is const, its elements too
struct S{int b[2];};int main(void){const struct S s={{1}};s.b[0]=1;return 0;}

typed: a struct with a const member may be assigned
struct S{const int a;int b;};int main(void){struct S s={1,2},t={3,4};s=t;return s.a;}

typed: a parameter of array type is a pointer that is not const itself
int g(const int a[2]){a=0;return a==0;}int main(void){return g(0);}

133 1:43: the object has the same type; the declarator with the body is none of a function
int main(void){extern int x;return 0;}int x{return 1;}

typed: a block's extern object is declared again there
int main(void){extern int x;extern int x;return 0;}int x;

typed: locals, a static local and an extern object in inner scopes
int main(void){int a=1;{int a=2;{int a=3;{extern int b;static int a=4;b=a;}a=4;}}return a;}int b;

typed: extern in a block names the static object
static int x;int*p(void){extern int x;return&x;}static int x=3;int main(void){return*p();}

typed: parameters without names in a definition, of array and function type
int g(int x){return x;}int f(int,int a[],int(int),struct{int q;}*s){return a[0]+(s==0);}int main(void){int b[1]={4};\
    return f(0,b,g,0);}

133 4:2: lines and columns: a tab is one byte
int main(void){
int x=1;
  x=
\t&x;
return x;}

typed: nine parameters, defined and called
int f(int a,int b,int c,int d,int e,int g,int h,int i,int j){return a+j;}int main(void){return f(1,2,3,4,5,6,7,8,9);}

136 1:94: nine parameters take nine arguments: at the call
int f(int a,int b,int c,int d,int e,int g,int h,int i,int j){return a;}int main(void){return f(1,2,3,4,5,6,7,8);}

131 1:48: nine parameters and eight are other types
int f(int,int,int,int,int,int,int,int,int);int f(int,int,int,int,int,int,int,int);int main(void){return 0;}

typed: a function's result has no const of its own
const int f(void);int f(void){return 1;}int main(void){return f();}

typed: nor where it comes from a typedef name
typedef const int T;T f(void);int(*p)(void)=f;int f(void){return 1;}int main(void){return p();}

131 1:23: const of what a result points to stays
const int*f(void);int*f(void){return 0;}int main(void){return 0;}

typed: void as a result has no const either
const void f(void);void f(void){}int main(void){f();return 0;}

typed: a pointer as a result has no const of its own
int(*const f(void))(void);int(*f(void))(void){return 0;}int main(void){return f()==0;}

typed: a block's extern object is declared again there, with the composite type
int main(void){extern int a[];extern int a[3];return sizeof a==12;}int a[3];

131 1:41: declared again in a block with another type
int main(void){extern int x;extern char x;return 0;}int x;

131 1:40: the object of the block has no linkage
int main(void){static int x;extern int x;return 0;}

131 1:33: a variable with the name of the block's extern object
int main(void){extern int x;int x;return 0;}int x;

131 1:40: a static object with the name of the block's extern object
int main(void){extern int x;static int x;return 0;}int x;

131 1:39: extern behind a variable of the block
int x;int main(void){int x;extern int x;return 0;}

131 1:35: extern behind an enumeration constant of the block
int main(void){enum{x};extern int x;return 0;}int x;

typed: repeated in an inner block, behind a variable of another
int x;int main(void){extern int x;{int x=1;{extern int x;extern int x;return x;}}}

133 1:40: repeated with an initialiser
int main(void){extern int x;extern int x=1;return 0;}int x;

typed: the word behind # ends at the dot: a line marker
# 1.5
int main(void){return 0;}

100 1:1: a word behind # that is no number
# 15a
int main(void){return 0;}

132 1:6: void is never completed, without extern too
void a;int main(void){return 0;}

130 1:30: void is judged at the end of the file
void a;int main(void){return x;}

typed: the right side of += on a pointer is any integer
char a[9];int main(void){char*p=a;unsigned char i=1;p+=i;p-=i;return p-a;}

130 1:52: the operands are typed before the call, whose own 132 comes after
struct S;int f(struct S s);int main(void){return f(x);}

132 1:51: 132 of the call comes before 133 and 136 of its arguments, at its first byte
struct S;struct S f(int k);int main(void){int*p=0;f(p,p);return 0;}

132 1:22: a parameter of a definition is complete; without a name: its first byte
struct S;int f(int k,const struct S){return k;}int main(void){return 0;}

132 1:57: void is not complete, which is judged where the function is called
int f(int,void);int g(const void);int main(void){return f(1,2);}

134 1:63: a static initialiser has no call; one under sizeof is a constant
struct S{int a;};struct S f(void);int n=sizeof f();struct S g=f();int main(void){return n;}

133 1:46: a member of a value that isn't a place, under ++
struct S{int a;};int main(void){struct S s,t;(s=t).a++;return 0;}

135 1:1: no definition of main with type int(void)
struct S{int a;};int main(struct S s){return s.a;}";
