//! Declarations: words, tags, types, scopes, and what waits for the end of the file (C11 6.2, 6.7).

/// Files, and what the front end says of each, as in `front_tables`.
pub(super) const FILES: &str = "\
typed: type, storage and qualifier words in any order
unsigned const short int static volatile x=3;int main(void){return x;}

typed: typedef among the type words; signed long int is long
long signed typedef int L;int z[sizeof(L)==8?1:-1];int main(void){L x=1;return x+z[0];}

typed: long twice, apart from each other
int main(void){return sizeof(int long unsigned long)==8;}

133 1:1: no C integer type
short long x;int main(void){return 0;}

133 1:1: a capability integer stands alone among type words
__intcap_t unsigned x;int main(void){return 0;}

133 1:1: a struct and a type word
struct S{int a;}unsigned x;int main(void){return 0;}

133 1:1: two specifiers that name types
struct A{int a;}struct A x;int main(void){return 0;}

133 1:1: no type word at all is one of the other mixtures
const x;int main(void){return 0;}

133 1:1: two storage words, though neither has an effect
auto register int x;int main(void){return 0;}

132 1:6: the undeclared tag fails before, and with a lower code than, the mixture 133 at 1:1
enum Q int x;int main(void){return 0;}

typed: volatile, restrict and inline have no effect, so the types agree
volatile int x;extern int x;restrict int y;inline int z;int f(volatile int*p);int f(int*p){return *p;}int main(void){\
    return x+y+z+f(&x);}

typed: register in a parameter is accepted and has no effect
int f(register int a){register int b=a;int*p=&b;return *p+a;}int main(void){return f(1);}

133 1:7: of storage words register alone is accepted in a parameter
int f(auto int a){return a;}int main(void){return 0;}

133 1:13: storage word in a parameter: 133 at the parameter's first byte
int f(int a,const typedef int b){return a;}int main(void){return 0;}

133 1:16: storage word in a member: 133 at the member's first byte
struct S{int a;const extern int b;};int main(void){return 0;}

133 1:10: register is accepted in parameters only
struct S{register int a;};int main(void){return 0;}

133 1:30: storage word in a type name: 133 at the type name's first byte
int main(void){return sizeof(int register);}

133 1:22: a tag is in force from its name on, as a union
union S{int a;struct S*p;};int main(void){return 0;}

typed: declared anew in an inner scope as a union, then completed there
struct S;int main(void){union S;union S{int a;}u={1};return u.a;}

133 1:33: a pointer does not declare the tag anew
enum E{A};int main(void){struct E*p=0;return p==0;}

typed: struct E; alone declares the tag anew in the inner scope
enum E{A};int main(void){struct E;struct E*p=0;return p==0;}

133 1:18: same scope, another kind: 133 at the tag and never 131
enum E{A};struct E{int a;};int main(void){return 0;}

133 1:23: an enumeration list for a struct's tag: 133, never 131
struct S{int a;};enum S{A};int main(void){return 0;}

131 1:17: the tag is declared twice in one scope, the second inside the first's braces (131 of a tag: the tag)
struct S{struct S{int a;}x;};int main(void){return 0;}

131 1:16: two lists for one enumeration tag
enum E{A};enum E{B};int main(void){return 0;}

133 1:37: a type name at file scope declares in the file's scope, where S is a struct
struct S{int a;};int x=sizeof(union S{int b;});int main(void){return 0;}

typed: an if statement is a scope of its own: there S is a union, behind it the struct again (C11 6.8.4p3)
struct S{int a;};int main(void){if(sizeof(union S{int b;})==4){union S*p=0;return p==0;}return sizeof(struct S)==4;}

133 1:75: a tag of a prototype ends with it: another type
int f(struct S*p);struct S{int a;};int main(void){struct S s={1};return f(&s);}

131 1:40: the prototype's struct S is another type, so the declarations disagree
int f(struct S*p);struct S{int a;};int f(struct S*p){return p->a;}int main(void){return 0;}

133 1:54: struct S; in the block is a new, incomplete struct
struct S{int a;}s;int main(void){struct S;struct S*p=&s;return p==0;}

typed: the inner tag is in force in its own members
struct S{int a;};int main(void){struct S{struct S*p;}s;s.p=&s;return s.p==&s;}

typed: a parameter list is an inner scope: the tag is declared anew there, and holds in the body
struct S{int a;};int f(union S{int b;}*p){return p->b;}int main(void){return 0;}

131 1:34: parameters and the body's outermost block are one scope, for tags too
int f(struct S{int a;}*p){struct S{int b;};return p->a;}int main(void){return 0;}

131 1:21: an enumerator of the parameter list is of the body's outermost scope
int f(enum{A}e){int A=1;return A+e;}int main(void){return 0;}

132 1:21: an enumeration tag that is not declared: 132 at the tag
int main(void){enum E*p=0;return p==0;}

typed: enum E; names the one in force; the type is int
enum E{A,B};int main(void){enum E;enum E e=B;return e;}

typed: declarations without declarators; no rule refuses them
int main(void){struct{int a;};enum{A};union U;int;for(int;;)break;return A;}

typed: a tag, a typedef name and a member of one spelling
typedef struct T T;struct T{T*T;int n;};int main(void){T t={0,3};t.T=&t;return t.T->n;}

typed: a tag that is never completed, and one declared inside another struct, which is of the file's scope
struct A*p;struct B{struct A*q;struct C{int c;}d;}b;struct C c={1};int main(void){return p==b.q&&c.c==b.d.c+1;}

typed: tags in a prototype: incomplete ones, one completed inside a length, an enumerator; all end with it
int f(struct P*p,union Q*(*q)[sizeof(struct R{int r;})],enum{Z}e);int main(void){return sizeof(struct P*)==16;}

typed: a type name in a cast completes the tag of the block's scope
int main(void){struct Q*p=(struct Q{int a;}*)0;struct Q q={2};p=&q;return p->a;}

typed: an enum type is int, so the typedef name is declared again for the same type
typedef enum{A}E;typedef int E;E x=A;int main(void){return x;}

131 1:47: two structs without tags are two types
typedef struct{int a;}T;typedef struct{int a;}T;int main(void){return 0;}

typed: a parameter's own qualifier is no part of the function's type
typedef int(*P)(int);typedef int(*P)(const int);P p;int main(void){return p==0;}

131 1:16: T is a typedef name behind its declarator, and may be declared again at file scope; another type
typedef int T,*T;int main(void){return 0;}

131 1:27: declares T as a function that takes a T: another type
typedef int T;typedef int T(T);int main(void){return 0;}

131 1:31: the specifiers have a type word, so T is the declared name; const int is another type
typedef int T;typedef const T T;int main(void){return 0;}

typed: the declared name in parentheses may be a typedef name at file scope; same type
typedef int T;typedef int(T);T x;int main(void){return x;}

typed: a member may have the name of a type, and the type stays in force
typedef int T;struct S{T T;T U;};int main(void){struct S s={1,2};return s.T+s.U;}

typed: names declared before the file, declared again with the same types
typedef unsigned char uint8_t;typedef signed char int8_t;typedef long int64_t;typedef __uintcap_t uintptr_t;\
    typedef size_t size_t;int main(void){return 0;}

131 1:14: char is not unsigned char
typedef char uint8_t;int main(void){return 0;}

131 1:19: long long is not long
typedef long long int64_t;int main(void){return 0;}

typed: a typedef name in a block hides an object, to the block's end
int x=1;int main(void){{typedef int x;x y=1;if(y)sizeof(x);}return x;}

typed: each object completes its own array, not the typedef name
typedef int A[];A a={1},b={1,2};int z[sizeof a==4&&sizeof b==8?1:-1];int main(void){return z[0];}

typed: a function declared by a typedef name, then its address as a static initialiser
typedef int F(void);F f,*g=f;int main(void){return g();}int f(void){return 0;}

typed: typedef in the braces of a switch and in the head of a for
int main(void){switch(1){typedef int Q;case 1:{Q x=2;return x;}}for(typedef char Q;;){Q c=1;return c;}}

typed: in a parameter ( and a typedef name begin a parameter list, and the function becomes a pointer
typedef int T;int f(int(T));int g(T x){return x;}int main(void){return f(g);}int f(int(*h)(T)){return h(1);}

130 1:30: the body has the parameters of f alone, not of the function that its result points to
int(*f(int a))(int b){return b?0:0;}int main(void){return 0;}

typed: a function that gives a pointer to a function
int g(int b){return b;}int(*f(int a))(int b){return a?g:0;}int main(void){return f(1)(2);}

133 1:5: a function that gives an array
int*f(void)[2];int main(void){return 0;}

133 1:6: an element is a function, which is no incomplete type
void(a[2])(void);int main(void){return 0;}

132 1:11: an element of incomplete type is refused at once, also behind a pointer
struct S(*a)[2];int main(void){return 0;}

132 1:5: the element type is an array whose length is not known
int a[2][];int main(void){return 0;}

typed: the outermost length alone may be left to the initialiser
int a[][2]={{1,2},{3,4},{5}};int z[sizeof a==24?1:-1];int main(void){return a[2][1]+z[0];}

134 1:19: a parameter is no constant
int f(int n,int a[n]){return n;}int main(void){return 0;}

132 1:11: element of a parameter's array type: the declarator's name
int f(int a[3][]);int main(void){return 0;}

typed: void is not complete, and so no parameter but the only one; what a function takes is complete where it is \
    defined or called
int f(int,void);int main(void){return 0;}

132 1:25: the element of the parameter's array is judged as it is formed, before the array becomes a pointer
struct S;int f(struct S a[2]);int main(void){return 0;}

typed: what a function gives is complete where it is defined or called
struct S;struct S f(void);int main(void){return 0;}

typed: a pointer to a function that gives a struct
struct S{int a;};struct T{struct S(*f)(void);};int main(void){return 0;}

typed: nine parameters
int(*p)(int,int,int,int,int,int,int,int,int);int main(void){return 0;}

typed: nine parameters in a type name
int main(void){return sizeof(int(*)(int,int,int,int,int,int,int,int,int))==16;}

typed: nine parameters in a parameter without a name
int f(int a,int(*)(int,int,int,int,int,int,int,int,int));int main(void){return 0;}

133 1:23: a function that gives a function, whatever the number of its parameters
typedef int F(void);F f(int,int,int,int,int,int,int,int,int);int main(void){return 0;}

140 1:7: an array over the limit behind nine parameters
char(*f(int,int,int,int,int,int,int,int,int))[67108865];int main(void){return 0;}

131 1:12: an object declared anew as a function of nine parameters
int f;char f(int,int,int,int,int,int,int,int,int);int main(void){return 0;}

131 1:23: the inner length is part of the pointed-to type
int f(int a[][2]);int f(int(*a)[3]);int main(void){return 0;}

131 1:38: the second declaration makes the composite type, with which the third disagrees (C11 6.2.7)
int f(int(*)[]);int f(int(*)[3]);int f(int(*)[4]);int main(void){return 0;}

typed: the composite type of a function's result; sizeof is no use of f
int(*f(void))[];int(*f(void))[3];int z[sizeof*f()==12?1:-1];int main(void){return z[0];}

typed: the tag of a parameter list is in force in later parameters and in the body
int f(struct S{int a;}*p,int b[sizeof(struct S)]){struct S s={b[0]};*p=s;return p->a;}int main(void){return 0;}

140 1:6: 2^62+1 elements of 4 bytes: sizes are whole numbers, with no wrap to 4
int(*p)[4611686018427387905];int main(void){return 0;}

140 1:5: the length is 4294967295, at least 1, and the size over the limit
int a[-1u];int main(void){return 0;}

134 1:7: signed arithmetic wraps in a constant expression: the length is below 1, so 134 and not 140
int a[2147483647+1];int main(void){return 0;}

140 1:41: 67108864 bytes are within the limit, 67117056 are not
typedef char A[8192][8192];typedef char B[8192][8193];int main(void){return 0;}

140 1:13: a parameter's array type is judged as it is formed, though it becomes a pointer
int f(int a,char[67108865]);int main(void){return 0;}

140 1:23: an array behind a pointer in a cast's type name: its first byte
int main(void){return(char(*)[67108865])0==0;}

typed: owned lengths 67043328 and 65536: exactly 67108864 bytes
struct S{char a[67043328];char b[65536];};int main(void){struct S*p=0;return p==0;}

140 1:7: CRRL(67108856) is 67108864, so b ends past the limit, though the plain sum is 67108864: at the keyword
int x;struct S{char a[67108856];long b;};int main(void){return 0;}

typed: layout of members of 4096 bytes and more: 16+10016+1 rounded to 16; 4104
struct S{int a;char b[10001];char c;};union U{char a[4097];int b;};int z[sizeof(struct S)==10048&&\
    sizeof(union U)==4104&&sizeof(char[4097])==4097?1:-1];int main(void){return z[0];}

140 1:38: 140 at the completion of [] by its initialiser
struct B{char c[33554432];};struct B a[]={{{1}},{{1}},{{1}}};int main(void){return 0;}

typed: unused and never defined: no object, so no 141
extern char a[67108864];int main(void){return sizeof a==67108864;}

typed: redeclaration with another linkage is accepted where types agree
int x;static int x;extern int x;int main(void){extern int x;return x;}

131 1:22: char and unsigned char are two types
char c;unsigned char c;int main(void){return 0;}

131 1:24: const is part of the type
const int x;extern int x;int main(void){return 0;}

131 1:22: the composite type has 4 elements
int a[];int a[4];int a[5];int main(void){return 0;}

typed: the composite type of an object
extern int(*p)[];extern int(*p)[3];int z[sizeof*p==12?1:-1];int(*p)[3];int main(void){return z[0];}

133 1:11: both declarations have type int and there is one body; the declarator with the body is none of a function: \
    133 at the name
int x;int x{return 0;}int main(void){return 0;}

131 1:13: an initialiser and a body: 131 before 133
int f=1;int f{return 0;}int main(void){return 0;}

133 1:27: the types agree; the declarator itself is not that of a function
typedef int F(void);F f;F f{return 1;}int main(void){return 0;}

133 1:13: typedef with a body
typedef int f(void){return 0;}int main(void){return 0;}

133 1:6: the declarator is that of a pointer
int(*f)(void){return 0;}int main(void){return 0;}

131 1:6: another declaration of a library function's name at file scope
enum{putchar};int main(void){return 0;}

131 1:5: an object with the name of a library function
int exit;int main(void){return 0;}

typed: the same type, by a typedef name and with another linkage
typedef int F(int);extern F putchar;static int putchar(const int c);int main(void){putchar(65);return 0;}

131 1:6: malloc takes unsigned long
void*malloc(unsigned long long);int main(void){return 0;}

131 1:7: an intrinsic that takes a capability has no C type: any declaration at file scope is 131
_Bool cheri_tag_get(void*p);int main(void){return 0;}

typed: the two intrinsics without capabilities may be declared with their types
size_t __builtin_cheri_round_representable_length(size_t n);unsigned long cheri_representable_alignment_mask(unsigned \
    long);int main(void){return cheri_representable_length(1)==1;}

typed: the builtin spelling of cheri_is_equal_exact is another one, so this name is free
int __builtin_cheri_is_equal_exact(int a){return a;}int main(void){return __builtin_cheri_is_equal_exact(1);}

133 1:27: a parameter hides the library function; an int is not called
int f(int putchar){return putchar(1);}int main(void){return 0;}

131 1:29: 131 before 132 at one declarator
int main(void){int x=1;void x;return x;}

131 1:28: a block's function declaration whose name is in that block
int main(void){int f=1;int f(void);return f;}

131 1:18: the same against a parameter
int f(int g){int g(void);return g;}int main(void){return 0;}

133 1:45: a function declared in a block by a typedef name with extern
typedef int F(void);int main(void){extern F f;return 0;}

133 1:24: the head of a for is in a block
int main(void){for(int f(void);;)break;return 0;}

131 1:25: the parameter's name in the same scope
int f(int x){extern int x;return x;}int main(void){return 0;}

typed: extern in an inner block names the file's object behind a parameter
int x;int f(int x){{extern int x;x=2;}return x;}int main(void){return f(1)+x;}

typed: an object at file scope waits for its struct
struct S;struct S s;int f(void){return 0;}struct S{int a;};int main(void){return s.a+f();}

132 1:47: not complete where sizeof stands
struct S;extern struct S s;int f(void){return sizeof s;}struct S{int a;};int main(void){return 0;}

132 1:19: an initialiser needs a complete type at once
struct S;struct S s={1};struct S{int a;};int main(void){return 0;}

132 1:32: an extern object of incomplete type never completed, in a block and unused
int main(void){extern struct S s;return 0;}

typed: completed later in the file
int main(void){extern int a[];return a[1];}int a[2];

130 1:31: what fails in the file comes before what is found at its end
int a[];int main(void){return x;}

132 1:5: 132 found at the end of the file comes before 135
int a[];void main(void){}

130 1:27: a use in a static initialiser
int f(void);int(*p)(void)=f;int main(void){return 0;}

130 1:35: sizeof is no use; the position of the first use is the name's
extern int e;int a=sizeof(&e),*p=&e;int main(void){return 0;}

130 1:52: the first use that is not under sizeof, whether or not it is reached
int f(void);int main(void){int z=sizeof f();if(0)z=f();return f()+z;}

130 1:35: of the failures at the end the first place in the file decides: here 130 before 132
int f(void);int main(void){return f();}struct S s;

132 1:17: of two 132 and a 130 at the end the first place decides
extern struct S s;struct T t;int f(void);int main(void){return f();}

132 1:25: the array is not complete in its own initialiser
int main(void){int a[]={sizeof a};return a[0];}

132 1:41: a static local of a block is complete at once or by its initialiser
typedef int A[];int main(void){static A a;return 0;}

132 1:13: void is never completed; at its name, after the rest
extern void v;int main(void){return 0;}

typed: an enumerator is in force behind its value
enum{A=5};int main(void){enum{A=A+1};int z[A==6?1:-1];z[0]=0;return z[0];}

typed: an enumerator from inside a parameter's length, in the next parameter and in the body
int f(int a[sizeof(enum{Z})],int b[Z+1]){return Z+b[0];}int main(void){int a[4]={0},b[1]={0};return f(a,b);}

130 1:53: names of a prototype end with it
int f(int a[sizeof(enum{Z})]);int main(void){return Z;}

130 1:47: the body of a loop is a scope, braces or not (C11 6.8.5p5)
int main(void){while(0)sizeof(enum{Z});return Z;}

typed: an expression statement is in its block's scope
int main(void){sizeof(enum{Z=3});return Z;}

130 1:34: the test of a do stands outside its body's scope
int main(void){do{int x=1;}while(x);return 0;}

130 1:52: the braces of a switch are a scope
int main(void){switch(1){int y;default:y=2;}return y;}

typed: a parameter hides its function
int f(int f){return f;}int main(void){return f(0);}

130 1:20: a function's name is in force behind its declarator
int f(int a[sizeof f]){return 0;}int main(void){return 0;}

133 1:45: a name is in force in its own initialiser, as an int
int f(int a){return a;}int main(void){int f=f(1);return f;}

typed: the head of a for and its body are two scopes
int main(void){int i=7;for(int i=0,j=i;j<3;j++){int i=j;if(i)break;}return i;}

132 1:60: a tag of a for's head ends with it; the later one is new and incomplete
int main(void){for(struct S{int a;}s={3};s.a;s.a--);return sizeof(struct S);}

131 3:14: columns count bytes: two for the letter in the comment; only a line feed ends a line
/* é
*/\tint x;
 /*é*/ char x;
int main(void){return 0;}";
