//! Files, and what the front end says of them: `typed`, or the code and mostly the place of the first rule that they
//! break, worked out by hand from the rules. A row is what is said, `: ` and a remark, and the file from the next line
//! on. An empty line ends it.

/// The files by kinds. A remark behind `//` begins a kind.
pub(super) const FILES: &str = "\
// Words of types and storage, kinds of tags, and the names that stand before a file (C11 6.7.1 to 6.7.3).

typed: the words of unsigned long long may stand in any order
unsigned long int long x;int main(void){return 0;}

133 1:1: int and char are no type together
int char x;int main(void){return 0;}

133 1:1: long stands twice at most
long long long x;int main(void){return 0;}

133 1:1: a type has one sign
signed unsigned x;int main(void){return 0;}

typed: a storage word may stand behind the type
int typedef T;T x;int main(void){return x;}

133 1:1: one storage word at most
static extern int x;int main(void){return 0;}

typed: register, auto and volatile have no effect
int main(void){register int x=1;auto volatile int y=2;return x+y;}

133 1:24: the tag in force is a struct
struct S{int a;};union S x;int main(void){return 0;}

typed: the tag is declared anew in the inner scope
struct S{int a;};int main(void){union S{int b;};union S u;u.b=1;return u.b;}

typed: size_t is declared again with its own type
typedef unsigned long size_t;int main(void){size_t n=sizeof(int);return n;}

131 1:22: size_t is unsigned long
typedef unsigned int size_t;int main(void){return 0;}

typed: putchar is declared with its own type
int putchar(int);int main(void){putchar(65);return 0;}

131 1:5: a library function is not defined
int putchar(int c){return c;}int main(void){return 0;}

131 1:6: putchar gives an int
void putchar(int);int main(void){return 0;}

typed: an integer goes to a capability integer
intptr_t p;uint8_t b;int main(void){p=0;b=255;return b;}

130 1:23: x is not declared
int main(void){return x;}

// Types of functions, lengths, what is completed later, and one name for one thing (6.2.5, 6.7, 6.7.6, 6.9.2).

typed: () is (void)
int f();int main(void){return f();}int f(void){return 3;}

136 1:31: () takes nothing
int f();int main(void){return f(1);}int f(void){return 3;}

typed: a parameter of array type is a pointer
int f(int a[3]){return sizeof a==sizeof(int*);}int main(void){int b[5];return f(b);}

133 1:5: a function gives no array
int f(void)[3];int main(void){return 0;}

typed: a function takes a struct, which is const or not
struct S{int a;};int f(struct S s,const struct S t){return s.a;}int main(void){return 0;}

typed: a function gives a struct
struct S{int a;};struct S f(void);int main(void){return 0;}

typed: its body gives one
struct S{int a;};struct S f(struct S s){return s;}int main(void){return 0;}

133 1:98: another struct is no argument
struct S{int a;};struct T{int a;};int f(struct S s){return 0;}int main(void){struct T t;return f(t);}

133 1:60: what is given back is of the type
struct S{int a;};struct T{int a;}t;struct S f(void){return t;}int main(void){return 0;}

typed: a call's value is read by .
struct S{int a[2];};struct S f(void);int main(void){return f().a[1];}struct S f(void){struct S s={{1,2}};return s;}

133 1:50: and is no place
struct S{int a;};struct S f(void);int main(void){f().a=1;return 0;}

132 1:42: its result is not complete where the function is called
struct S;struct S f(void);int main(void){f();return 0;}

132 1:19: nor where it is defined
struct S;struct S f(void){}int main(void){return 0;}

typed: a length is a constant expression
int a[2+1];int main(void){return a[2];}

134 1:7: a length is at least 1
int a[0];int main(void){return 0;}

134 1:7: a length is at least 1
int a[-1];int main(void){return 0;}

134 1:13: a variable is no constant
int n;int a[n];int main(void){return 0;}

typed: a later declaration has the length
int a[];int a[4];int main(void){return a[3];}

132 1:5: the length never comes
int a[];int main(void){return 0;}

typed: the initialiser has the length
int a[]={1,2,3};int main(void){return sizeof a==12;}

132 1:20: a local is complete at once
int main(void){int a[];return 0;}

132 1:28: a member is complete
struct S;struct T{struct S s;};int main(void){return 0;}

132 1:19: an element is complete at once
struct S;struct S a[3];struct S{int x;};int main(void){return 0;}

132 1:10: the struct is never completed
struct S s;int main(void){return 0;}

132 1:5: the length never comes
int a[]; int main(void){return 0;}

130 1:35: f is used and never defined
int f(void);int main(void){return f();}

132 1:18: of two faults the earlier one
extern int x;int a[];int main(void){return x;}

130 1:36: of two faults the earlier one
extern int x;int main(void){return x;}int a[];

typed: sizeof uses nothing
extern int x;int main(void){return sizeof x==4;}

typed: what is not used need not be defined
int f(void);extern int y;int main(void){return 0;}

typed: declarations that agree
int x;extern int x;int x=3;int x;int main(void){return x;}

131 1:13: two initialisers
int x=1;int x=2;int main(void){return 0;}

131 1:12: two types
int x;char x;int main(void){return 0;}

131 1:27: two bodies
int f(void){return 1;}int f(void){return 2;}int main(void){return 0;}

131 1:17: a function and an object
int f(void);int f;int main(void){return 0;}

131 1:12: two types
int a;char a;int main(void){return 0;}

typed: one object
static int x;extern int x;int main(void){extern int x;return x;}

131 1:34: another type
int x;int main(void){extern char x;return 0;}

typed: an object of the file is declared again in a block
int main(void){extern int x;extern int x;return x;}int x;

typed: with the length that the first does not have
int main(void){extern int a[];extern int a[3];return sizeof a==12;}int a[3];

131 1:41: with another type
int main(void){extern int x;extern char x;return 0;}int x;

131 1:40: the object of the block has no linkage
int main(void){static int x;extern int x;return 0;}

131 1:33: a variable, where the block has the object of the file
int main(void){extern int x;int x;return 0;}int x;

typed: a function's result has no const of its own
const int f(void);int f(void){return 1;}int main(void){return f();}

typed: in a typedef name neither
typedef const int T;T f(void);int(*p)(void)=f;int f(void){return 1;}int main(void){return p();}

131 1:23: what a result points to keeps it
const int*f(void);int*f(void){return 0;}int main(void){return 0;}

132 1:6: void is never completed
void a;int main(void){return 0;}

130 1:30: which is judged at the end of the file
void a;int main(void){return x;}

133 1:27: extern in a block has no initialiser
int main(void){extern int x=1;return 0;}

typed: an object of a block that stays
int main(void){static int n=3;n++;return n;}

132 1:21: void is no object
int main(void){void x;return 0;}

typed: f is declared and not used
int f(void);int main(void){return 0;}

// Values of arrays and functions, sizes, and operators on what they fit (6.3.2.1, 6.5).

typed: arrays and functions as values, but not under &
int f(void){return 1;}int main(void){int a[3];int *p=a;int(*g)(void)=f;int(*h)[3]=&a;return p==a&&g==&f&&h!=0;}

132 1:45: a function has no size
int f(void){return 1;}int main(void){return sizeof f;}

132 1:23: void has no size
int main(void){return sizeof(void);}

132 1:32: the size is not known
struct S;int main(void){return sizeof(struct S);}

typed: arrays do not decay under sizeof
int main(void){char s[]=\"abc\";return sizeof s==4&&sizeof \"ab\"==3;}

typed: char is promoted to int
int main(void){char c=1;int(*p)[sizeof(c+c)]=0;int(*q)[4]=p;return q==0;}

133 1:60: char and long are long
int main(void){char c=1;int(*p)[sizeof(c+1L)]=0;int(*q)[4]=p;return 0;}

typed: long has every unsigned int
int main(void){long l=0;unsigned u=0;int(*p)[sizeof(l+u)]=0;int(*q)[8]=p;return q==0;}

typed: capability integers have the highest rank
int main(void){intptr_t i=0;long l=0;int(*p)[sizeof(i+l)]=0;int(*q)[16]=p;return q==0;}

133 1:72: capability integers have the highest rank
int main(void){long l=0;intptr_t i=0;int(*p)[sizeof(l*i)]=0;int(*q)[8]=p;return 0;}

typed: pointers and integers
int main(void){int a[4];int *p=a+1;p=2+p;p=p-1;return p-a;}

133 1:34: two pointers have no sum
int main(void){int *p=0;int *q=0;p+q;return 0;}

132 1:26: void has no size
int main(void){void *p=0;p+1;return 0;}

133 1:38: a pointer is no factor
int main(void){int *p=0;return (int)(p*2);}

133 1:32: a pointer is not negated
int main(void){int *p=0;return -p;}

typed: ! && || and ?: take scalars
int main(void){int *p=0;return !p&&p||0?1:2;}

133 1:47: a struct is no condition
struct S{int a;};int main(void){struct S s;if(s)return 1;return 0;}

133 1:45: a function pointer is not moved
int f(void){return 0;}int main(void){return f+1!=0;}

133 1:42: pointers to different types
int main(void){int *p=0;long *q=0;return p-q;}

132 1:41: the size is not known
struct S;int main(void){struct S *p=0;p=p-1;return 0;}

typed: pointers without regard to const, void and null
int main(void){int a[2];const int *p=a;int *q=a;void *v=q;return p==q&&v==p&&q!=0&&(void*)0==q;}

133 1:42: pointers to different types
int main(void){int *p=0;long *q=0;return p==q;}

133 1:40: an integer that is no constant
int main(void){int *p=0;int i=0;return p==i;}

typed: a pointer and void, a pointer and null
int main(void){int *p=0;void *v=0;int c=1;return (c?p:v)==v&&(c?p:0)==p;}

133 1:80: two structs
struct S{int a;};struct T{int a;};int main(void){struct S s;struct T t;int c=1;c?s:t;return 0;}

133 1:33: a pointer and an integer
int main(void){int *p=0;int c=1;c?p:c;return 0;}

typed: a value that is not used
int x;int main(void){x;return 0;}

// Assignments, casts, addresses, members and calls (6.5.2 to 6.5.4, 6.5.16).

typed: integers, _Bool from a pointer, pointers without regard to const, void
int main(void){_Bool b=(int*)0;char c=300;const int *p;int *q=0;p=q;q=p;void *v=p;q=v;return b+c;}

133 1:23: 5 is no pointer
int main(void){int *p=5;return 0;}

133 1:30: x is const
int main(void){const int x=1;x=2;return 0;}

133 1:34: an array is not assigned
int main(void){int a[2];int b[2];a=b;return 0;}

133 1:42: const one level deeper
int main(void){char **p=0;const char **q=p;return 0;}

133 1:31: x is no constant
int main(void){int x=0;int *p=x;return 0;}

typed: a struct to itself
struct S{int a;};int main(void){struct S s;struct S t;s.a=1;t=s;return t.a;}

133 1:21: 1 is no pointer
int *f(void){return 1;}int main(void){return 0;}

133 1:16: 1 is no place
int main(void){1=2;return 0;}

133 1:38: a function is not assigned
int f(void){return 0;}int main(void){f=0;return 0;}

typed: scalars of any kinds, and void
int main(void){int x=65;long l=(long)&x;int *p=(int*)l;(void)p;return (char)x;}

133 1:51: a struct is no scalar
struct S{int a;};int main(void){struct S s;return (int)s;}

133 1:23: 1 is no place
int main(void){int *p=&1;return 0;}

133 1:31: x is no pointer
int main(void){int x=0;return *x;}

132 1:39: the struct is not complete
struct S;int main(void){struct S *p=0;*p;return 0;}

133 1:51: there is no b
struct S{int a;};int main(void){struct S s;return s.b;}

typed: . and ->
struct S{int a;};int main(void){struct S s;struct S *p=&s;p->a=3;return (*p).a;}

132 1:46: the struct is not complete
struct S;int main(void){struct S *p=0;return p->a;}

133 1:31: an int has no members
int main(void){int x=0;return x.a;}

133 1:54: a member of a const struct is const
struct S{int a;};int main(void){const struct S s={1};s.a=2;return 0;}

typed: functions and pointers to them
int f(int a,int b){return a-b;}int main(void){int(*g)(int,int)=f;return g(3,1)+(*g)(1,1)+(f)(2,2);}

136 1:46: one argument is wanted
int f(int a){return a;}int main(void){return f();}

133 1:49: a wrong argument comes before a wrong number
int f(int *a){return 0;}int main(void){return f(3,4);}

130 1:23: f is not declared
int main(void){return f(1);}

133 1:29: a library function is called only
int main(void){int(*p)(int)=putchar;return 0;}

typed: parentheses around the called name
int main(void){(putchar)(65);return 0;}

133 1:20: no function is declared in a block
int main(void){int f(void);return 0;}

133 1:31: an int is not called
int main(void){int x=0;return x(1);}

136 1:16: one argument is wanted
int main(void){putchar();return 0;}

typed: members of values are read
struct S{int a;int b[2];};int main(void){struct S s;struct S t;t.a=1;t.b[0]=2;return (s=t).a+(0,t).b[0]+(1?s:t).a;}

133 1:61: and not assigned
struct S{int a;};int main(void){struct S s;struct S t;t.a=1;(s=t).a=3;return 0;}

133 1:61: a value has no address
struct S{int a;};int main(void){struct S s;struct S t;t.a=1;&(s=t);return 0;}

// Constant expressions, objects that begin with values, and the intrinsics (6.6, 6.7.9).

typed: enumerators, sizeof and operators
enum E{A=2,B,C=A*3};int a[C+sizeof(int)];int main(void){switch(7){case B+4:return 1;default:return a[9];}}

134 1:7: division by zero
int a[1/0];int main(void){return 0;}

typed: what is not evaluated may divide by zero
int a[1||1/0];int main(void){return a[0];}

134 1:8: outside int
enum{A=2147483648};int main(void){return 0;}

134 1:19: the next value is outside int
enum{A=2147483647,B};int main(void){return 0;}

134 1:29: a call is no constant
int f(void){return 1;}int a[f()];int main(void){return 0;}

134 1:8: division by zero
enum{A=1/0};int main(void){return 0;}

typed: addresses of elements and literals, and casts
int g[4];int *p=&g[2];char *s=\"ab\"+1;int *q=g+4;int *z=(int*)(long*)(g+1);int main(void){return 0;}

134 1:13: a value that is read
int x;int y=x;int main(void){return 0;}

134 1:17: 1200 bytes from the bounds of 16
int g[4];int *p=g+300;int main(void){return 0;}

typed: 800 bytes, less than 1024 outside
int g[4];int *p=g+200;int main(void){return 0;}

134 1:31: a function's address is not moved
int f(void){return 0;}char *p=(char*)f+1;int main(void){return 0;}

typed: the address of a member
struct S{int a;int b;}s;int *p=&s.b;int(*f)(int)=0;int main(void){return 0;}

typed: the length comes later
extern int a[];int *p=a+3;int a[4];int main(void){return 0;}

133 1:10: three items for two
int a[2]={1,2,3};int main(void){return 0;}

typed: missing items, a union's first member
struct S{int a;int b[2];};struct S s={1,{2}};union U{char c;int i;}u={7};int main(void){return s.b[1]+u.c;}

133 1:25: a union's first member alone
union U{char c;int i;}u={7,8};int main(void){return 0;}

typed: a comma behind the last item
int a[3]={1,2,3,};int main(void){return 0;}

132 1:5: no items, no length
int a[]={};int main(void){return 0;}

typed: no room for the last zero
char s[2]=\"ab\";int main(void){return 0;}

133 1:11: no room for c
char s[2]=\"abc\";int main(void){return 0;}

typed: missing parts of locals are zero
int main(void){char s[4]=\"ab\";struct P{int x;int y;}p={1};return s[3]+p.y;}

typed: braces around a string
char s[3]={\"ab\"};int main(void){return 0;}

133 1:25: a string fills characters only
int main(void){int a[3]=\"ab\";return 0;}

typed: the result has the argument's type
int main(void){int x=0;int *p=&x;p=cheri_bounds_set(p,4);return cheri_tag_get(p)+__builtin_cheri_equal_exact(p,p);}

133 1:41: 5 is no capability
int main(void){return cheri_address_get(5);}

136 1:31: one argument is wanted
int main(void){int x=0;return cheri_tag_get(&x,&x);}

133 1:23: an intrinsic is called only
int main(void){return cheri_tag_get!=0;}

typed: lengths
int main(void){return cheri_representable_length(4097)==4104;}

// Jumps, `return` and `switch`, scopes and parameters, and `main` (6.8, 6.2.1, 5.1.2.2.1).

typed: in their places
int main(void){int i;for(i=0;i<9;i++){if(i==3)continue;if(i==5)break;}do{i--;}while(i);switch(i){case 'a':break;\
    default:;}return i;}

133 1:16: in no loop
int main(void){break;return 0;}

133 1:34: a switch is no loop
int main(void){switch(1){default:continue;}return 0;}

133 1:16: main gives a value
int main(void){return;}

133 1:14: f gives none
void f(void){return 1;}int main(void){return 0;}

typed: f gives none
void f(void){return;}int main(void){f();return 0;}

131 1:34: the label stands twice
int main(void){switch(1){case 1:;case 1:;}return 0;}

134 1:39: x is no constant
int main(void){int x=1;switch(1){case x:;}return 0;}

133 1:32: a pointer
int main(void){int *p=0;switch(p){default:;}return 0;}

typed: labels are converted
int main(void){unsigned u=1;switch(u){case -1:return 1;case 4294967294:return 2;}return 0;}

131 1:48: labels are converted before they are compared
int main(void){unsigned u=1;switch(u){case -1:;case 4294967295:;}return 0;}

131 1:35: default stands twice
int main(void){switch(1){default:;default:;}return 0;}

typed: a parameter is in force behind itself
int f(int n,int a[sizeof n]){return n+a[0];}int main(void){int b[4];b[0]=1;return f(2,b);}

131 1:17: two parameters of one name
int f(int a,int a){return 0;}int main(void){return 0;}

131 1:18: parameters and the body are one scope
int f(int a){int a;return 0;}int main(void){return 0;}

typed: an inner scope
int f(int a){{int a=2;return a;}}int main(void){return f(1);}

typed: a name is in force in its own initialiser
int x=1;int main(void){int x=x+1;return 0;}

130 1:33: y is out of scope
int main(void){{int y=1;}return y;}

typed: the scope of a for ends with it
int main(void){for(int i=0;i<2;i++)putchar(65+i);int i=7;return i;}

typed: eight parameters
int f(int a,int b,int c,int d,int e,int g,int h,int i){return i;}int main(void){return f(1,2,3,4,5,6,7,8);}

typed: nine parameters
int f(int a,int b,int c,int d,int e,int g,int h,int i,int j){return j;}int main(void){return f(1,2,3,4,5,6,7,8,9);}

136 1:94: nine parameters take nine arguments
int f(int a,int b,int c,int d,int e,int g,int h,int i,int j){return j;}int main(void){return f(1,2,3,4,5,6,7,8);}

typed: nine in a type name
int main(void){return sizeof(int(*)(int,int,int,int,int,int,int,int,int))==16;}

typed: a prototype's parameter may be incomplete
struct S;int f(struct S s);int main(void){return 0;}

132 1:25: not so that of a definition
struct S;int f(struct S s){return 0;}int main(void){return 0;}

typed: a parameter without a name
int f(int){return 1;}int main(void){return f(0);}

133 1:23: the declarator is that of no function
typedef int F(void);F f{return 0;}int main(void){return 0;}

133 1:11: no function either, and it agrees with the object of its name
int x;int x{return 0;}int main(void){return 0;}

131 1:12: the object of its name has another type
long x;int x{return 0;}int main(void){return 0;}

135 1:1: there is no main
int x;

135 1:1: main takes nothing
int main(int a){return a;}

135 1:1: main gives an int
void main(void){}

135 1:1: the empty file

// Limits of sizes, tags and names of types, and what ends the reading before the typing (6.7.2.3, 6.7.8).

140 1:6: one byte too many
char a[67108865];int main(void){return 0;}

140 1:1: one byte too many
struct S{char a[67108864];char b;};int main(void){return 0;}

140 1:55: an array type is judged as it is formed
typedef char A[67108864];int main(void){return sizeof(A[2])==0;}

131 1:25: two lists of members
struct S{int a;};struct S{int b;};int main(void){return 0;}

132 1:6: the enumeration is not declared
enum E x;int main(void){return 0;}

131 1:8: two enumerators of one name
enum{A,A};int main(void){return 0;}

131 1:20: two members of one name
struct S{int a;int a;};int main(void){return 0;}

typed: a tag is in force from its name on
struct S{struct S *next;int n;};int main(void){struct S s;s.next=&s;s.n=1;return s.next->n;}

typed: the same type again
typedef int T;typedef int T;T x;int main(void){return x;}

131 1:28: another type
typedef int T;typedef long T;int main(void){return 0;}

133 1:13: a typedef has no initialiser
typedef int T=1;int main(void){return 0;}

100 1:26: @ is no token
int main(void){return 0;}@

101 1:26: the comment has no end
int main(void){return 0;}/*

102 1:23: no type has this number
int main(void){return 18446744073709551616;}

103 1:1: float is left out
float x;

104 1:1: packing is left out
#pragma pack(1)

120: the block has no end
int main(void){return 0;

120: the name of a type is not declared again as something else
typedef int T;int main(void){T T=3;return T;}";
