//! Calls, conversions and operators (C11 6.3, 6.5).

/// Files, and what the front end says of each, as in `front_tables`.
pub(super) const FILES: &str = "\
133 1:24: a library function other than in a direct call is 133 at its name
int main(void){return (putchar,1);}

133 1:30: 133 at the name comes with the operand, before 132 of sizeof of a function
int main(void){return sizeof(putchar);}

133 1:25: only parentheses may stand round the called name
int main(void){return (*putchar)(65);}

typed: direct call with parentheses round the name
int main(void){return ((putchar))(65);}

136 1:23: 136 at the call, whose first byte is the first parenthesis
int main(void){return ((putchar))();}

133 1:40: 133 of an argument before 136 of the call
int main(void){int *p=0;return putchar(p,1);}

133 1:57: a call of a function: wrong second argument and one too many
int g(int a,int *b){return a;}int main(void){return g(1,2,3);}

136 1:53: wrong number of arguments
int g(int a,int *b){return a;}int main(void){return g(1);}

136 1:67: 136 at the first byte of the call, which is that of h
int g(int a){return a;}int main(void){int (*h[1])(int)={g};return h[0](1,2);}

130 1:23: the called expression is typed before the arguments
int main(void){return f(g);}

133 1:37: an inner name hides the library function; a call takes a function
int main(void){int putchar=3;return putchar(4);}

typed: under sizeof is no use
int f(void);int main(void){return sizeof f();}

130 1:38: any appearance as an expression is a use
int f(void);int main(void){return 0&&f();}

130 1:22: in initialisers too
extern int e;int *p=&e;int main(void){return 0;}

typed: under sizeof, in a length too, is no use
extern int e;int a[sizeof(e)];int main(void){return sizeof e;}

130 1:23: this intrinsic is spelled __builtin_cheri_equal_exact
int main(void){return __builtin_cheri_is_equal_exact(0,0);}

typed: each P is any pointer or capability integer
int main(void){int x;return __builtin_cheri_equal_exact(&x,(uintptr_t)&x);}

133 1:37: P is no plain integer, and 0 is not converted
int main(void){return cheri_tag_get(0);}

typed: functions and literals decay to pointers
int main(void){return cheri_tag_get(main)+cheri_tag_get(\"a\");}

typed: a result P has the type of the decayed argument
int main(void){int a[3];cheri_bounds_set(a,4)[0]=1;return a[0];}

133 1:30: a result P has the type int * here
int main(void){int x;char *c=cheri_bounds_set(&x,4);return 0;}

133 1:30: a result P keeps the const of the pointed-to type
int main(void){const int x=1;*cheri_tag_clear(&x)=2;return 0;}

133 1:49: a pointer does not convert to the argument, which is an unsigned long
int main(void){int x;return cheri_bounds_set(&x,&x)==0;}

typed: the second spelling
int main(void){return cheri_representable_length(10)!=__builtin_cheri_round_representable_length(10);}

133 1:23: void is no operand of +, at the first byte of the sum
int main(void){return exit(1)+1;}

133 1:22: 133 at the right side, whose first byte is the parenthesis
int main(void){int x=(exit(1));return x;}

133 1:62: a void argument, at the right side
void f(void){}int g(int x){return x;}int main(void){return g(f());}

typed: functions decay; & and * take functions; ?: with a null pointer constant
int f(int x){return x;}int main(void){return (1?f:0)(2)+(&f)(1)+(*f)(1)+(**f)(1)+(&*f)(1);}

133 1:69: pointers to functions of other types, at the first byte of ?:
int f(int x){return x;}int g(void){return 1;}int main(void){return (1?f:g)(2);}

133 1:82: () and (void) are no int parameter
int f(int (*g)(void)){return g();}int z(int a){return a;}int main(void){return f(z);}

typed: a parameter of function type is a pointer; () is (void)
int f(int g(void)){return g();}int z(){return 1;}int main(void){return f(z)+f(&z)-f(*z);}

133 1:20: a const parameter is const in the body
int f(const int x){x=1;return x;}int main(void){return f(2);}

typed: a parameter of array type is a pointer that can be stepped
int f(int a[3]){a++;return *a;}int main(void){int b[3]={1,2,3};return f(b);}

133 1:69: a pointer to a pointer to a function is not called
int main(void){int (*f)(void)=main;int (**g)(void)=&f;return (*g)()+g();}

132 1:33: an integer is added to a void *, whose target is not complete
int main(void){void *p=0;return p+1==0;}

132 1:33: an index with the pointer on the right: at the first byte
int main(void){void *p=0;return 0[p];}

133 1:32: + takes no two pointers
int main(void){int a[2];return a+a==0;}

133 1:45: an index of a pointer to a function is 133
int f(void){return 0;}int main(void){return f[0]();}

132 1:39: ++ on a pointer to an incomplete struct, at the operator
struct S;int main(void){struct S *p=0;++p;return 0;}

133 1:54: ++ on a pointer to a function, at the operand
int f(void){return 0;}int main(void){int(*p)(void)=f;p++;return 0;}

133 1:61: - of pointers to functions
int f(void){return 0;}int main(void){int(*p)(void)=f;return p-p;}

132 1:32: 132 of void * before 133 of const
int main(void){void *const p=0;p+=1;return 0;}

132 1:26: 132 of void * before 133 of what is no place
int main(void){void *p=0;((void*)p)++;return 0;}

132 1:37: * takes a pointer to a complete object
int main(void){int (*p)[]=0;return (*p)[0];}

typed: an array without a length is compatible
int main(void){int a[3];int (*p)[]=&a;return p==&a;}

133 1:37: arrays of other lengths
int main(void){int a[3];int (*p)[4]=&a;return 0;}

typed: difference without regard to const
int main(void){int a[3];const int *p=a;return p-a;}

133 1:46: - of pointers to types that are not compatible
int main(void){int a[2];unsigned *p=0;return a-p;}

133 1:32: an integer less a pointer
int main(void){int a[2];return 1-a==0;}

132 1:42: p - q with void *
int main(void){int *p=0;void *q=0;return p-q;}

typed: comparison, also <, takes a pointer and a null pointer constant
int main(void){int x;int *p=&x;return p<0;}

133 1:43: a pointer and a capability integer
int main(void){int x;uintptr_t u=0;return &x==u;}

typed: any integer constant expression of value 0
int main(void){int x;return &x==(uintptr_t)0;}

typed: a pointer and void *, which may be to const
int main(void){const void *p=0;int *q=0;void *v=0;return p==q&&q==p&&p!=0&&q<v;}

typed: the const of the pointed-to type itself is disregarded
int main(void){char *a[1]={0};char **p=a;char *const *q=p;return q==p;}

typed: of the elements of a pointed-to array too
int main(void){int a[3];const int (*p)[3]=&a;int (*q)[3]=p;return q==p;}

133 1:36: long and long long are different types
int main(void){long x;long long *p=&x;return 0;}

133 1:33: char and unsigned char are different types
int main(void){unsigned char *p=\"a\";return 0;}

typed: an enum type is int
enum E{A};int main(void){int x;enum E *p=&x;return A;}

133 1:68: void * goes to and from any pointer, void ** does not
int main(void){int x;int *p=&x;void *v=p;int (*f)(void)=v;void **w=&p;return f==v;}

typed: indexes in both orders; a pointer to an array
int main(void){int a[2]={1,2};return 1[a]+a[1]+*(1+a)+(&a)[0][1]+(*&a)[1];}

typed: a capability integer is an integer
int main(void){intptr_t i=1;int a[9]={0};int *p=a;p+=i;p-=(char)1;return a[i]+i[a]+*(p+i-i);}

typed: (void*)0 takes the other type, int *
int main(void){int x=1;return *(1?(void*)0:&x);}

132 1:31: not the null pointer constant cast twice, so void * wins
int main(void){int x=1;return *(1?(void*)(void*)0:&x);}

132 1:31: exactly void *
int main(void){int x=1;return *(1?(const void*)0:&x);}

typed: constant expressions of value 0 cast to void *, by a typedef name and through a capability integer
typedef void *P;enum{Z};int main(void){int x=1;return *(1?(P)(Z*8):&x)+*(1?&x:(void*)(uintptr_t)(1-1));}

132 1:42: else void * wins
int main(void){int x=1;void *v=&x;return *(1?v:&x);}

typed: a divisor that is not evaluated may be zero, so the value is 0
int main(void){int *p=(0&&1/0);return p!=!1;}

133 1:23: not constant, so an int for a pointer: 133
int main(void){int *p=1/0;return 0;}

133 1:8: 133 before 134 at one place
int *p=1/0;int main(void){return 0;}

134 1:7: a zero divisor in a static initialiser
int x=1/0;int main(void){return 0;}

133 1:23: a comma is no constant expression
int main(void){int *p=(0,0);return 0;}

133 1:37: a const object is no constant
int main(void){const int z=0;int *p=z;return 0;}

133 1:40: a variable in an operand that is not evaluated
int main(void){int x=0;int *p=0;return p==(1?0:x);}

typed: (char)256 has the value 0
int *f(void){return (char)256;}int main(void){int *p='\\0';return f()==p;}

133 1:38: const is the union
int main(void){const int c=1;int x=2;*(1?&c:&x)=3;return 0;}

133 1:88: ?: of two different structs
struct S{int a;};struct T{int a;};int main(void){struct S s={1};struct T t={1};return (1?s:t).a;}

133 1:44: two void, and then void and an integer
void f(void){}int main(void){1?f():(void)0;0?f():0;return 0;}

133 1:55: ?: takes a scalar
struct S{int a;};int main(void){struct S s={1};return s?1:0;}

133 1:29: a pointer and an integer that is not 0
int main(void){int x;return 1?&x:1;}

typed: a struct with a const member may be assigned
struct S{const int a;int b;};int main(void){struct S s={1,2},t={3,4};s=t;return s.b;}

133 1:61: a member of a const struct is const, and an array passes it on to its elements
struct S{int a[2];};int main(void){const struct S s={{1,2}};s.a[0]=3;return 0;}

133 1:81: the same through a pointer and two members
struct S{struct{int b;}a;};int main(void){struct S s={{1}};const struct S *p=&s;p->a.b++;return 0;}

133 1:54: a member of a value that is no place
struct S{int a;};int main(void){struct S s={1},t={2};(s=t).a=3;return 0;}

typed: its array members decay, and elements are places
struct S{int a[2];};int main(void){struct S s={{1,2}},t={{3,4}};(s=t).a[1]=5;return &(1?s:t).a[1]!=0;}

133 1:78: & of its members by .
struct S{struct{int a[2];}b;};int main(void){struct S s={{{1,2}}},t=s;return &(s=t).b.a==0;}

133 1:52: ++, at the operator
struct S{int a;};int main(void){struct S s={1},t=s;++(1?s:t).a;return 0;}

133 1:52: an assignment is no place
struct S{int a;};int main(void){struct S s={1},t=s;(s=t)=t;return 0;}

typed: read by .
struct S{int a;};int main(void){struct S s={1},t=s;return (0,t).a+sizeof(s=t).a;}

133 1:28: a comma is no place
int main(void){int a=1,b=2;(a,b)=3;return 0;}

133 1:24: the grammar takes any unary on the left
int main(void){int a=1;-a=2;return 0;}

133 1:31: longest tokens: (a++)++ + a
int main(void){int a=1;return a+++++a;}

133 1:31: an array on the left
int main(void){char s[3]=\"ab\";s=\"cd\";return 0;}

typed: elements of a literal are places that are not const
int main(void){\"ab\"[0]=65;return *&*&*\"a\";}

133 1:50: a const place under --, at the first byte
int main(void){const int c=1;const int *p=&c;p++;(*p)--;return 0;}

typed: scalar to _Bool
int main(void){_Bool b=&b!=0;b+=5;b--;b=main;b=&b;b=(uintptr_t)&b;return b;}

133 1:34: a pointer to a capability integer needs a cast
int main(void){int x;uintptr_t u=&x;return 0;}

typed: integer to integer, all operators on capability integers
int main(void){int x,i=0;uintptr_t u=(uintptr_t)&x;int n=u;u<<=1;u=5-u;i+=u;i<<=u;u%=3u;return n&1;}

133 1:25: * takes integers
int main(void){int *p=0;p*=2;return 0;}

133 1:59: comparison of structs
struct S{int a;};int main(void){struct S s={1},t=s;return s==t;}

133 1:34: ~ takes an integer, at the operator
int main(void){int *p=0;return 1+~p;}

133 1:55: ! takes a scalar
struct S{int a;};int main(void){struct S s={1};return !s;}

133 1:56: a cast goes between scalars or to void
struct S{int a;};int main(void){struct S s={1};(void)s;(struct S)s;return 0;}

133 1:25: a cast to an array
int main(void){int a[2];(int[2])a;return 0;}

133 1:46: * takes a pointer
int main(void){uintptr_t u=0;return *(int*)u+*u;}

132 1:30: &*p asks what *p asks
int main(void){int x;return &*(void*)&x==0;}

133 1:23: & takes a place
int main(void){return &5==0;}

133 1:32: sizeof (int) is the type form, so a product of an integer and a pointer
int main(void){int *p=0;return sizeof(int)*p;}

132 1:46: sizeof of a function
int f(int x){return x;}int main(void){return sizeof *f;}

132 1:37: sizeof of void
void f(void){}int main(void){return sizeof f();}

132 1:23: a type name of function type
int main(void){return sizeof(int());}

132 1:23: sizeof of an array without a length
int main(void){return sizeof(int[]);}

140 1:30: at the first byte of the type name
int main(void){return sizeof(char[67108865]);}

typed: the limit itself
int main(void){return sizeof(char[67108864])/65536%256;}

134 1:34: at the length
int main(void){return sizeof(int[0]);}";
