//! Sizes, values of constant expressions, literals and addresses (C11 6.4.4, 6.5.3.4, 6.6).

/// Files, and what the front end says of each, as in `front_tables`.
pub(super) const FILES: &str = "\
typed: nine parameters in a cast
int main(void){return (int(*)(int,int,int,int,int,int,int,int,int))0==0;}

132 1:35: at the tag
int main(void){return sizeof(enum E);}

133 1:24: a storage word in a type name
int main(void){return (static int)1;}

typed: an enumerator of a type name under sizeof stays in scope
int main(void){int a[1?3:1/0];a[0]=1;return sizeof(enum{A=4})+A+a[0];}

typed: sizeof takes a unary: (b)[0]
int b[3];int a[sizeof(b)[0]==4&&sizeof b/sizeof*b==3&&sizeof sizeof b==8?1:-1];int main(void){return 0;}

133 1:69: an array decays before -> but not before .
struct S{int a;};int main(void){struct S s[2]={{1},{2}};return s->a+s.a;}

133 1:55: -> takes a pointer
struct S{int a;};int main(void){struct S s={1};return s->a;}

132 1:33: 132 of void * before 133 of the member
int main(void){void *p=0;return p->a;}

132 1:58: not complete where it stands, though later
struct S;extern struct S s;int main(void){return &s==&s&&s.a;}struct S{int a;};struct S s;

133 1:65: a member that is not there, under sizeof
struct S{int a;};int main(void){struct S s={1};return 0&&sizeof(s.b);}

typed: the first type of C's list that holds a literal
int a[sizeof 2147483647==4&&sizeof 2147483648==8&&sizeof 0x7fffffff==4&&sizeof 0x80000000==4&&0x80000000>0&&\
    sizeof 0xffffffff==4&&sizeof 0x100000000==8&&sizeof 037777777777==4&&sizeof 4294967295u==4&&\
    sizeof 4294967296u==8?1:-1];int main(void){return 0;}

typed: unsigned hexadecimal and octal literals
int a[sizeof(-2147483648)==8&&-0x80000000==0x80000000&&-2147483648<0&&-1==0xffffffff&&0x8000000000000000>0&&\
    01777777777777777777777==-1?1:-1];int main(void){return 0;}

typed: usual arithmetic conversions: long long with unsigned long is unsigned long long
int a[-1>0u&&-1L<0u&&-1L>0ul&&-1LL>0ul&&-1LL<0u&&(short)-1<0&&(unsigned short)1>-1&&(unsigned char)1>-1?1:-1];\
    int main(void){return 0;}

typed: __intcap_t with unsigned long gives __uintcap_t
int a[(intptr_t)-1<0&&(intptr_t)-1<0u&&(intptr_t)-1<0l&&(intptr_t)-1>0ul&&(intptr_t)-1>(uintptr_t)0&&(uintptr_t)-1>0&&\
    (uintptr_t)-1==18446744073709551615u&&(int)(uintptr_t)4294967295==-1?1:-1];int main(void){return 0;}

typed: shifts in the placed meaning
int a[1<<31<0&&1<<32==1&&1<<33==2&&1<<-1==-2147483647-1&&-1>>40==-1&&-7>>1==-4&&1u<<31>0&&1L<<32==4294967296&&\
    1<<4294967297L==2&&(char)1<<8==256?1:-1];int main(void){return 0;}

typed: signed arithmetic wraps; quotients truncate
int a[-7/2==-3&&-7%2==-1&&7%-2==1&&(-2147483647-1)/-1==-2147483647-1&&(-2147483647-1)%-1==0&&2147483647+1<0&&\
    65535*65535==-131071&&(unsigned short)65535*(unsigned short)65535<0?1:-1];int main(void){return 0;}

typed: casts, char without a sign, promotions
int a[(unsigned char)300==44&&(signed char)200==-56&&(char)-1==255&&(short)65535==-1&&(_Bool)256==1&&\
    (_Bool)0x100000000==1&&-(_Bool)2==-1&&~(unsigned char)0==-1&&!0x100000000==0&&(char)0x1ff+1==256?1:-1];\
    int main(void){return 0;}

typed: escapes; adjacent literals are one, and an escape ends with its literal
int a['\\377'==255&&'\\xff'==255&&'\\0'==0&&'\\x0000041'==65&&'\\\\'==92&&'\\?'==63&&'\\v'==11&&'\\a'==7&&'\"'==34&&\
    sizeof 'a'==4&&sizeof \"a\\0b\" \"\\x1\" \"2\"==6?1:-1];int main(void){return 0;}

typed: levels and grouping of operators
int a[(1|2^3&4==4)==3&&(1<<1+1)==4&&(6-3-2)==1&&(100/10/5)==2&&!0+1==2&&(7&3|8)==11&&(1||0&&0)==1&&(0?1:0?2:3)==3&&\
    (2>1>0)==1&&-1<0==1?1:-1];int main(void){return 0;}

typed: types of results; names, steps, assignments and commas may stand under sizeof in a constant expression
char c;short s;long l;unsigned u;int a[sizeof(c+c)==4&&sizeof(-c)==4&&sizeof(c++)==1&&sizeof(c+=l)==1&&\
    sizeof(c=l)==1&&sizeof(c<<l)==4&&sizeof(l<<c)==8&&sizeof(c<c)==4&&sizeof(!l)==4&&sizeof(c?c:s)==4&&\
    sizeof(u+l)==8&&sizeof(c,l)==8&&sizeof(1?c:l)==8&&sizeof(c&&l)==4?1:-1];int main(void){return 0;}

typed: types of results on capability integers and of intrinsics
uintptr_t p;intptr_t q;int *r;int a[sizeof(p+1)==16&&sizeof(1<<p)==4&&sizeof(p<<1)==16&&sizeof(p<1)==4&&\
    sizeof(-q)==16&&sizeof(1?p:1)==16&&sizeof(p+=1)==16&&sizeof(r+p)==16&&sizeof(r-r)==8&&\
    sizeof(cheri_tag_get(r))==1&&sizeof(cheri_address_get(p))==8&&sizeof(cheri_address_set(q,1))==16&&\
    sizeof(r[p])==4&&sizeof(getchar())==4?1:-1];int main(void){return 0;}

typed: layout of members with owned lengths
int a[sizeof(struct{char c;char d[4097];})==4112&&sizeof(struct{char d[8191];})==8192&&sizeof(union{char d[5];int e;}\
    )==8&&sizeof(struct{char c;int*p;})==32&&sizeof(char[4097])==4097&&sizeof(struct{char c[3];short s;})==6&&\
    sizeof(struct{char c;int x[1100];})==4408?1:-1];int main(void){return 0;}

140 1:5: the length is its value as an unsigned long, and the array too large
int a[18446744073709551615u];int main(void){return 0;}

140 1:5: -1u is 4294967295, as a long it is positive
int a[-1u+0*1L];int main(void){return 0;}

134 1:7: a length of -1 as a signed capability integer
int a[(intptr_t)-1];int main(void){return 0;}

134 1:13: a variable that is not evaluated; at the first byte of the whole
int n;int a[1||n];int main(void){return 0;}

134 1:29: a call that is not evaluated
int f(void){return 1;}int a[1?2:f()];int main(void){return 0;}

134 1:7: casts to integers only
int a[1+(long)(void*)0];int main(void){return 0;}

134 1:7: a length of 0
int a[sizeof(int)-4];int main(void){return 0;}

134 1:7: a zero divisor that is evaluated
int a[1&&1%0];int main(void){return 0;}

134 1:78: an enumerator outside int, at the expression
enum{A=-2147483647-1,B=2147483647,C=(char)-1};int a[C==255&&A<B?1:-1];enum{D=0x80000000};int main(void){return 0;}

131 1:46: case values are converted to __uintcap_t
int main(void){switch((uintptr_t)0){case -1:;case 18446744073709551615u:;}return 0;}

134 1:31: at the value
int main(void){switch(1){case 'a'*0/0:;}return 0;}

102 1:23: a decimal literal without u that no signed type holds
int main(void){return 9223372036854775808;}

typed: the same values in hexadecimal and with u; suffixes in either order
int main(void){return 0x8000000000000000!=9223372036854775808u&&1uLL+1llU+1Lu+1ul;}

102 1:23: 2^64 in octal
int main(void){return 02000000000000000000000;}

102 1:23: ll and LL only
int main(void){return 1lL;}

102 1:28: an octal escape has at most three digits, so two characters
int main(void){return '\\1'+'\\1234';}

102 1:31: the value is at most 255
int main(void){return '\\x0ff'+'\\400';}

134 1:60: a number added to the address of a function, also 0
int f(void){return 0;}uintptr_t v=(uintptr_t)f;uintptr_t u=(uintptr_t)f+0;int main(void){return 0;}

134 1:49: added to an address from the left, but an address is not taken from a number
int x;uintptr_t u=2+(uintptr_t)&x-1;uintptr_t w=5-(uintptr_t)&x;int main(void){return 0;}

134 1:19: the left sum is no conversion, so the result derives from it
int x;uintptr_t u=((uintptr_t)1+0)+(uintptr_t)&x;int main(void){return 0;}

typed: converted from a plain integer through capability integers
int x;uintptr_t u=(uintptr_t)(__intcap_t)1+(uintptr_t)&x;int main(void){return u!=0;}

134 1:42: 1023 bytes and less outside are near, and each step counts
int x;int *p=&x+256;int *q=&x-255;int *r=&x+1000-1000;int main(void){return 0;}

134 1:56: a literal of 3 bytes: offset 1027 is 1024 above its top
int main(void){static char *q=\"ab\"+1026;static char *p=\"ab\"+1027;return 0;}

134 1:14: a conditional is no address
int x;int *p=1?&x:0;int main(void){return 0;}

typed: members, constant elements, & and * of them
struct S{int a;int b[3];}s;int *p=&(&s)->b[2];int *q=1+s.b;int *r=&*&2[s.b];int (*f)(void);int main(void){\
    return *p+*q+*r;}

133 1:33: operands from left to right
int main(void){int *p=0;return (p*1)+q;}

130 1:35: operands before the expression itself, though 132 stands left
int main(void){void *p=0;return p+q;}

130 1:33: the operand of a cast before the cast
int main(void){return (struct S)q;}

134 1:31: the type name of a cast before its operand
int main(void){return (int(*)[-1])q;}";
