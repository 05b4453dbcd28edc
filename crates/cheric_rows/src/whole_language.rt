//! Programs of the whole language by the command: what they put, and how they end.

use crate::calls::{Table, calls_are_answered, files_are_answered, is_answered};
use bounds_place::{Sizes, USUAL};
use cheric_build::build_sized;
use std::alloc::Global;

/// Files, with the answers to their runs.
const PROGRAMS: &str = "\
1 | exit 12 | abc | parameters past eight, a pointer among them, by a pointer to the function and by its name
int f(int a,int b,int c,int d,int e,int g,int h,int i,char*p,int j){putchar(p[j]);return a<b?f(a+1,b,c,d,e,g,h,i,p,\
    j+1):c+i;}int main(void){int(*q)(int,int,int,int,int,int,int,int,char*,int)=f;return q(1,3,5,0,0,0,0,7,\"abc\",0);}

1 | exit 7
int f(int a,int b,int c,int d,int e,int g,int h,int i,int j){return a-j;}int main(void){return f(9,0,0,0,0,0,0,0,2);}

2 | trap bounds 1:54 | ABCDEFGHIJ | an array has exact bounds
int main(void){int a[10];int i;for(i=0;i<=10;i=i+1){a[i]=i;putchar(65+i);}return 0;}

2 | trap bounds 1:64 | O | and a large object those of its owned length
int main(void){char *p=malloc(100000);p[100095]=1;putchar(79);p[100096]=1;return 0;}

2 | trap bounds 1:40
char a[4095];int main(void){a[4094]=1;a[4095]=1;return 0;}

2 | trap bounds 1:65 | O
char a[4095];char b[4097];int main(void){b[4103]=1;putchar(79);b[4104]=1;return 0;}

2 | trap bounds 1:74 | | a pointer to a member has the member's bounds
struct S{char a[4];int b;};int main(void){struct S s;char *p=s.a;p[3]=1;p[4]=2;putchar(s.b);return 0;}

2 | trap tag 1:139 | 7 | a capability integer keeps what it points to, and a plain one its address alone
int main(void){int x=7;uintptr_t u=(uintptr_t)&x;int *p=(int*)(u+0);putchar(48+*p);unsigned long n=(unsigned long)&x;\
    p=(int*)n;putchar(48+*p);return 0;}

2 | trap tag 7:12 | 6 | a copy by granules keeps the pointer, and one by bytes loses it
int main(void){
int x=6;int *a=&x;int *b;
uintptr_t *s=(uintptr_t*)&a,*d=(uintptr_t*)&b;
*d=*s;putchar(48+*b);
unsigned char *t=(unsigned char*)&a,*e=(unsigned char*)&b;
for(int i=0;i<16;i=i+1)e[i]=t[i];
putchar(48+*b);return 0;}

2 | trap tag 1:91 | | a byte that is stored over a pointer takes its tag
int main(void){int x=5;int *p=&x;unsigned char *c=(unsigned char*)&p;c[0]=c[0];putchar(48+*p);return 0;}

2 | trap tag 4:2 | A | a pointer that is moved far and back has no tag
int main(void){
char a[40];char *p=a+400;p=p-400;p[0]=65;putchar(a[0]);
p=a+20000;p=p-20000;
p[0]=66;return 0;}

3 | stack 1:5
int f(int n){return f(n+1);}int main(void){return f(0);}

2 | trap store 1:44 | a
int main(void){char *s=\"ab\";putchar(s[0]);s[1]=65;return 0;}

2 | trap execute 5:9 | A | a function's pointer is called, and an object's is not
int one(int x){return x+1;}
int main(void){
void *v=(void*)one;int (*f)(int)=(int(*)(int))v;putchar(f(64));
int d=3;uintptr_t u=(uintptr_t)&d;int (*g)(int)=(int(*)(int))u;
return g(1);}

2 | trap tag 1:40 | | nor a null pointer
int main(void){int (*f)(int)=0;return f(1);}

1 | exit 100 | | each call comes back to its caller
int f(int n){return n?f(n-1)+1:0;}int main(void){return f(100);}

0 | exit 0 | YN | the heap has room for one allocation of its size
int main(void){char *p=malloc(16777216);char *q=malloc(1);putchar(p?89:78);putchar(q?89:78);return 0;}

2 | trap bounds 1:73 | E | an allocation without bytes takes no room
int main(void){char *p=malloc(0);char *q=malloc(0);putchar(p==q?69:78);p[0]=1;return 0;}

0 | exit 0 | 8 | a struct's pointer is copied with it
int main(void){int x=8;struct P{int *p;char c;}a,b;a.p=&x;b=a;putchar(48+*b.p);return 0;}

0 | exit 0 | 1(0
int main(void){char a[40];putchar(48+cheri_tag_get(a));putchar(cheri_length_get(a));\
    putchar(48+cheri_tag_get(cheri_tag_clear(a)));return 0;}

1 | exit 2 | | a sum derives from its left operand, where neither was a plain integer
int main(void){int x=1;uintptr_t u=(uintptr_t)&x;uintptr_t v=5;return cheri_tag_get(v+u-v)+2*cheri_tag_get(u+v);}

0 | exit 0 | 0 | bounds are not set wider
int main(void){char a[8];char *p=cheri_bounds_set(a,9);putchar(48+cheri_tag_get(p));return 0;}

1 | exit 7 | abcd | operands from left to right; an assignment takes its place first
int n;int f(int c){putchar(c);return n++;}int main(void){int a[4];a[f('a')]=f('b')+f('c')*f('d');return a[0];}

1 | exit 14
int main(void){int i=0,s=0;do{switch(i){case 1:continue;case 3:s+=10;default:s++;break;case 5:return s;}}while(++i<9);\
    return 0;}

1 | exit 7 | | sums wrap, and shift counts are taken modulo the width
int main(void){short s=32767;s++;long n=1;int k=33;return (s<0)+2*((1<<k)==2)+4*((n<<k)!=0);}

0 | exit 0 | 43210
struct N{struct N*next;int v;};int main(void){struct N*l=0;int i;for(i=0;i<5;i++){struct N*n=malloc(sizeof*n);n->v=i;\
    n->next=l;l=n;}for(;l;l=l->next)putchar('0'+l->v);return 0;}

0 | exit 0 | A | the meaning says nothing of a local of a function that returned; the machine goes on, and never \
    leaves its text
int *f(void){int x=1;return &x;}int main(void){int *p=f();*p=7;putchar(65);return 0;}

1 | exit 7 | y
static int c=3;static int*p[2]={&c,0};int main(void){*p[0]+=4;static char t[]=\"xy\";t[0]++;putchar(t[0]);\
    return p[1]?0:c;}

1 | exit 2 | | a size with a member's padding, a union, and an array in a value that is no place
struct S{char a[4097];char b;};int main(void){return sizeof(struct S)/8%256;}

0 | exit 0 | B
union U{int i;char c[4];};int main(void){union U u;u.i=66;putchar(u.c[0]);return 0;}

0 | exit 0 | C
struct S{char a[3];};int main(void){struct S s,t;s.a[2]=67;putchar((t=s).a[2]);return 0;}

1 | exit 3 | CDCDHI | members of 4,096 bytes and more stand where their bounds are exact, and the others behind their \
    padding
struct W{char c;short m[4095];unsigned char a;};struct W g={1,{2,3},4};int main(void){struct W w;w=g;\
    putchar(64+g.m[1]);putchar(64+g.a);putchar(64+w.m[1]);putchar(64+w.a);w.m[4094]=72;w.a=73;putchar(w.m[4094]);\
    putchar(w.a);return w.m[0]+w.c;}";

/// Files in which structs and unions go to functions by value.
const BY_VALUE: &str = "\
0 | exit 0 | A< | a struct goes to a function by value, and comes back
struct P{int a[3];char c;};struct P f(struct P p,int k){p.a[0]=p.a[0]+k;return p;}int main(void){struct P q;q.a[0]=60;\
    struct P r=f(q,5);putchar(r.a[0]);putchar(q.a[0]);return 0;}

0 | exit 0 | A | calls stand in one another's arguments, and each has its own hidden locals
struct P{int a;int b;};struct P s(struct P p,struct P q){p.a=p.a-q.b;return p;}struct P n(int a,int b){struct P p={a,\
    b};return p;}int main(void){putchar(s(s(n(70,1),n(0,2)),s(n(9,3),n(0,3))).a);return 0;}

0 | exit 0 | K | through a pointer to the function, and of a union
union U{char c;int i;};union U f(const union U u){union U v;v.i=u.c;return v;}int main(void){union U(*p)(union U)=f;\
    union U u;u.c=75;putchar(p(u).i);return 0;}

0 | exit 0 | 3 | calls in the test of a loop
struct S{int a[40];}s;struct S f(struct S x,struct S y){x.a[0]+=y.a[0];return x;}int main(void){s.a[0]=1;\
    do putchar(48+f(s,f(s,s)).a[0]);while(f(s,s).a[0]>9);return 0;}

1 | exit 3 | 012
struct S{int a[40];}s;struct S f(struct S x,int k){x.a[39]+=k;return x;}int main(void){int i=0;do putchar(48+i);\
    while(f(s,++i).a[39]<3);return s.a[39]+i;}

1 | exit 4 | ABCbc
struct S{int a;char b[20];};struct S f(struct S x){x.a++;return x;}int main(void){int n=0;for(struct S t={0};f(t).a<4;\
    t=f(t))putchar(65+n++);struct S u={0};while(f(f(u)).a<4){u=f(u);putchar(97+u.a);}return f(f(u)).a;}

1 | exit 5 | 24
struct S{int a[40];}s;struct S f(struct S x,struct S y){x.a[0]+=y.a[0];return x;}int main(void){int n=0;s.a[0]=1;do{\
    do{n++;if(n%2)continue;putchar(48+n);}while(f(s,s).a[0]>n);n++;}while(f(s,f(s,f(s,s))).a[0]>n);return n;}";

#[test]
fn programs_of_the_whole_language_run(rt: HostRuntime) {
    files_are_answered(&rt, rt.alloc(), "cheric run a.c", PROGRAMS);
}

#[test]
fn structs_and_unions_go_by_value(rt: HostRuntime) {
    files_are_answered(&rt, rt.alloc(), "cheric run a.c", BY_VALUE);
}

/// A program that counts the words of its input.
pub const WORDS: &str = r"typedef struct Node Node;
struct Node { Node *next; char *word; int count; };
static Node *table[16];
static int same(const char *a, const char *b) {
  while (*a && *a == *b) { a++; b++; }
  return *a == *b;
}
static int before(const char *a, const char *b) {
  while (*a && *a == *b) { a++; b++; }
  return *a < *b;
}
static unsigned hash(const char *s) {
  unsigned h = 7;
  while (*s) h = h * 31 + *s++;
  return h % 16;
}
static char *copy(const char *s, int n) {
  char *p = malloc(n + 1);
  if (!p) exit(9);
  for (int i = 0; i < n; i++) p[i] = s[i];
  p[n] = 0;
  return p;
}
static void count(const char *s, int n) {
  Node **place = &table[hash(s)];
  while (*place && !same((*place)->word, s)) place = &(*place)->next;
  if (!*place) {
    *place = malloc(sizeof(Node));
    if (!*place) exit(9);
    (*place)->word = copy(s, n);
    (*place)->next = 0;
    (*place)->count = 0;
  }
  (*place)->count++;
}
static Node *insert(Node *list, Node *n, int (*less)(const char *, const char *)) {
  Node **at = &list;
  while (*at && less((*at)->word, n->word)) at = &(*at)->next;
  n->next = *at;
  *at = n;
  return list;
}
static void number(int v) {
  if (v > 9) number(v / 10);
  putchar('0' + v % 10);
}
int main(void) {
  char buf[64];
  int n = 0, c;
  Node *list = 0;
  do {
    c = getchar();
    if (c > ' ' && n < 63) buf[n++] = c;
    else if (n) { buf[n] = 0; count(buf, n); n = 0; }
  } while (c != -1);
  for (int i = 0; i < 16; i++)
    while (table[i]) {
      Node *m = table[i];
      table[i] = m->next;
      list = insert(list, m, before);
    }
  for (; list; list = list->next) {
    for (char *w = list->word; *w; w++) putchar(*w);
    putchar(' ');
    number(list->count);
    putchar('\n');
  }
  return 0;
}
";

const COUNTING: [Table; 1] = [Table {
    file: WORDS,
    is_built: true,
    input: "to be or not to be\n",
    cases: "\
cheric run a.c | 0 | exit 0 | be 2/not 1/or 1/to 2/
cheric exec a.c.elf | 0 | exit 0 | be 2/not 1/or 1/to 2/",
}];

#[test]
fn words_are_counted(rt: HostRuntime) {
    calls_are_answered(&rt, rt.alloc(), &COUNTING);
}

/// A file that asks for a whole heap and one byte more.
const FILLING: [Table; 1] = [Table {
    file: "int main(void){char *p=malloc(16777216);char *q=malloc(1);putchar(p?89:78);putchar(q?89:78);return 0;}",
    is_built: false,
    input: "",
    cases: "\
cheric run a.c | 0 | exit 0 | YN
cheric run a.c --heap 16777216 | 0 | exit 0 | YN
cheric run a.c --heap 33554432 | 0 | exit 0 | YY",
}];

#[test]
fn the_heap_has_the_chosen_length(rt: HostRuntime) {
    calls_are_answered(&rt, rt.alloc(), &FILLING);
}

/// A function that calls itself until the stack is exhausted, and puts a dot each time.
const DEEP: &str = "int f(int n){putchar(46);return f(n+1);}int main(void){return f(0);}";

/// The smallest stack that there is.
const SMALL: Sizes = Sizes {
    stack: 65_536,
    ..USUAL
};

/// Words that choose a stack, and the sizes.
const STACKS: [(&str, Sizes); 2] = [
    ("cheric run a.c", USUAL),
    ("cheric run a.c --stack 65536", SMALL),
];

/// How many calls of the first function stand on the stack beside one of the second.
fn depth(alloc: Global, sizes: Sizes) -> Option<u64> {
    if !sizes.in_range() {
        return None;
    }
    let map = build_sized(alloc, DEEP.as_bytes(), sizes).ok()?.map;
    let [f, main] = map.frames.as_slice() else {
        return None;
    };
    if f.align != 16 || main.align != 16 {
        return None;
    }
    sizes.stack.checked_sub(main.size)?.checked_div(f.size)
}

/// Whether the stack has room for as many calls as its length says, of which each puts a dot.
fn fills_the_stack(alloc: Global, words: &str, sizes: Sizes) -> bool {
    let Ok(dots) = ".".repeat(alloc, depth(alloc, sizes).unwrap_or(0) as usize) else {
        return false;
    };
    !dots.is_empty() && is_answered(alloc, DEEP.as_bytes(), words, (3, &dots, "stack 1:5\n"))
}

#[test]
fn the_stack_has_the_chosen_length(rt: HostRuntime) {
    for &(words, sizes) in &STACKS {
        assert!(rt; fills_the_stack(rt.alloc(), words, sizes), "{words}");
    }
}
