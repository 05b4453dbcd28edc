//! The programs of `examples/`, each with what it puts and how it ends.

use crate::calls::{Table, calls_are_answered, is_answered, is_file_so};
use std::alloc::Global;
use std::process::Abort;

const ECHO: &str =
    r#"/* The input is written again: getchar gives its bytes, and -1 behind the last.
   Output: the input. Then `exit 0`, status 0. */
int main(void) {
    int c = getchar();
    while (c >= 0) {
        putchar(c);
        c = getchar();
    }
    return 0;
}
"#;

const HI: &str = r#"int main(void){putchar(72);putchar(105);return 0;}"#;

const LIST: &str = r#"/* A list from malloc, in order: its input is a line of small letters.
   Input: sorted. Output: deorst. Then `exit 6`, status 1: the number of letters. */
typedef struct Node Node;
struct Node {
    Node *next;
    char letter;
};
static Node *insert(Node *list, char letter) {
    Node **at = &list;
    Node *node = malloc(sizeof(Node));
    if (!node) exit(99);
    while (*at && (*at)->letter < letter) at = &(*at)->next;
    node->letter = letter;
    node->next = *at;
    *at = node;
    return list;
}
int main(void) {
    Node *list = 0;
    int c, count = 0;
    while ((c = getchar()) >= 'a') {
        list = insert(list, c);
        count++;
    }
    for (; list; list = list->next) putchar(list->letter);
    return count;
}
"#;

const WORDS: &str = r#"/* Counts the words of its input, in order.
   Input: to be or not to be. Output: be 2, not 1, or 1 and to 2, a line each. Then `exit 0`, status 0. */
typedef struct Node Node;
struct Node { Node *next; char *word; int count; };
static Node *table[16];
static int same(const char *a, const char *b) {
  while (*a && *a == *b) { a++; b++; }
  return *a == *b;
}
static int before(const char *a, const char *b) {
  while (*a && *a == *b) { a++; b++; }
  return *a < *b;
}
static unsigned hash(const char *s) {
  unsigned h = 7;
  while (*s) h = h * 31 + *s++;
  return h % 16;
}
static char *copy(const char *s, int n) {
  char *p = malloc(n + 1);
  if (!p) exit(9);
  for (int i = 0; i < n; i++) p[i] = s[i];
  p[n] = 0;
  return p;
}
static void count(const char *s, int n) {
  Node **place = &table[hash(s)];
  while (*place && !same((*place)->word, s)) place = &(*place)->next;
  if (!*place) {
    *place = malloc(sizeof(Node));
    if (!*place) exit(9);
    (*place)->word = copy(s, n);
    (*place)->next = 0;
    (*place)->count = 0;
  }
  (*place)->count++;
}
static Node *insert(Node *list, Node *n, int (*less)(const char *, const char *)) {
  Node **at = &list;
  while (*at && less((*at)->word, n->word)) at = &(*at)->next;
  n->next = *at;
  *at = n;
  return list;
}
static void number(int v) {
  if (v > 9) number(v / 10);
  putchar('0' + v % 10);
}
int main(void) {
  char buf[64];
  int n = 0, c;
  Node *list = 0;
  do {
    c = getchar();
    if (c > ' ' && n < 63) buf[n++] = c;
    else if (n) { buf[n] = 0; count(buf, n); n = 0; }
  } while (c != -1);
  for (int i = 0; i < 16; i++)
    while (table[i]) {
      Node *m = table[i];
      table[i] = m->next;
      list = insert(list, m, before);
    }
  for (; list; list = list->next) {
    for (char *w = list->word; *w; w++) putchar(*w);
    putchar(' ');
    number(list->count);
    putchar('\n');
  }
  return 0;
}
"#;

/// The programs whose last line ends, each behind the answer to its run and its name.
const EXAMPLES: &str = r#"1 | exit 44 | bye | bye.c
/* The status that a program gives is the low eight bits of what main returns: 300 is 44.
   Output: bye. Then `exit 44`, status 1. */
int main(void) {
    putchar('b');
    putchar('y');
    putchar('e');
    return 300;
}

0 | exit 0 | Hi | bytes.c
/* putchar writes the low byte of its argument: of 328 it is 72, of 361 it is 105.
   Output: Hi. Then `exit 0`, status 0. */
int main(void) {
    putchar(328);
    putchar(361);
    return 0;
}

2 | trap bounds 16:6 | 1/40/8/4/ | capabilities.c
/* What a pointer holds, by the intrinsics of CHERI C: tag, length and offset, and bounds that are set narrower.
   Output: 1, 40, 8 and 4, a line each. Then `trap bounds 16:6`, status 2. */
static void number(unsigned long n) {
    if (n > 9) number(n / 10);
    putchar('0' + (int)(n % 10));
}
static void line(unsigned long n) {
    number(n);
    putchar('\n');
}
int main(void) {
    char a[40];
    char *p = cheri_bounds_set(a + 8, 4);
    line(cheri_tag_get(a)), line(cheri_length_get(a)), line(cheri_offset_get(a + 8)), line(cheri_length_get(p));
    p[3] = 1;
    p[4] = 2;
    return 0;
}

2 | trap tag 10:6 | A | far_pointer.c
/* A pointer may leave its object by less than 1,024 bytes and come back; from farther away its tag is gone.
   Output: A. Then `trap tag 10:6`, status 2. */
int main(void) {
    char a[40];
    char *p = a + 400;
    p = p - 400;
    p[0] = 'A';
    putchar(a[0]);
    p = p + 20000, p = p - 20000;
    p[0] = 'B';
    return 0;
}

0 | exit 0 | 7/3/10/2/ | function_pointers.c
/* A table of functions, and a function that takes one.
   Output: 7, 3, 10 and 2, a line each. Then `exit 0`, status 0. */
typedef int Operation(int, int);
static int add(int a, int b) { return a + b; }
static int subtract(int a, int b) { return a - b; }
static int multiply(int a, int b) { return a * b; }
static int divide(int a, int b) { return a / b; }
static Operation *const table[] = {add, subtract, multiply, divide};
static void number(int n) {
    if (n > 9) number(n / 10);
    putchar('0' + n % 10);
}
static void show(Operation *f, int a, int b) {
    number(f(a, b));
    putchar('\n');
}
int main(void) {
    for (int i = 0; i < 4; i++) show(table[i], 5, 2);
    return 0;
}

0 | exit 0 | YN | heap_is_full.c
/* The heap has 16,777,216 bytes, which are never used again. What does not fit is answered by null.
   Output: YN. Then `exit 0`, status 0. */
int main(void) {
    char *p = malloc(16777216);
    char *q = malloc(1);
    putchar(p ? 'Y' : 'N');
    putchar(q ? 'Y' : 'N');
    return 0;
}

1 | exit 9 | 1/4/9/16/25/36/49/64/81/ | machine.c
/* A little stack machine: it pushes, adds, multiplies, shows and jumps. It shows the squares from 1 to 9.
   Output: 1, 4, 9, 16, 25, 36, 49, 64 and 81, a line each. Then `exit 9`, status 1. */
enum Opcode { PUSH, DUPLICATE, ADD, MULTIPLY, SHOW, LOAD, STORE, JUMP_BELOW, HALT };
struct Machine {
    int stack[8];
    int depth;
    int memory[4];
};
static const int program[] = {
    LOAD, 0, PUSH, 1, ADD, STORE, 0,
    LOAD, 0, DUPLICATE, MULTIPLY, SHOW,
    LOAD, 0, PUSH, 9, JUMP_BELOW, 0,
    LOAD, 0, HALT,
};
static void number(int n) {
    if (n > 9) number(n / 10);
    putchar('0' + n % 10);
}
static int pop(struct Machine *m) {
    return m->stack[--m->depth];
}
static void push(struct Machine *m, int value) {
    m->stack[m->depth++] = value;
}
static int run(struct Machine *m, const int *code) {
    const int *at = code;
    for (;;) {
        int a, b;
        switch (*at++) {
        case PUSH: push(m, *at++); break;
        case DUPLICATE: a = pop(m); push(m, a), push(m, a); break;
        case ADD: b = pop(m), a = pop(m); push(m, a + b); break;
        case MULTIPLY: b = pop(m), a = pop(m); push(m, a * b); break;
        case SHOW: number(pop(m)), putchar('\n'); break;
        case LOAD: push(m, m->memory[*at++]); break;
        case STORE: m->memory[*at++] = pop(m); break;
        case JUMP_BELOW: b = pop(m), a = pop(m); at = a < b ? code + *at : at + 1; break;
        case HALT: return pop(m);
        }
    }
}
int main(void) {
    struct Machine m = {{0}, 0, {0}};
    return run(&m, program);
}

2 | trap bounds 13:6 | 4 | member_bounds.c
/* A pointer to an array in a struct has the bounds of that member, and does not reach the next one.
   Output: 4. Then `trap bounds 13:6`, status 2. */
struct Pair {
    char name[4];
    int count;
};
int main(void) {
    struct Pair pair = {"abc", 4};
    char *p = pair.name;
    p[3] = 'd';
    putchar('0' + pair.count);
    /* One byte behind the member. */
    p[4] = 9;
    return 0;
}

2 | trap bounds 9:6 | PO | padding.c
/* Bounds of 100,000 bytes cannot be told exactly: the object gets 100,096 bytes, and the bounds are those.
   Output: PO. Then `trap bounds 9:6`, status 2. */
int main(void) {
    char *p = malloc(100000);
    p[99999] = 'P';
    putchar(p[99999]);
    p[100095] = 'O';
    putchar(p[100095]);
    p[100096] = 'X';
    return 0;
}

2 | trap tag 12:19 | 22 | provenance.c
/* An uintptr_t keeps what a pointer may do, also through a sum with an integer; the bytes of a pointer do not.
   Output: 22. Then `trap tag 12:19`, status 2. */
int main(void) {
    int a[3] = {1, 2, 3};
    uintptr_t u = (uintptr_t)a;
    int *p = (int *)(u + sizeof(int));
    int *q;
    putchar('0' + *p);
    *(uintptr_t *)&q = *(uintptr_t *)&p;
    putchar('0' + *q);
    for (int i = 0; i < 16; i++) ((char *)&q)[i] = ((char *)&p)[i];
    putchar('0' + *q);
    return 0;
}

3 | stack 4:12 | . | stack_exhausted.c
/* A recursion that does not end uses up the stack of 1,048,576 bytes.
   Output: a dot for each 16,384 calls. Then `stack 4:12`, the name of the function, status 3. */
static int calls;
static int deeper(int n) {
    calls++;
    if (calls % 16384 == 0) putchar('.');
    return deeper(n + 1) + 1;
}
int main(void) {
    return deeper(0);
}

0 | exit 0 | 8/2/5/ | structs.c
/* Structs in structs, arrays of them and their assignment: a copy keeps the pointers in it.
   Output: 8, 2 and 5, a line each. Then `exit 0`, status 0. */
struct Point {
    int x, y;
};
struct Shape {
    struct Point corners[3];
    int *weight;
    const char *name;
};
int main(void) {
    int weight = 8;
    struct Shape one = {{{1, 2}, {3, 4}, {5, 6}}, &weight, "one"}, several[2];
    several[0] = several[1] = one;
    one.corners[0].y = 9;
    putchar('0' + *several[1].weight), putchar('\n');
    putchar('0' + several[0].corners[0].y), putchar('\n');
    putchar('0' + (weight > 7 ? several[0] : one).corners[2].x), putchar('\n');
    return 0;
}

2 | trap align 7:16 | 1 | trap_align.c
/* An int stands at a multiple of four.
   Output: 1. Then `trap align 7:16`, status 2. */
int main(void) {
    int a[2] = {1, 2};
    int *p = (int *)((char *)a + 1);
    putchar('0' + a[0]);
    return 0 + *p;
}

2 | trap bounds 6:10 | ABCDEFGHIJ | trap_bounds.c
/* The eleventh element of ten.
   Output: ABCDEFGHIJ. Then `trap bounds 6:10`, status 2. */
int main(void) {
    int a[10];
    for (int i = 0; i <= 10; i++) {
        a[i] = i;
        putchar('A' + i);
    }
    return 0;
}

2 | trap execute 11:13 | A | trap_execute.c
/* A pointer to data cannot be called.
   Output: A. Then `trap execute 11:13`, status 2. */
int one_more(int x) {
    return x + 1;
}
int main(void) {
    int (*f)(int) = one_more;
    int data = 3;
    int (*g)(int) = (int (*)(int))(void *)&data;
    putchar(f(64));
    return g(1);
}

2 | trap load 8:14 | w | trap_load.c
/* A pointer without the permission to load (bit 2) can only be written through.
   Output: w. Then `trap load 8:14`, status 2. */
int main(void) {
    char a[4] = "abc";
    char *p = cheri_perms_and(a, ~4ul);
    p[0] = 'w';
    putchar(a[0]);
    putchar(p[1]);
    return 0;
}

2 | trap sealed 10:12 | f | trap_sealed.c
/* A function's pointer is sealed: it can be called, and nothing can be read through it.
   Output: f. Then `trap sealed 10:12`, status 2. */
int f(int c) {
    return putchar(c);
}
int main(void) {
    void *v = (void *)f;
    int *p = v;
    f('f');
    return *p;
}

2 | trap store 6:6 | a | trap_store.c
/* A string literal can be read and not be written.
   Output: a. Then `trap store 6:6`, status 2. */
int main(void) {
    char *s = "ab";
    putchar(s[0]);
    s[1] = 'A';
    return 0;
}

2 | trap storecap 10:5 | i | trap_storecap.c
/* A pointer without the permission to store capabilities (bit 5) takes integers and no pointers.
   Output: i. Then `trap storecap 10:5`, status 2. */
int main(void) {
    int x = 3;
    int *q = 0;
    int **p = cheri_perms_and(&q, ~32ul);
    *p = 0;
    *(int *)p = 5;
    putchar('i');
    *p = &x;
    return 0;
}

2 | trap tag 8:19 | 7 | trap_tag.c
/* A pointer that is made from a plain integer has no tag.
   Output: 7. Then `trap tag 8:19`, status 2. */
int main(void) {
    int x = 7;
    int *p = &x;
    unsigned long number = (unsigned long)p;
    putchar('0' + *p);
    putchar('0' + *(int *)number);
    return 0;
}

0 | exit 0 | WDRS | wraps.c
/* What C leaves undefined has a value: sums wrap, a quotient by zero is -1, shift counts are taken modulo 32.
   Output: WDRS. Then `exit 0`, status 0. */
int main(void) {
    int most = 2147483647, zero = 0, one = 1;
    if (most + 1 == -2147483647 - 1) putchar('W');
    if (most / zero == -1) putchar('D');
    if (most % zero == most) putchar('R');
    if (one << 33 == 2) putchar('S');
    return 0;
}"#;

/// Whether the program of a row is answered so.
fn is_program_so(alloc: Global, row: &str) -> Option<bool> {
    let row = format!(in alloc; "{row}\n").ok()?;
    is_file_so(alloc, "cheric run a.c", &row)
}

fn programs_are_so(rt: &impl Abort, alloc: Global, rows: &str) {
    for row in rows.split("\n\n") {
        assert!(rt; is_program_so(alloc, row) == Some(true), "{row}");
    }
}

/// Those that read, each with an input.
const READING: [Table; 3] = [
    Table {
        file: ECHO,
        is_built: false,
        input: "again\n",
        cases: "cheric run a.c | 0 | exit 0 | again/",
    },
    Table {
        file: LIST,
        is_built: false,
        input: "sorted\n",
        cases: "cheric run a.c | 1 | exit 6 | deorst",
    },
    Table {
        file: WORDS,
        is_built: false,
        input: "to be or not to be\n",
        cases: "cheric run a.c | 0 | exit 0 | be 2/not 1/or 1/to 2/",
    },
];

#[test]
fn examples_do_what_they_say(rt: HostRuntime) {
    programs_are_so(&rt, rt.alloc(), EXAMPLES);
    let answer = (0, "Hi", "exit 0\n");
    assert!(rt; is_answered(rt.alloc(), HI.as_bytes(), "cheric run a.c", answer));
    calls_are_answered(&rt, rt.alloc(), &READING);
}
