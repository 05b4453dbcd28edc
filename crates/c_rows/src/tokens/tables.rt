//! Files and literals with what the standard says of them.

// The tokens of a file, each with its kind, position and spelling, and how it ends, or behind `..` its end alone; and
// the file from the next line on, each byte as the character of its number. A line `----` ends a row.
pub static LISTINGS: &str = "\
end

----
end
 \t\r
\x0b\x0c
----
Word 1:1 int, Word 2:3 x, Punct 2:4 ;, end
int
  x;

----
Word 1:2 x, Word 2:1 y, end
\tx\r
y
----
Word 1:1 _a1, Word 1:5 A_, 100 1:8
_a1 A_ $
----
// The longest token is taken.
----
Word 1:1 a, Punct 1:2 ++, Punct 1:4 +, Word 1:5 b, end
a+++b
----
Word 1:1 a, Punct 1:2 >>, Punct 1:4 >=, Word 1:6 b, end
a>>>=b
----
Word 1:1 a, Punct 1:2 >>=, Word 1:5 b, Punct 1:6 <<=, Word 1:9 c, end
a>>=b<<=c
----
Word 1:1 a, Punct 1:2 ->, Word 1:4 b, Punct 1:5 ., Word 1:6 c, end
a->b.c
----
Word 1:1 a, Punct 1:2 ., Punct 1:3 ., Word 1:4 b, end
a..b
----
Punct 1:1 <, Punct 1:2 :, Punct 1:3 :, Punct 1:4 >, end
<::>
----
Word 1:1 x1, Number 1:4 0x1u, Punct 1:8 ;, end
x1 0x1u;
----
Word 1:1 L, Char 1:2 'a', end
L'a'
----
Char 1:1 '\\'', Char 1:6 '\"', end
'\\'' '\"'
----
Text 1:1 \"\", Text 1:3 \"a\\\"b\", Char 1:9 'c', end
\"\"\"a\\\"b\"'c'
----
// Comments separate tokens.
----
Word 1:1 a, Word 1:7 c, end
a/*b*/c
----
Word 1:1 a, Word 2:1 c, end
a//b*/
c
----
Word 1:7 x, Word 1:13 y, end
/*/ */x/***/y
----
Word 2:3 x, end
/*
*/x //
----
Word 1:1 a, Punct 1:2 /, Punct 1:4 *, Word 1:5 b, end
a/ *b
----
Word 1:1 a, Punct 1:2 /=, Word 1:8 b, end
a/=/**/b
----
Text 1:1 \"/*\", end
\"/*\"
----
// Directive lines are skipped at the beginning of a line, behind spaces and tabs.
----
Word 2:1 x, end
# 1 \"a.c\" 2
x
----
Word 2:1 x, end
 \t#\tline 7
x
#12
----
Word 2:1 x, end
# 1.5
x
----
Word 2:1 x, Punct 2:2 *, Punct 2:3 /, end
#pragma once /*
x*/
#pragma packed\r
#pragma
----
100 2:4
/*
*/ # 1

----
Word 1:1 x, 100 1:3
x # 1

----
100 1:2
\x0c#line 1

----
100 1:1
#define A

----
100 1:1
# 1a

----
100 1:1
#
line 1
----
100 1:1
##
----
..100 1:26
int main(void){return 0;}@
----
..101 1:26
int main(void){return 0;}/*
----
..102 1:23
int main(void){return 18446744073709551616;}
----
..103 1:1
float x;
----
..104 1:1
#pragma pack(1)
----
..104 2:3

  # pragma\tpack
----
..100 1:1
\\
----
..100 1:3
a `
----
..100 1:2
a\0
----
..100 1:1
\u{c3}\u{a9}
----
..100 1:1
\u{ff}
----
..100 1:6
\"\u{c3}\u{a9}\0\"\u{80}
----
..100 2:6
//\u{ff}\0
/*\u{fe}*/\x7f
----
..100 2:1
# 1 \u{ff}
\u{80}
----
..101 1:9
a /* */ /*/
----
..101 1:1
/**
----
..101 1:1
'a
----
..101 1:1
'\\'
----
..101 1:2
x\"a
b\"
----
..101 1:1
\"a\\
\"
----
..101 1:1
\"a\\
----
..101 1:1
'
----
..102 1:1
''
----
..102 1:1
'ab'
----
..102 1:1
'\u{c3}\u{a9}'
----
..102 1:1
\"a\\q\"
----
..102 1:1
\"\\x100\"
----
..102 1:3
x=1..2
----
..102 1:3
x=.5
----
..102 1:2
a.5
----
..102 1:1
1e+5
----
..102 1:1
08
----
..103 1:7
f(int,...)
----
..103 1:2
(typeof)
----
..103 2:1
f
float 08";

// The punctuators of the language.
pub static PUNCTUATORS: &str = "\
[ ] ( ) { } . -> ++ -- & * + - ~ ! / % << >> < > <= >= == != ^ | && || ? : ; = *= /= %= += -= <<= >>= &= ^= |= ,";

// The keywords, and words that are like words that are left out.
pub static WORDS: &str = "\
auto break case char const continue default do else enum extern for if inline int long register restrict return
short signed sizeof static struct switch typedef union unsigned void volatile while _Bool __intcap_t __uintcap_t
__restrict __inline floats got Goto asm_";

// What the language leaves out.
pub static LEFT_OUT: &str = "\
float double _Complex _Imaginary goto asm __asm __asm__ _Atomic _Generic _Alignas _Alignof _Noreturn
_Static_assert _Thread_local __attribute __attribute__ __extension__ typeof __typeof__ __int128
__builtin_va_list __builtin_offsetof ...";

// A text, and of an integer constant its value, whether it is unsigned, how many longs it has, and whether it is
// decimal.
pub static INTEGERS: [(&str, Option<(u64, bool, u8, bool)>); 57] = [
    ("0", Some((0, false, 0, false))),
    ("7", Some((7, false, 0, true))),
    ("0u", Some((0, true, 0, false))),
    ("00", Some((0, false, 0, false))),
    ("017", Some((15, false, 0, false))),
    (
        "0000000000000000000000000000012",
        Some((10, false, 0, false)),
    ),
    ("0x1F", Some((31, false, 0, false))),
    ("0XaBcDeF", Some((11_259_375, false, 0, false))),
    ("2147483647", Some((2_147_483_647, false, 0, true))),
    ("2147483648", Some((2_147_483_648, false, 0, true))),
    ("0x80000000", Some((2_147_483_648, false, 0, false))),
    ("4294967295u", Some((4_294_967_295, true, 0, true))),
    (
        "9223372036854775807",
        Some((9_223_372_036_854_775_807, false, 0, true)),
    ),
    (
        "9223372036854775808u",
        Some((9_223_372_036_854_775_808, true, 0, true)),
    ),
    (
        "0x8000000000000000",
        Some((9_223_372_036_854_775_808, false, 0, false)),
    ),
    (
        "18446744073709551615u",
        Some((18_446_744_073_709_551_615, true, 0, true)),
    ),
    (
        "0xffffffffffffffff",
        Some((18_446_744_073_709_551_615, false, 0, false)),
    ),
    (
        "01777777777777777777777",
        Some((18_446_744_073_709_551_615, false, 0, false)),
    ),
    ("1U", Some((1, true, 0, true))),
    ("1l", Some((1, false, 1, true))),
    ("1L", Some((1, false, 1, true))),
    ("1ll", Some((1, false, 2, true))),
    ("1LL", Some((1, false, 2, true))),
    ("1ul", Some((1, true, 1, true))),
    ("1LU", Some((1, true, 1, true))),
    ("1uLL", Some((1, true, 2, true))),
    ("1llU", Some((1, true, 2, true))),
    ("0xful", Some((15, true, 1, false))),
    ("", None),
    ("u", None),
    ("x", None),
    ("x1", None),
    ("08", None),
    ("09", None),
    ("0x", None),
    ("0xu", None),
    ("0xg", None),
    ("0b1", None),
    ("1..2", None),
    ("1.", None),
    (".5", None),
    ("1e5", None),
    ("12ab", None),
    ("1uu", None),
    ("1lul", None),
    ("1lL", None),
    ("1Ll", None),
    ("1lll", None),
    ("1 ", None),
    ("-1", None),
    ("9223372036854775808", None),
    ("9223372036854775808ll", None),
    ("18446744073709551615", None),
    ("18446744073709551616u", None),
    ("0x10000000000000000", None),
    ("02000000000000000000000", None),
    ("99999999999999999999999999999999u", None),
];

// A text, and of a character constant its value.
pub static CHARACTERS: [(&[u8], Option<u8>); 42] = [
    (b"'a'", Some(97)),
    (b"'\"'", Some(34)),
    (b"'\0'", Some(0)),
    (b"'\xff'", Some(255)),
    (b"'\\n'", Some(10)),
    (b"'\\t'", Some(9)),
    (b"'\\r'", Some(13)),
    (b"'\\a'", Some(7)),
    (b"'\\b'", Some(8)),
    (b"'\\f'", Some(12)),
    (b"'\\v'", Some(11)),
    (b"'\\\\'", Some(92)),
    (b"'\\''", Some(39)),
    (b"'\\\"'", Some(34)),
    (b"'\\?'", Some(63)),
    (b"'\\0'", Some(0)),
    (b"'\\7'", Some(7)),
    (b"'\\12'", Some(10)),
    (b"'\\377'", Some(255)),
    (b"'\\x4'", Some(4)),
    (b"'\\x7F'", Some(127)),
    (b"'\\xff'", Some(255)),
    (b"'\\x00000041'", Some(65)),
    (b"", None),
    (b"'", None),
    (b"''", None),
    (b"'''", None),
    (b"'ab'", None),
    (b"'\\'", None),
    (b"'\n'", None),
    (b"'\\400'", None),
    (b"'\\1234'", None),
    (b"'\\8'", None),
    (b"'\\x'", None),
    (b"'\\x100'", None),
    (b"'\\xg'", None),
    (b"'\\q'", None),
    (b"'\\X41'", None),
    (b"\"a\"", None),
    (b"a", None),
    (b"'a", None),
    (b"a'", None),
];

// A string literal, and the bytes that it spells behind a `>`.
pub static STRINGS: [(&[u8], &[u8]); 6] = [
    (b"\"\"", b">"),
    (b"\"ab'c\"", b">ab'c"),
    (
        b"\"\\n\\t\\r\\a\\b\\f\\v\\\\\\'\\\"\\?\"",
        b">\x0a\x09\x0d\x07\x08\x0c\x0b\x5c\x27\x22\x3f",
    ),
    (b"\"\\1234\\08\\377\\0\"", b">\x534\08\xff\0"),
    (b"\"\\x41g\\xC3\\xa9\\x0041\"", b">Ag\xc3\xa9A"),
    (b"\"\xc3\xa9\0\x7f\"", b">\xc3\xa9\0\x7f"),
];
