//! Words with the texts of the instructions that they encode, and words that encode none. The tables are values of an
//! independent model.

use crate::answers::{must_all_hold, must_hold, wrong_unless};
use ck_base::NoMemory;
use rv_code::{decode, encode};
use rv_instr::Reg;
use rv_text::line;
use std::alloc::Global;

const NAMES: [(Reg, u8); 6] = [
    (Reg::ZERO, 0),
    (Reg::LINK, 1),
    (Reg::STACK, 2),
    (Reg::TABLE, 3),
    (Reg::RESULT, 10),
    (Reg::SERVICE, 17),
];

fn there_are_thirty_two() -> bool {
    Reg::new(31) == Some(Reg::numbered(31)) && Reg::new(32).is_none()
}

/// The first name of another register.
fn wrong_name() -> Option<usize> {
    for (at, &(name, number)) in NAMES.iter().enumerate() {
        if name.number() != number {
            return Some(at);
        }
    }
    None
}

/// Words, and the texts of the instructions that they encode. A remark stands behind `//`.
const WORDS: &str = "\
// Worked words.
04800513 addi x10,x0,72
00113423 sd x1,8(c2)
00114823 csc c1,16(c2)
0101208f clc c1,16(c2)
fe01115b cincoffsetimm c2,c2,-32
12b5055b csetboundsexact c10,c10,x11
00008067 cjalr c0,0(c1)
0000006f cjal c0,0
00000073 ecall
00100073 ebreak
// Words of an independent model.
0572b5b7 lui x11,22315
f8eed237 lui x4,1019629
053c0717 auipcc c14,21440
fcbd4717 auipcc c14,1035220
fd30126f cjal c4,-1040430
02ffa06f cjal c0,1026094
5aa3276f cjal c14,206250
a79724ef cjal c9,-578952
800605e7 cjalr c11,-2048(c12)
7ff18567 cjalr c10,2047(c3)
000c0967 cjalr c18,0(c24)
80947563 bgeu x8,x9,-4086
7caacfe3 blt x21,x10,4062
fc868d63 beq x13,x8,-2086
9db39763 bne x7,x27,-3634
cd25cd63 blt x11,x18,-2854
cd97d8e3 bge x15,x25,-816
e6cc6e63 bltu x24,x12,-2436
0bca7563 bgeu x20,x28,170
800f8e83 lb x29,-2048(c31)
7ff46b03 lwu x22,2047(c8)
fff10883 lb x17,-1(c2)
28a00a83 lb x21,650(c0)
7ffa1503 lh x10,2047(c20)
001dab03 lw x22,1(c27)
a53b3603 ld x12,-1453(c22)
d42a4303 lbu x6,-702(c20)
ffffd483 lhu x9,-1(c31)
800be583 lwu x11,-2048(c23)
80998023 sb x9,-2048(c19)
7f60cfa3 csc c22,2047(c1)
ffad8fa3 sb x26,-1(c27)
011500a3 sb x17,1(c10)
81f49023 sh x31,-2048(c9)
8023a023 sw x2,-2048(c7)
80a6b023 sd x10,-2048(c13)
e2c7c9a3 csc c12,-461(c15)
8004a78f clc c15,-2048(c9)
7ffe228f clc c5,2047(c28)
001cae8f clc c29,1(c25)
80058913 addi x18,x11,-2048
7ff8841b addiw x8,x17,2047
fff08213 addi x4,x1,-1
001e2893 slti x17,x28,1
d820b613 sltiu x12,x1,-638
fff64413 xori x8,x12,-1
0015e993 ori x19,x11,1
000f7913 andi x18,x30,0
000b871b addiw x14,x23,0
00051293 slli x5,x10,0
03e61c93 slli x25,x12,62
00145893 srli x17,x8,1
03ea5c13 srli x24,x20,62
4006de93 srai x29,x13,0
43f0d493 srai x9,x1,63
00019d1b slliw x26,x3,0
01fb921b slliw x4,x23,31
000bd11b srliw x2,x23,0
01fed71b srliw x14,x29,31
4000569b sraiw x13,x0,0
41f55e9b sraiw x29,x10,31
8000105b cincoffsetimm c0,c0,-2048
7ffc96db cincoffsetimm c13,c25,2047
955c155b cincoffsetimm c10,c24,-1707
03532d5b csetboundsimm c26,c6,53
ff95a35b csetboundsimm c6,c11,4089
aff5265b csetboundsimm c12,c10,2815
017488b3 add x17,x9,x23
001719b3 sll x19,x14,x1
012e28b3 slt x17,x28,x18
018ab3b3 sltu x7,x21,x24
01e5c8b3 xor x17,x11,x30
018ed1b3 srl x3,x29,x24
01206cb3 or x25,x0,x18
00b3f333 and x6,x7,x11
41540d33 sub x26,x8,x21
419cdd33 sra x26,x25,x25
036d8b33 mul x22,x27,x22
033ac233 div x4,x21,x19
029ad8b3 divu x17,x21,x9
02576433 rem x8,x14,x5
03eef1b3 remu x3,x29,x30
0026033b addw x6,x12,x2
004896bb sllw x13,x17,x4
000558bb srlw x17,x10,x0
417e023b subw x4,x28,x23
4047d63b sraw x12,x15,x4
02ea033b mulw x6,x20,x14
0360c0bb divw x1,x1,x22
027153bb divuw x7,x2,x7
03b8e3bb remw x7,x17,x27
035c7b3b remuw x22,x24,x21
103d855b csetbounds c10,c27,x3
1264815b csetboundsexact c2,c9,x6
1b518adb candperm c21,c3,x21
2054055b csetaddr c10,c8,x5
238d855b cincoffset c10,c27,x24
42f6035b csetequalexact x6,c12,c15
fe0a8f5b cgetperm x30,c21
fe240adb cgetbase x21,c8
fe358adb cgetlen x21,c11
fe4581db cgettag x3,c11
fe690ddb cgetoffset x27,c18
fe8c8e5b crrl x28,x25
fe9388db cram x17,x7
feab805b cmove c0,c23
febf86db ccleartag c13,c31
fef48fdb cgetaddr x31,c9
ff1f06db csealentry c13,c30
// Texts of an independent model.
f3f27f97 auipcc c31,999207
8de07f97 auipcc c31,581127
3cd9efb7 lui x31,249246
83fd6037 lui x0,540630
ceab406f cjal c0,-310038
cb04906f cjal c0,-748368
800009e7 cjalr c19,-2048(c0)
800b0fe7 cjalr c31,-2048(c22)
cf0f8663 beq x31,x16,-2836
d20e5363 bge x28,x0,-2778
e9f0f5e3 bgeu x1,x31,-374
f80ef163 bgeu x29,x0,-2174
bbf7c363 blt x15,x31,-3162
9400ea63 bltu x1,x0,-3756
da4fede3 bltu x31,x4,-582
84b31be3 bne x6,x11,-1962
800c4003 lbu x0,-2048(c24)
fff9bb83 ld x23,-1(c19)
80099c03 lh x24,-2048(c19)
800d2883 lw x17,-2048(c26)
fffa6f83 lwu x31,-1(c20)
808fc023 csc c8,-2048(c31)
ff37cfa3 csc c19,-1(c15)
81503023 sd x21,-2048(c0)
fe581fa3 sh x5,-1(c16)
00052023 sw x0,0(c10)
800fad0f clc c26,-2048(c31)
800f0013 addi x0,x30,-2048
fff0091b addiw x18,x0,-1
800f0a1b addiw x20,x30,-2048
fff47013 andi x0,x8,-1
80077593 andi x11,x14,-2048
ffffe813 ori x16,x31,-1
8006af93 slti x31,x13,-2048
fff8a793 slti x15,x17,-1
800e3013 sltiu x0,x28,-2048
7ff6bf93 sltiu x31,x13,2047
80074f93 xori x31,x14,-2048
01f21313 slli x6,x4,31
00111d9b slliw x27,x2,1
401bd213 srai x4,x23,1
40195e93 srai x29,x18,1
41f0519b sraiw x3,x0,31
01fdd313 srli x6,x27,31
018008b3 add x17,x0,x24
00d1803b addw x0,x3,x13
00a87fb3 and x31,x16,x10
02014fb3 div x31,x2,x0
03f05433 divu x8,x0,x31
0209c6bb divw x13,x19,x0
02948fbb mulw x31,x9,x9
0281e033 rem x0,x3,x8
03f478b3 remu x17,x8,x31
03f27c3b remuw x24,x4,x31
0220603b remw x0,x0,x2
010f9f33 sll x30,x31,x16
01bf973b sllw x14,x31,x27
00bfafb3 slt x31,x31,x11
0059b033 sltu x0,x19,x5
4102d033 sra x0,x5,x16
400752bb sraw x5,x14,x0
01d054b3 srl x9,x0,x29
41d001b3 sub x3,x0,x29
40890fbb subw x31,x18,x8
01154033 xor x0,x10,x17
800f90db cincoffsetimm c1,c31,-2048
9c38afdb csetboundsimm c31,c17,2499
a38fa0db csetboundsimm c1,c31,2616
1ae20fdb candperm c31,c4,x14
2315005b cincoffset c0,c10,x17
22d3005b cincoffset c0,c6,x13
21a58fdb csetaddr c31,c11,x26
21400a5b csetaddr c20,c0,x20
11900fdb csetbounds c31,c0,x25
10050adb csetbounds c21,c10,x0
12200b5b csetboundsexact c22,c0,x2
4340035b csetequalexact x6,c0,c20
43fb8cdb csetequalexact x25,c23,c31
fe2f865b cgetbase x12,c31
fe0f855b cgetperm x10,c31
fe40025b cgettag x4,c0
fe848fdb crrl x31,x9
ff1a8fdb csealentry c31,c21";

/// Whether the word encodes the instruction of this text, which is written behind what stands there.
fn encodes(alloc: Global, word: u32, text: &str) -> Result<bool, NoMemory> {
    let Some(found) = decode(word) else {
        return Ok(false);
    };
    let is_encoded = encode(found) == word;
    let mut written = String::from_str(alloc, "65536 ")?;
    line(found, &mut written)?;
    Ok(is_encoded && written.as_str().strip_prefix("65536 ") == Some(text))
}

fn is_so(alloc: Global, row: &str) -> bool {
    let (word, text) = row.split_once(' ').unwrap_or((row, ""));
    match u32::from_str_radix(word, 16) {
        Ok(word) => matches!(encodes(alloc, word, text), Ok(true)),
        Err(_) => word == "//",
    }
}

/// The first row that is not so, if there is one.
fn wrong_row(alloc: Global) -> &'static str {
    for row in WORDS.lines() {
        if !is_so(alloc, row) {
            return row;
        }
    }
    ""
}

/// Words that encode no instruction.
const NO_INSTRUCTIONS: [u32; 100] = [
    0x00000000, 0xffffffff, 0x01243467, 0x01b69ae7, 0x03e87367, 0x053c64e7, 0x05874f67, 0x0d5629e7,
    0x22a0d9e7, 0x0626a6e3, 0x0aa3b263, 0x06e57d03, 0x0621d223, 0x065dec23, 0x09dc7a23, 0x0000000f,
    0x0000100f, 0x0161540f, 0x0c1be60f, 0x1034f00f, 0x1470458f, 0x14793b0f, 0x0605dd93, 0x21fb5813,
    0x25e39a93, 0x2d4c1793, 0x38c95293, 0x3bd35513, 0x3f551193, 0x52429193, 0x00f3281b, 0x0365929b,
    0x04405e1b, 0x044cc69b, 0x052a1d9b, 0x067a6f9b, 0x09a4b31b, 0x0a8dc71b, 0x02001033, 0x02002033,
    0x02003033, 0x04240d33, 0x073a7fb3, 0x082870b3, 0x0cb0c333, 0x0cc0dc33, 0x0066493b, 0x0298173b,
    0x0c5dfdbb, 0x0c9d503b, 0x0fa237bb, 0x115d17bb, 0x11612bbb, 0x1294b33b, 0x00200073, 0x00262e73,
    0x012051f3, 0x06f03973, 0x07aec873, 0x0a35e573, 0x0d0e96f3, 0x1cc7f2f3, 0x033ae6db, 0x039e8cdb,
    0x0750575b, 0x08a549db, 0x093e515b, 0x0ad957db, 0x0c32c1db, 0x0d68f05b, 0x00232ce4, 0x05d47874,
    0x0f5a3fd2, 0x18ef4eeb, 0x2240640a, 0x2c082dff, 0x33e67c9c, 0x3a5f3c62, 0x40e31a2b, 0x49685926,
    0x50854162, 0x5769fc06, 0x5fb8f35a, 0x67a0da62, 0x6ecb4bc3, 0x776fb390, 0x8066fdfd, 0x88eade54,
    0x915e5a86, 0x98a47c6e, 0x9fff346e, 0xa5b28fb8, 0xb1cc1342, 0xb8a1cde1, 0xbfec63cb, 0xc8d251a8,
    0xd0f7f8c6, 0xd80f197a, 0xe3b8d385, 0xf063b07b,
];

/// The first of them that is decoded.
fn wrong_instruction() -> Option<usize> {
    for (at, &word) in NO_INSTRUCTIONS.iter().enumerate() {
        if decode(word).is_some() {
            return Some(at);
        }
    }
    None
}

#[test]
fn registers_have_names_and_words_encode_instructions(rt: HostRuntime) {
    must_all_hold(
        &rt,
        "there are 32 registers",
        wrong_unless(there_are_thirty_two()),
    );
    must_all_hold(&rt, "names of registers", wrong_name());
    must_all_hold(&rt, "words of none", wrong_instruction());
    let wrong = wrong_row(rt.alloc());
    must_hold(&rt, wrong, wrong.is_empty());
}
