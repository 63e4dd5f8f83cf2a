// Says which bytes are escaped in column 1, in columns 2 and 3, and in the tags and values of column 9.
// In the Rust: the `AsciiSet`s of `io/writer/line/record.rs` and below.
//
// Each of the three sets holds the next: column 1 escapes what tags and values do, and these what columns 2 and 3 do. So one number a byte
// says it all: how many of them escape it.
//
// Proved: the sets are those of specs/, byte by byte; decoding what any of them encoded gives the text; no encoded text holds a control
// character, nor a tag or a value a sign of column 9, nor a name `#` or `>`. Assumes nothing.
#![tactic(auto)]

ghost use Rattle.std.specs.Prelude.{◌≡◌};
ghost use Rattle.percent_sets.specs.Sets.{escapes, classes, least_class, escapes_by};

#[derive(Clone, Copy)]
pub enum Set {
    // Column 1, the reference sequence name.
    Name,
    // Columns 2 and 3, source and type.
    Column,
    // Tags and values of column 9.
    Attribute,
}

// A line for each byte, by its name, so that a reader can hold it to RULES 6.3; rows of numbers would be shorter and could not be read so.
// How many sets escape each byte. 3: every one; 2: tags and values, and column 1; 1: column 1 alone; 0: none.
static CLASSES: [u8; 256] = [
    3, // 0x00
    3, // 0x01
    3, // 0x02
    3, // 0x03
    3, // 0x04
    3, // 0x05
    3, // 0x06
    3, // 0x07
    3, // 0x08
    3, // 0x09
    3, // 0x0A
    3, // 0x0B
    3, // 0x0C
    3, // 0x0D
    3, // 0x0E
    3, // 0x0F
    3, // 0x10
    3, // 0x11
    3, // 0x12
    3, // 0x13
    3, // 0x14
    3, // 0x15
    3, // 0x16
    3, // 0x17
    3, // 0x18
    3, // 0x19
    3, // 0x1A
    3, // 0x1B
    3, // 0x1C
    3, // 0x1D
    3, // 0x1E
    3, // 0x1F
    1, // 0x20
    0, // 0x21 !
    1, // 0x22 "
    1, // 0x23 #
    0, // 0x24 $
    3, // 0x25 %
    2, // 0x26 &
    1, // 0x27 '
    1, // 0x28 (
    1, // 0x29 )
    0, // 0x2A *
    0, // 0x2B +
    2, // 0x2C ,
    0, // 0x2D -
    0, // 0x2E .
    1, // 0x2F /
    0, // 0x30 0
    0, // 0x31 1
    0, // 0x32 2
    0, // 0x33 3
    0, // 0x34 4
    0, // 0x35 5
    0, // 0x36 6
    0, // 0x37 7
    0, // 0x38 8
    0, // 0x39 9
    0, // 0x3A :
    2, // 0x3B ;
    1, // 0x3C <
    2, // 0x3D =
    1, // 0x3E >
    0, // 0x3F ?
    0, // 0x40 @
    0, // 0x41 A
    0, // 0x42 B
    0, // 0x43 C
    0, // 0x44 D
    0, // 0x45 E
    0, // 0x46 F
    0, // 0x47 G
    0, // 0x48 H
    0, // 0x49 I
    0, // 0x4A J
    0, // 0x4B K
    0, // 0x4C L
    0, // 0x4D M
    0, // 0x4E N
    0, // 0x4F O
    0, // 0x50 P
    0, // 0x51 Q
    0, // 0x52 R
    0, // 0x53 S
    0, // 0x54 T
    0, // 0x55 U
    0, // 0x56 V
    0, // 0x57 W
    0, // 0x58 X
    0, // 0x59 Y
    0, // 0x5A Z
    1, // 0x5B [
    1, // 0x5C \
    1, // 0x5D ]
    0, // 0x5E ^
    0, // 0x5F _
    1, // 0x60 `
    0, // 0x61 a
    0, // 0x62 b
    0, // 0x63 c
    0, // 0x64 d
    0, // 0x65 e
    0, // 0x66 f
    0, // 0x67 g
    0, // 0x68 h
    0, // 0x69 i
    0, // 0x6A j
    0, // 0x6B k
    0, // 0x6C l
    0, // 0x6D m
    0, // 0x6E n
    0, // 0x6F o
    0, // 0x70 p
    0, // 0x71 q
    0, // 0x72 r
    0, // 0x73 s
    0, // 0x74 t
    0, // 0x75 u
    0, // 0x76 v
    0, // 0x77 w
    0, // 0x78 x
    0, // 0x79 y
    0, // 0x7A z
    1, // 0x7B {
    0, // 0x7C |
    1, // 0x7D }
    1, // 0x7E ~
    3, // 0x7F
    3, // 0x80
    3, // 0x81
    3, // 0x82
    3, // 0x83
    3, // 0x84
    3, // 0x85
    3, // 0x86
    3, // 0x87
    3, // 0x88
    3, // 0x89
    3, // 0x8A
    3, // 0x8B
    3, // 0x8C
    3, // 0x8D
    3, // 0x8E
    3, // 0x8F
    3, // 0x90
    3, // 0x91
    3, // 0x92
    3, // 0x93
    3, // 0x94
    3, // 0x95
    3, // 0x96
    3, // 0x97
    3, // 0x98
    3, // 0x99
    3, // 0x9A
    3, // 0x9B
    3, // 0x9C
    3, // 0x9D
    3, // 0x9E
    3, // 0x9F
    3, // 0xA0
    3, // 0xA1
    3, // 0xA2
    3, // 0xA3
    3, // 0xA4
    3, // 0xA5
    3, // 0xA6
    3, // 0xA7
    3, // 0xA8
    3, // 0xA9
    3, // 0xAA
    3, // 0xAB
    3, // 0xAC
    3, // 0xAD
    3, // 0xAE
    3, // 0xAF
    3, // 0xB0
    3, // 0xB1
    3, // 0xB2
    3, // 0xB3
    3, // 0xB4
    3, // 0xB5
    3, // 0xB6
    3, // 0xB7
    3, // 0xB8
    3, // 0xB9
    3, // 0xBA
    3, // 0xBB
    3, // 0xBC
    3, // 0xBD
    3, // 0xBE
    3, // 0xBF
    3, // 0xC0
    3, // 0xC1
    3, // 0xC2
    3, // 0xC3
    3, // 0xC4
    3, // 0xC5
    3, // 0xC6
    3, // 0xC7
    3, // 0xC8
    3, // 0xC9
    3, // 0xCA
    3, // 0xCB
    3, // 0xCC
    3, // 0xCD
    3, // 0xCE
    3, // 0xCF
    3, // 0xD0
    3, // 0xD1
    3, // 0xD2
    3, // 0xD3
    3, // 0xD4
    3, // 0xD5
    3, // 0xD6
    3, // 0xD7
    3, // 0xD8
    3, // 0xD9
    3, // 0xDA
    3, // 0xDB
    3, // 0xDC
    3, // 0xDD
    3, // 0xDE
    3, // 0xDF
    3, // 0xE0
    3, // 0xE1
    3, // 0xE2
    3, // 0xE3
    3, // 0xE4
    3, // 0xE5
    3, // 0xE6
    3, // 0xE7
    3, // 0xE8
    3, // 0xE9
    3, // 0xEA
    3, // 0xEB
    3, // 0xEC
    3, // 0xED
    3, // 0xEE
    3, // 0xEF
    3, // 0xF0
    3, // 0xF1
    3, // 0xF2
    3, // 0xF3
    3, // 0xF4
    3, // 0xF5
    3, // 0xF6
    3, // 0xF7
    3, // 0xF8
    3, // 0xF9
    3, // 0xFA
    3, // 0xFB
    3, // 0xFC
    3, // 0xFD
    3, // 0xFE
    3, // 0xFF
];

// The class of each byte, lent where it stands: whoever takes the numbers themselves has them laid on the stack.
pub fn table() -> &'static [u8; 256]
    ensures { result.now ≡ classes }
{
    &CLASSES
}

// The class of each byte.
pub fn classes() -> [u8; 256]
    ensures { result ≡ classes }
{
    *table()
}

// The least class that a set escapes.
fn least_class(set: Set) -> u8
    ensures { result ≡ least_class set }
{
    match set {
        Set::Name => 1,
        Set::Attribute => 2,
        Set::Column => 3,
    }
}

// Whether a set escapes a byte, by a table of classes: the byte's entry decides.
pub fn escaped_by(table: &[u8; 256], set: Set, b: u8) -> bool
    ensures { result ≡ escapes_by table.now set b }
{
    least_class(set) <= table[b as usize]
}

// Whether a set escapes a byte.
pub fn escaped(set: Set, b: u8) -> bool
    ensures { result ≡ escapes set b }
{
    escaped_by(table(), set, b)
}
