//! The glyphs against the table of the font, in which each word of two digits is a byte, and the ten digits behind
//! it are its five columns.
ghost use Rattle.std.specs.Prelude.{◌<◌};

use crate::pixels::pixel;
use look_core::Look;
use std::process::Abort;

const FONT: &str = "20 0000000000  21 00005F0000  22 0007000700  23 147F147F14  24 242A7F2A12
25 2313086462  26 3649562050  27 0008070300  28 001C224100  29 0041221C00
2A 2A1C7F1C2A  2B 08083E0808  2C 0080703000  2D 0808080808  2E 0000606000
2F 2010080402  30 3E5149453E  31 00427F4000  32 7249494946  33 2141494D33
34 1814127F10  35 2745454539  36 3C4A494931  37 4121110907  38 3649494936
39 464949291E  3A 0000140000  3B 0040340000  3C 0008142241  3D 1414141414
3E 0041221408  3F 0201590906  40 3E415D594E  41 7C1211127C  42 7F49494936
43 3E41414122  44 7F4141413E  45 7F49494941  46 7F09090901  47 3E41415173
48 7F0808087F  49 00417F4100  4A 2040413F01  4B 7F08142241  4C 7F40404040
4D 7F021C027F  4E 7F0408107F  4F 3E4141413E  50 7F09090906  51 3E4151215E
52 7F09192946  53 2649494932  54 01017F0101  55 3F4040403F  56 1F2040201F
57 3F4038403F  58 6314081463  59 0304780403  5A 6159494D43  5B 007F414141
5C 0204081020  5D 004141417F  5E 0402010204  5F 4040404040  60 0003070800
61 2054547840  62 7F28444438  63 3844444428  64 384444287F  65 3854545418
66 00087E0902  67 18A4A49C78  68 7F08040478  69 00447D4000  6A 2040403D00
6B 7F10284400  6C 00417F4000  6D 7C04780478  6E 7C08040478  6F 3844444438
70 FC18242418  71 18242418FC  72 7C08040408  73 4854545424  74 04043F4424
75 3C4040207C  76 1C2040201C  77 3C4030403C  78 4428102844  79 4C9090907C
7A 4464544C44  7B 0008364100  7C 0000770000  7D 0041360800  7E 0201020402";

/// What a hexadecimal digit is worth.
fn digit(byte: u8) -> u8
    ensures { result < 16 }
{
    match byte {
        b'0'..=b'9' => byte - b'0',
        b'A'..=b'F' => byte - b'A' + 10,
        _ => 0,
    }
}

/// The number that two hexadecimal digits write.
fn number(high: u8, low: u8) -> u8 {
    16 * digit(high) + digit(low)
}

/// A column of a letter is drawn: in row r a pixel of ink exactly where the column has the bit of value 2^r.
fn draws_column(rt: &impl Abort, shown: &[u8], u: u32, column: u8) {
    let look = Look::LabelLook { shown };
    for row in 0..8 {
        let ink = (column >> row) % 2 == 1;
        let wanted = if ink { 0 } else { 3 };
        assert_eq!(rt;
            pixel(rt, &look, 12, 12, u, row + 2),
            wanted,
            "column {u} row {row} of {shown:?}"
        );
    }
}

/// A letter is drawn: its five columns, and a sixth without ink.
fn draws(rt: &impl Abort, byte: u8, columns: &[u8]) {
    assert_eq!(rt; columns.len(), 10);
    let shown = [byte];
    for c in 0..5 {
        draws_column(
            rt,
            &shown,
            2 + c as u32,
            number(columns[2 * c], columns[2 * c + 1]),
        );
    }
    draws_column(rt, &shown, 7, 0);
}

/// Each letter of the table is drawn, and there are so many.
fn draws_all(rt: &impl Abort, table: &str) -> u32 {
    let mut byte = 0;
    let mut count = 0u32;
    for word in table.split_whitespace() {
        match word.as_bytes() {
            [high, low] => byte = number(*high, *low),
            columns => {
                draws(rt, byte, columns);
                count = count.saturating_add(1);
            }
        }
    }
    count
}

#[test]
fn the_95_glyphs_are_those_of_the_table(rt: HostRuntime) {
    assert_eq!(rt; draws_all(&rt, FONT), 95);
}
