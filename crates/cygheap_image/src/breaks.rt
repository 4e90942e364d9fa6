//! Where bytes break the layout of a cygheap: a test of each byte after those before it.

ghost use Rattle.std.specs.Prelude.{◌≡◌, ◌<◌, length};
ghost use Rattle.layer_spec.specs.HeapReads.{byte_at};
ghost use Rattle.layer_spec.specs.HeapBreaks.{fits_head, fits_mask, fits_action, fits_child, fits_at, first_break};

use crate::HEAP_BYTES;

/// Whether this may be byte `i` of the version and the flags.
fn fits_head(i: usize, b: u8) -> bool
    ensures { result ≡ fits_head i b }
{
    match i {
        0 => b == 1,
        2 => b <= 1,
        _ => b == 0,
    }
}

/// Whether this may be byte `j` of a mask, which has neither KILL nor STOP nor bit 31.
fn fits_mask(j: usize, b: u8) -> bool
    ensures { result ≡ fits_mask j b }
{
    match j {
        0 => true,
        1 => b % 2 == 0,
        2 => b / 4 % 2 == 0,
        _ => b < 128,
    }
}

/// Whether this may be byte `j` of the action of a signal, whose first byte is `kind`.
fn fits_action(signal: usize, kind: u8, j: usize, b: u8) -> bool
    ensures { result ≡ fits_action signal kind j b }
{
    match (j, kind) {
        (0, _) => b == 0 || b <= 2 && signal != 9 && signal != 19,
        (1, 2) => b <= 1,
        (_, 2) => true,
        _ => b == 0,
    }
}

/// Whether this may be byte `j` of a child, whose first byte is `low`: a number from 2 to 4001, and one flag.
fn fits_child(low: u8, j: usize, b: u8) -> bool
    ensures { result ≡ fits_child low j b }
{
    match j {
        0 => true,
        1 => {
            let number = u16::from_le_bytes([low, b]);
            number >= 2 && number <= 4001
        }
        2 => b <= 1,
        _ => b == 0,
    }
}

/// Whether the byte at a place may stand there after those before it.
fn fits_at(bytes: &[u8], i: usize) -> bool
    requires size { length bytes.now ≡ 288 }
    requires within { i < 288 }
    ensures { result ≡ fits_at bytes.now i (byte_at bytes.now i) }
{
    let b = bytes[i];
    match i {
        0..4 => fits_head(i, b),
        4..8 => fits_mask(i - 4, b),
        8..12 => {
            if bytes[2] == 1 {
                fits_mask(i - 8, b)
            } else {
                b == 0
            }
        }
        12..14 => true,
        14..16 => b == 0,
        16..140 => fits_action(i / 4 - 3, bytes[i - i % 4], i % 4, b),
        140..156 => i % 2 == 0 || b <= 3,
        156 => b <= 32,
        157..160 => b == 0,
        _ => {
            if i / 4 - 40 < usize::from(bytes[156]) {
                fits_child(bytes[i - 1], i % 4, b)
            } else {
                b == 0
            }
        }
    }
}

/// The place at which the bytes break the layout, or none where they keep it.
pub fn first_break(bytes: &[u8]) -> Option<u16>
    ensures { result ≡ first_break bytes.now }
{
    if bytes.len() != HEAP_BYTES {
        return Some(288);
    }
    for i in 0..288 {
        if !fits_at(bytes, usize::from(i)) {
            return Some(i);
        }
    }
    None
}
