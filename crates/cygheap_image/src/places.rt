//! Numbers and pieces at a place of some bytes.

ghost use Rattle.std.specs.Prelude.{◌≡◌, ◌+◌, ◌≤◌, length};
ghost use Rattle.vm_spec.specs.Image.{word_at};
ghost use Rattle.layer_spec.specs.HeapReads.{half_at};
ghost use Rattle.cygheap_image.specs.Pieces.{with_piece, without_four};

/// The number in two bytes from a place on.
pub fn half(bytes: &[u8], place: usize) -> u16
    requires { place + 2 ≤ length bytes.now }
    ensures { result ≡ half_at bytes.now place }
{
    u16::from_le_bytes([bytes[place], bytes[place + 1]])
}

/// The number in four bytes from a place on.
pub fn word(bytes: &[u8], place: usize) -> u32
    requires { place + 4 ≤ length bytes.now }
    ensures { result ≡ word_at bytes.now place }
{
    u32::from_le_bytes([
        bytes[place],
        bytes[place + 1],
        bytes[place + 2],
        bytes[place + 3],
    ])
}

/// Writes a piece from a place on. The other bytes stay.
pub fn put(bytes: &mut [u8], place: usize, piece: &[u8])
    requires { place + length piece.now ≤ length bytes.old }
    ensures value { bytes.new ≡ with_piece bytes.old place piece.now }
    ensures len { length bytes.new ≡ length bytes.old }
{
    bytes[place..place + piece.len()].copy_from_slice(piece);
}

/// Takes four bytes away at a place. Those behind them stand four places lower, and zeros come last.
pub fn take_out(bytes: &mut [u8], place: usize)
    requires { place + 4 ≤ length bytes.old }
    ensures value { bytes.new ≡ without_four bytes.old place }
    ensures len { length bytes.new ≡ length bytes.old }
{
    put(bytes, place, &[0; 4]);
    bytes[place..].rotate_left(4);
}
