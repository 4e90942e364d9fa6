//! The pieces of a text: its lines, and the words of a line.

ghost use Rattle.std.specs.Prelude.{◌≡◌, ◌∷◌, option_map, nat_eq, position};
ghost use Rattle.script_spec.specs.Lines.{pieces};
ghost use Rattle.cyg_script.specs.Words.{pieces_after};

/// The place of the first separator.
fn first_at(bytes: &[u8], separator: u8) -> Option<usize>
    ensures { result ≡ position (λ b. nat_eq b separator) bytes.now }
{
    bytes.iter().position(|b| *b == separator)
}

/// The bytes before the first separator, and those after it where there is one.
pub fn cut(bytes: &[u8], separator: u8) -> (&[u8], Option<&[u8]>)
    ensures { pieces separator bytes.now ≡ result.0.now ∷ pieces_after separator (option_map (λ r. r.now) result.1) }
{
    match first_at(bytes, separator) {
        Some(at) => (&bytes[..at], Some(&bytes[at + 1..])),
        None => (bytes, None),
    }
}
