//! The names of programs and modules.

ghost use Rattle.std.specs.Prelude.{◌≡◌, ◌↔◌, IsTrue, IsSome, IfSome, length, ◌≤◌};
ghost use Rattle.std.specs.List.{list_all};
ghost use Rattle.w32_base.specs.Name.{is_name, is_name_char, is_lower};

use crate::lists::ShortBytes;
use std::marker::Model;

/// A name of 1 to 16 characters: a lower-case letter, and then lower-case letters or digits. A contract sees
/// its bytes.
#[derive(Clone, Copy, Debug, PartialEq, Eq)]
pub struct Name {
    bytes: ShortBytes<16>,
}

impl Model for Name {
    ghost use Rattle.std.specs.Prelude.{List, ℕ, IsTrue};
    ghost use Rattle.w32_base.specs.Name.{is_name};

    ghost Value = { List ℕ };

    ghost view = { λ n. n.bytes };

    ghost invariant = { λ n. IsTrue (is_name n.bytes) };

    ghost inverse = { λ xs. record { bytes = xs } };
}

impl Name {
    /// The name with these bytes, or none where they aren't a name's.
    pub fn try_new(bytes: &[u8]) -> Option<Name>
        ensures valid { IsSome result ↔ IsTrue (is_name bytes.now) }
        ensures value { IfSome result (λ n. n ≡ bytes.now) }
    {
        if !has_name_form(bytes) {
            return None;
        }
        Some(Name {
            bytes: ShortBytes::from_slice(bytes),
        })
    }

    /// The bytes.
    pub fn as_slice(&self) -> &[u8]
        ensures value { result.now ≡ self.now }
        ensures form { IsTrue (is_name self.now) }
    {
        self.bytes.as_slice()
    }
}

fn is_lower_letter(byte: u8) -> bool
    ensures { result ≡ is_lower byte }
{
    byte >= 97 && byte <= 122
}

fn may_follow(byte: u8) -> bool
    ensures { result ≡ is_name_char byte }
{
    is_lower_letter(byte) || (byte >= 48 && byte <= 57)
}

fn may_all_follow(bytes: &[u8]) -> bool
    ensures { result ≡ list_all is_name_char bytes.now }
{
    bytes.iter().all(|b| may_follow(*b))
}

fn has_name_form(bytes: &[u8]) -> bool
    ensures { result ≡ is_name bytes.now }
{
    match bytes {
        [] => false,
        [first, rest @ ..] => {
            is_lower_letter(*first) && rest.len() <= 15 && may_all_follow(rest)
        }
    }
}
