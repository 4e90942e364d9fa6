//! A signal that can be posted.

ghost use Rattle.std.specs.Prelude.{◌≡◌, IsTrue};
ghost use Rattle.posix_spec.specs.Signals.{is_signal};

use std::marker::Model;

/// A signal, from 1 to 31. A contract sees its number.
#[derive(Clone, Copy, Debug, PartialEq, Eq)]
pub struct Signal(u8);

impl Model for Signal {
    ghost use Rattle.std.specs.Prelude.{ℕ, IsTrue};
    ghost use Rattle.posix_spec.specs.Signals.{is_signal};

    ghost Value = { ℕ };

    ghost view = { λ s. s.0 };

    ghost invariant = { λ s. IsTrue (is_signal s.0) };

    ghost inverse = { λ n. record { 0 = n } };
}

impl Signal {
    /// The signal with this number.
    pub fn new(number: u8) -> Signal
        requires { IsTrue (is_signal number) }
        ensures { result ≡ number }
    {
        Signal(number)
    }

    /// The number.
    pub fn get(self) -> u8
        ensures value { result ≡ self }
        ensures range { IsTrue (is_signal self) }
    {
        self.0
    }
}
