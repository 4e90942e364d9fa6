//! Sets of signals, as bits.

ghost use Rattle.std.specs.Prelude.{⊤, ◌≡◌, ◌<◌, ◌^◌, [], ◌∷◌, codes, IsTrue};
ghost use Rattle.posix_spec.specs.Signals.{is_signal, only, contains, outside};
ghost use Rattle.sig_sets.specs.Shown.{bits_of};

use bitflags::{Flag, Flags, bitflag_items};

/// A set of signals: signal `s`, from 1 to 31, is bit `s - 1`. Contracts name the number of its bits by
/// `bits_of`. Bit 31 names no signal: it is there only where `from_bits_retain` was given it, and the calls of this
/// crate pass it over.
#[derive(Clone, Copy, Debug, PartialEq, Eq)]
pub struct SigSet(u32);

bitflag_items! {
    impl SigSet: u32 {
        const HUP = 1;
        const INT = 2;
        const QUIT = 4;
        const ILL = 8;
        const TRAP = 16;
        const ABRT = 32;
        const BUS = 64;
        const FPE = 128;
        const KILL = 256;
        const USR1 = 512;
        const SEGV = 1024;
        const USR2 = 2048;
        const PIPE = 4096;
        const ALRM = 8192;
        const TERM = 16384;
        const SYS = 32768;
        const CHLD = 65536;
        const CONT = 131072;
        const STOP = 262144;
        const TSTP = 524288;
        const TTIN = 1048576;
        const TTOU = 2097152;
        const URG = 4194304;
        const XCPU = 8388608;
        const XFSZ = 16777216;
        const VTALRM = 33554432;
        const PROF = 67108864;
        const WINCH = 134217728;
        const POLL = 268435456;
        const X30 = 536870912;
        const X31 = 1073741824;
    }
}

impl Flags for SigSet {
    type Bits = u32;

    ghost exact = { ⊤ };

    ghost table = { (codes "HUP", 1) ∷ (codes "INT", 2) ∷ (codes "QUIT", 4) ∷ (codes "ILL", 8) ∷
        (codes "TRAP", 16) ∷ (codes "ABRT", 32) ∷ (codes "BUS", 64) ∷ (codes "FPE", 128) ∷
        (codes "KILL", 256) ∷ (codes "USR1", 512) ∷ (codes "SEGV", 1024) ∷ (codes "USR2", 2048) ∷
        (codes "PIPE", 4096) ∷ (codes "ALRM", 8192) ∷ (codes "TERM", 16384) ∷ (codes "SYS", 32768) ∷
        (codes "CHLD", 65536) ∷ (codes "CONT", 131072) ∷ (codes "STOP", 262144) ∷
        (codes "TSTP", 524288) ∷ (codes "TTIN", 1048576) ∷ (codes "TTOU", 2097152) ∷
        (codes "URG", 4194304) ∷ (codes "XCPU", 8388608) ∷ (codes "XFSZ", 16777216) ∷
        (codes "VTALRM", 33554432) ∷ (codes "PROF", 67108864) ∷ (codes "WINCH", 134217728) ∷
        (codes "POLL", 268435456) ∷ (codes "X30", 536870912) ∷ (codes "X31", 1073741824) ∷ [] };

    ghost set_of = { bits_of };

    fn flags<'a>() -> &'a [Flag<SigSet>] {
        SigSet::FLAGS
    }

    fn bits(&self) -> u32 {
        self.0
    }

    fn from_bits_retain(bits: u32) -> SigSet {
        SigSet(bits)
    }
}

/// All the signals.
const ALL: u32 = 0x7FFF_FFFF;

impl SigSet {
    /// The set of one signal.
    pub fn only(s: u8) -> SigSet
        requires { IsTrue (is_signal s) }
        ensures { bits_of result ≡ only s }
    {
        SigSet(1 << (s - 1))
    }

    /// Whether the signal is in the set.
    pub fn has(self, s: u8) -> bool
        requires { IsTrue (is_signal s) }
        ensures { result ≡ contains (bits_of self) s }
    {
        self.intersects(SigSet::only(s))
    }

    /// The signals of this set that aren't in the other one.
    pub fn outside(self, other: SigSet) -> SigSet
        ensures value { bits_of result ≡ outside (bits_of self) (bits_of other) }
        ensures within { bits_of result < 2 ^ 31 }
    {
        SigSet(self.0 & (ALL & !other.0))
    }
}
