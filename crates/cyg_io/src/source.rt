//! Where bytes come from, and the reading of all of them.

ghost use Rattle.std.specs.Prelude.{◌≡◌, ◌+◌, ◌<◌, ◌≤◌, ◌↔◌, ℕ, List, [], Option, length, take, vec_len};
ghost use Rattle.std.specs.Prelude.{IfOk, OnOk, OnErr, IfSome, IsErrOf};
ghost use Rattle.std.specs.Io.KnownBytes.{Consumes, Keeps};
ghost use Rattle.cyg_io.specs.Counts.{NeverFalls, RoseBy};
ghost use Rattle.cyg_io.specs.Source.{Draws, DrawsUpTo};

use std::alloc::Global;
use thiserror::Error;

/// A source had a fault and gave nothing.
#[derive(Clone, Copy, Debug, PartialEq, Eq)]
pub struct ReadFailed;

/// Gives bytes, first to last.
pub trait Source {
    // The bytes left, where the source tells them.
    ghost remaining: { Self → Option (List ℕ) };

    // How many faults it had.
    ghost faults: { Self → ℕ };

    // How many bytes it gave.
    ghost given: { Self → ℕ };

    // How often it answered its end.
    ghost ends: { Self → ℕ };

    /// Puts the next bytes at the start of `buf`, and answers how many. 0 is the end of input. What then
    /// stands in `buf` past these bytes is left open.
    fn read(&mut self, buf: &mut [u8]) -> Result<usize, ReadFailed>
        requires { 0 < length buf.old }

        ensures within { IfOk result (λ n. n ≤ length buf.new) }
        ensures bytes { IfOk result (λ n. Consumes (remaining self.old) (remaining self.new) (take n buf.new)) }
        ensures end { IfOk result (λ n. IfSome (remaining self.old) (λ left. n ≡ 0 ↔ left ≡ [])) }

        ensures gave { IfOk result (λ n. RoseBy n (given self.old) (given self.new)) }
        ensures ended { IfOk result (λ n. n ≡ 0 → RoseBy 1 (ends self.old) (ends self.new)) }
        ensures goes_on { IfOk result (λ n. 0 < n → ends self.new ≡ ends self.old) }
        ensures no_fault { OnOk result (faults self.new ≡ faults self.old) }

        // It fails only with a fault, and then gives nothing.
        ensures failed { OnErr result (RoseBy 1 (faults self.old) (faults self.new)) }
        ensures same_bytes { OnErr result (Keeps (remaining self.old) (remaining self.new)) }
        ensures same_given { OnErr result (given self.new ≡ given self.old) }
        ensures same_ends { OnErr result (ends self.new ≡ ends self.old) }

        ensures faults_stay { NeverFalls (faults self.old) (faults self.new) }
        ensures given_stay { NeverFalls (given self.old) (given self.new) }
        ensures ends_stay { NeverFalls (ends self.old) (ends self.new) };
}

/// Why not all bytes of a source were read.
#[derive(Clone, Copy, Debug, PartialEq, Eq, Error)]
pub enum ReadAllFault {
    /// The source had a fault.
    #[error("the input could not be read")]
    Read,
    /// There are more bytes than allowed.
    #[error("the input is too large")]
    Large,
    /// Memory was wanting.
    #[error("there is no memory for the input")]
    Memory,
}

// How many bytes are read at once.
const CHUNK: usize = 4096;

/// All bytes up to the end, where there are at most `most`. It reads one byte more than that at the most.
pub fn read_all<S: Source>(alloc: Global, src: &mut S, most: usize) -> Result<Vec<u8>, ReadAllFault>
    // All that was left, up to the end, which the source has answered.
    ensures bytes { IfOk result (λ v. IfSome (S.remaining src.old) (λ left. v.items ≡ left)) }
    ensures none_left { OnOk result (IfSome (S.remaining src.old) (λ _. S.remaining src.new ≡ Some [])) }
    ensures few { IfOk result (λ v. vec_len v ≤ most) }
    ensures drawn { IfOk result (λ v. Draws (vec_len v)
        (S.remaining src.old) (S.remaining src.new) (S.given src.old) (S.given src.new)) }
    ensures ended { OnOk result (RoseBy 1 (S.ends src.old) (S.ends src.new)) }

    // Large comes where one byte more was read than allowed, and each other answer where none was.
    ensures large { IsErrOf result ReadAllFault.Large → Draws (most + 1)
        (S.remaining src.old) (S.remaining src.new) (S.given src.old) (S.given src.new) }
    ensures read { IsErrOf result ReadAllFault.Read → DrawsUpTo most
        (S.remaining src.old) (S.remaining src.new) (S.given src.old) (S.given src.new) }
    ensures memory { IsErrOf result ReadAllFault.Memory → DrawsUpTo most
        (S.remaining src.old) (S.remaining src.new) (S.given src.old) (S.given src.new) }

    // Read comes with one fault, and each other answer with none. The end comes with Ok alone.
    ensures failed { IsErrOf result ReadAllFault.Read → RoseBy 1 (S.faults src.old) (S.faults src.new) }
    ensures no_fault { OnOk result (S.faults src.new ≡ S.faults src.old) }
    ensures no_fault_large { IsErrOf result ReadAllFault.Large → S.faults src.new ≡ S.faults src.old }
    ensures no_fault_memory { IsErrOf result ReadAllFault.Memory → S.faults src.new ≡ S.faults src.old }
    ensures not_ended { OnErr result (S.ends src.new ≡ S.ends src.old) }
    ensures faults_stay { NeverFalls (S.faults src.old) (S.faults src.new) }
{
    let mut buf = [0u8; CHUNK];
    let mut bytes = Vec::new(alloc);
    'reading: loop {
        let allowed = most - bytes.len();
        let piece = &mut buf[..CHUNK.min(allowed.saturating_add(1))];
        let Ok(count) = src.read(piece) else {
            return Err(ReadAllFault::Read);
        };
        if count == 0 {
            return Ok(bytes);
        }
        if count > allowed {
            return Err(ReadAllFault::Large);
        }
        if bytes.extend_from_slice(&piece[..count]).is_err() {
            return Err(ReadAllFault::Memory);
        }
    }
}
