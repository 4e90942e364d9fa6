//! Where bytes go to, and the writing of a whole piece.

ghost use Rattle.std.specs.Prelude.{◌≡◌, ◌<◌, ◌≤◌, ℕ, List, Option, None, length, take, IfOk, OnOk, OnErr};
ghost use Rattle.std.specs.Io.KnownBytes.{Appends, Keeps};
ghost use Rattle.cyg_io.specs.Counts.{NeverFalls, RoseBy};
ghost use Rattle.cyg_io.specs.Sink.{AppendsPart, with_piece, TakesOnly, IsRestOf};

/// A sink had a fault and took nothing.
#[derive(Clone, Copy, Debug, PartialEq, Eq)]
pub struct WriteFailed;

/// Takes bytes, first to last.
pub trait Sink {
    // The bytes held, where the sink tells them.
    ghost held: { Self → Option (List ℕ) };

    // The pieces of the calls that it answered with Ok, first to last, where the sink tells them.
    ghost pieces: { Self → Option (List (List ℕ)) } = { λ _. None };

    // How many faults it had.
    ghost faults: { Self → ℕ };

    /// Takes the first bytes of `piece`, and answers how many: one at least, unless the piece is empty.
    fn write(&mut self, piece: &[u8]) -> Result<usize, WriteFailed>
        ensures within { IfOk result (λ n. n ≤ length piece.now) }
        ensures some { IfOk result (λ n. 0 < length piece.now → 0 < n) }
        ensures bytes { IfOk result (λ n. Appends (held self.old) (held self.new) (take n piece.now)) }
        ensures one_piece { OnOk result (pieces self.new ≡ with_piece (pieces self.old) piece.now) }
        ensures no_fault { OnOk result (faults self.new ≡ faults self.old) }

        // It fails only with a fault, and then takes nothing.
        ensures failed { OnErr result (RoseBy 1 (faults self.old) (faults self.new)) }
        ensures same_bytes { OnErr result (Keeps (held self.old) (held self.new)) }
        ensures same_pieces { OnErr result (pieces self.new ≡ pieces self.old) }

        ensures faults_stay { NeverFalls (faults self.old) (faults self.new) };
}

/// Writes a whole piece. What the sink is handed goes up to the piece's end each time: the whole piece at first and
/// then, where the sink took a part, the rest of it. An empty piece is not handed to the sink.
pub fn write_all<K: Sink>(sink: &mut K, piece: &[u8]) -> Result<(), WriteFailed>
    ensures whole { OnOk result (Appends (K.held sink.old) (K.held sink.new) piece.now) }
    ensures no_fault { OnOk result (K.faults sink.new ≡ K.faults sink.old) }

    // Where it fails, the sink had one fault, and some first bytes of the piece went out.
    ensures failed { OnErr result (RoseBy 1 (K.faults sink.old) (K.faults sink.new)) }
    ensures part { OnErr result (AppendsPart (K.held sink.old) (K.held sink.new) piece.now) }

    // Whatever it answers, each piece that the sink took is a rest of this one.
    ensures pieces { TakesOnly (IsRestOf piece.now) (K.pieces sink.old) (K.pieces sink.new) }

    ensures no_fewer_faults { K.faults sink.old ≤ K.faults sink.new }
{
    let mut written = 0;
    while written < piece.len() {
        written += sink.write(&piece[written..])?;
    }
    Ok(())
}
