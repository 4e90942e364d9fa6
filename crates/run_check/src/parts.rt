//! The two parts of a text: a script, and the log of a run of it.

ghost use Rattle.std.specs.Prelude.{◌≤◌, ◌<◌, ◌↔◌, ℕ, length, IsTrue, MatchOption};
ghost use Rattle.run_check.specs.Parts.{IsBar, AreParts};

// Whether a line `==` that LF ends stands here.
fn is_bar(text: &[u8], at: usize) -> bool
    requires { at < length text.now }
    ensures { IsTrue result ↔ IsBar text.now at }
{
    (at == 0 || text[at - 1] == b'\n')
        && text.len() - at >= 3
        && text[at] == b'='
        && text[at + 1] == b'='
        && text[at + 2] == b'\n'
}

// The place of the first such line.
fn bar(text: &[u8]) -> Option<usize>
    ensures { MatchOption result ((at : ℕ) → IsBar text.now at → ⊥)
        (λ at. IsBar text.now at × ((k : ℕ) → IsBar text.now k → at ≤ k)) }
{
    for at in 0..text.len() {
        if is_bar(text, at) {
            return Some(at);
        }
    }
    None
}

/// The script, which stands before the first line `==`, and the log, which stands behind it.
pub fn parts(text: &[u8]) -> (&[u8], &[u8])
    ensures parts { AreParts text.now result.0.now result.1.now }
    ensures size { length result.1.now ≤ length text.now }
{
    match bar(text) {
        Some(at) => (&text[..at], &text[at + 3..]),
        None => (text, &[]),
    }
}
