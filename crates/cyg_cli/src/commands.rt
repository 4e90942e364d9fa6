//! The words that the program accepts.

ghost use Rattle.std.specs.Prelude.{◌≡◌, ◌≢◌, ◌↔◌, ◌∷◌, [], ℕ, List, map, IsTrue, MatchOption};
ghost use Rattle.std.specs.String.{string_bytes};
ghost use Rattle.w32_base.specs.declared.entry.View.{View};
ghost use Rattle.cyg_cli.specs.Commands.{Asks, IsNoCommand, IsNumberOfForks, view_word};

use itoa::Buffer;
use w32_base::View;
use world_gen::MOST_FORKS;

/// What the program is asked to do.
#[derive(Clone, Copy, Debug, PartialEq, Eq)]
pub enum Command {
    /// `run all`, `run events` and `run calls`: a script is read and run, and its log is written in this view.
    Run(View),
    /// `check`: a script and a log of its run are read, and whether the log is one is written.
    Check,
    /// `make N`: the script of so many forks, 1 to 500, is written.
    Make(u16),
}

/// The command that the words ask for, or none where there is no such command.
pub fn command_of(words: &Vec<String>) -> Option<Command>
    ensures { MatchOption result (IsNoCommand (map string_bytes words.now.items))
        (Asks (map string_bytes words.now.items)) }
{
    if is_only_word(words, "check") {
        return Some(Command::Check);
    }
    if let Some(view) = word_after(words, "run") {
        return Some(Command::Run(view_of(view)?));
    }
    let forks = number_of_forks(word_after(words, "make")?)?;
    Some(Command::Make(forks))
}

// The view of a word.
fn view_of(word: &str) -> Option<View>
    ensures { MatchOption result ((v : View) → word.now ≢ view_word v) (λ v. word.now ≡ view_word v) }
{
    if word == "all" {
        return Some(View::All);
    }
    if word == "events" {
        return Some(View::Events);
    }
    if word == "calls" {
        return Some(View::Calls);
    }
    None
}

// Whether this is the only word.
fn is_only_word(words: &Vec<String>, word: &str) -> bool
    ensures { IsTrue result ↔ (map string_bytes words.now.items ≡ word.now ∷ []) }
{
    match words.as_slice() {
        [only] => is_word(only, word),
        _ => false,
    }
}

// The word after this first one, where the two are all words.
fn word_after<'a>(words: &'a Vec<String>, first: &str) -> Option<&'a str>
    ensures { MatchOption result ((second : List ℕ) → map string_bytes words.now.items ≢ first.now ∷ second ∷ [])
        (λ second. map string_bytes words.now.items ≡ first.now ∷ second.now ∷ []) }
{
    match words.as_slice() {
        [word, second] => {
            if is_word(word, first) {
                Some(second.as_str())
            } else {
                None
            }
        }
        _ => None,
    }
}

fn is_word(word: &String, text: &str) -> bool
    ensures { IsTrue result ↔ (string_bytes word.now ≡ text.now) }
{
    word.as_str() == text
}

// The number that a word spells by digits without a leading zero, from 1 to 500.
fn number_of_forks(word: &str) -> Option<u16>
    ensures { MatchOption result ((n : ℕ) → IsNumberOfForks word.now n → ⊥) (IsNumberOfForks word.now) }
{
    let number = word.parse::<u16>().unwrap_or(0);
    if is_number_of_forks(word, number) {
        Some(number)
    } else {
        None
    }
}

// Whether the word spells this number, which is from 1 to 500.
fn is_number_of_forks(word: &str, number: u16) -> bool
    ensures { IsTrue result ↔ IsNumberOfForks word.now number }
{
    1 <= number && number <= MOST_FORKS && Buffer::new().format(number) == word
}
