//! The numbers of a script.

ghost use Rattle.std.specs.Prelude.{◌≡◌, ◌≤◌, ◌+◌, ◌-◌, ◌*◌, ◌∷◌, IfOk, negsuc, pos};
ghost use Rattle.std.specs.Fmt.{decimal, signed_decimal};
ghost use Rattle.std.specs.List.{list_all};
ghost use Rattle.script_spec.specs.Numbers.{is_digit, is_empty, is_canonical, value_from, value_of};
ghost use Rattle.cyg_script.specs.Values.{in_64_bits, positive_fault};
ghost use Rattle.script_spec.specs.Fields.{number_fault, signed_fault};
ghost use Rattle.cyg_script.specs.Results.{fault_in};

use script_spec::Kind;

fn is_digit(byte: u8) -> bool
    ensures { result ≡ is_digit byte }
{
    byte >= 48 && byte <= 57
}

fn are_digits(word: &[u8]) -> bool
    ensures { result ≡ list_all is_digit word.now }
{
    word.iter().all(|d| is_digit(*d))
}

/// Whether the word is empty.
pub fn is_empty(word: &[u8]) -> bool
    ensures { result ≡ is_empty word.now }
{
    matches!(word, [])
}

/// Whether the word is the canonical form of a number without a sign.
fn is_canonical(word: &[u8]) -> bool
    ensures { result ≡ is_canonical word.now }
{
    match word {
        [] => false,
        [first, rest @ ..] => are_digits(word) && (is_empty(rest) || *first != b'0'),
    }
}

/// Ten times the value and a digit's, or none where it takes more than 64 bits.
fn next_value(value: u64, digit: u8) -> Option<u64>
    ensures { result ≡ in_64_bits (value * 10 + (digit - 48)) }
{
    value
        .checked_mul(10)?
        .checked_add(u64::from(digit.saturating_sub(b'0')))
}

/// The number whose first digits have this value, or none where it takes more than 64 bits.
fn value_from(value: u64, digits: &[u8]) -> Option<u64>
    ensures { result ≡ in_64_bits (value_from value digits.now) }
{
    match digits {
        [] => Some(value),
        [digit, rest @ ..] => value_from(next_value(value, *digit)?, rest),
    }
}

/// The number that the digits spell, or none where it takes more than 64 bits.
fn value(digits: &[u8]) -> Option<u64>
    ensures { result ≡ in_64_bits (value_of digits.now) }
{
    value_from(0, digits)
}

/// The number that a word spells, from `low` to `high`.
pub fn number(word: &[u8], low: u64, high: u64) -> Result<u64, Kind>
    ensures fault { fault_in result ≡ number_fault low high word.now }
    ensures text { IfOk result (λ n. word.now ≡ decimal n) }
    ensures value { IfOk result (λ n. value_of word.now ≡ n) }
    ensures range { IfOk result (λ n. (low ≤ n) × (n ≤ high)) }
{
    if is_empty(word) {
        return Err(Kind::Words);
    }
    if !is_canonical(word) {
        return Err(Kind::BadNumber);
    }
    match value(word) {
        Some(n) => {
            if low <= n && n <= high {
                Ok(n)
            } else {
                Err(Kind::Range)
            }
        }
        None => Err(Kind::Range),
    }
}

/// The number of 32 bits that a word spells, with or without a minus sign.
pub fn signed(word: &[u8]) -> Result<i32, Kind>
    ensures fault { fault_in result ≡ signed_fault word.now }
    ensures text { IfOk result (λ n. word.now ≡ signed_decimal n) }
{
    match word {
        [] => Err(Kind::Words),
        [first, digits @ ..] => {
            if *first == b'-' {
                negative(digits)
            } else {
                positive(word)
            }
        }
    }
}

/// The number below zero.
fn negated(n: u64) -> i32
    requires some { 1 ≤ n }
    requires few { n ≤ 2147483648 }
    ensures { result ≡ negsuc (n - 1) }
{
    -(n as i64) as i32
}

/// The number that stands after a minus sign, with its sign.
fn negative(digits: &[u8]) -> Result<i32, Kind>
    ensures fault { fault_in result ≡ signed_fault (45 ∷ digits.now) }
    ensures text { IfOk result (λ n. 45 ∷ digits.now ≡ signed_decimal n) }
{
    if !is_canonical(digits) {
        return Err(Kind::BadNumber);
    }
    match value(digits) {
        Some(n) => {
            if n == 0 {
                Err(Kind::BadNumber)
            } else if n <= 2_147_483_648 {
                Ok(negated(n))
            } else {
                Err(Kind::Range)
            }
        }
        None => Err(Kind::Range),
    }
}

/// The same number.
fn unsigned(n: u64) -> i32
    requires { n ≤ 2147483647 }
    ensures { result ≡ pos n }
{
    n as i32
}

/// The number that stands without a sign.
fn positive(word: &[u8]) -> Result<i32, Kind>
    ensures fault { fault_in result ≡ positive_fault word.now }
    ensures text { IfOk result (λ n. word.now ≡ signed_decimal n) }
{
    if !is_canonical(word) {
        return Err(Kind::BadNumber);
    }
    match value(word) {
        Some(n) => {
            if n <= 2_147_483_647 {
                Ok(unsigned(n))
            } else {
                Err(Kind::Range)
            }
        }
        None => Err(Kind::Range),
    }
}
