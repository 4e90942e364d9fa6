//! The words after a line's first one, where there are as many as wanted.

ghost use Rattle.std.specs.Prelude.{◌≡◌, option_map, IsTrue, ◌↔◌, []};
ghost use Rattle.cyg_script.specs.Words.{words_after, one_of, two_of, three_of, four_of, five_of};

use crate::piece::cut;

/// No word.
pub fn are_none(rest: Option<&[u8]>) -> bool
    ensures { IsTrue result ↔ (words_after (option_map (λ r. r.now) rest.entry) ≡ []) }
{
    match rest {
        None => true,
        Some(_) => false,
    }
}

/// One word.
pub fn one(rest: Option<&[u8]>) -> Option<&[u8]>
    ensures { option_map (λ x. x.now) result ≡ one_of (words_after (option_map (λ r. r.now) rest.entry)) }
{
    match cut(rest?, b' ') {
        (first, None) => Some(first),
        (_, Some(_)) => None,
    }
}

/// Two words.
pub fn two(rest: Option<&[u8]>) -> Option<(&[u8], &[u8])>
    ensures { option_map (λ x. (x.0.now, x.1.now)) result ≡ two_of (words_after (option_map (λ r. r.now) rest.entry)) }
{
    let (first, rest) = cut(rest?, b' ');
    Some((first, one(rest)?))
}

/// Three words.
pub fn three(rest: Option<&[u8]>) -> Option<(&[u8], &[u8], &[u8])>
    ensures { option_map (λ x. (x.0.now, x.1.now, x.2.now)) result
        ≡ three_of (words_after (option_map (λ r. r.now) rest.entry)) }
{
    let (first, rest) = cut(rest?, b' ');
    let (second, third) = two(rest)?;
    Some((first, second, third))
}

/// Four words.
pub fn four(rest: Option<&[u8]>) -> Option<(&[u8], &[u8], &[u8], &[u8])>
    ensures { option_map (λ x. (x.0.now, x.1.now, x.2.now, x.3.now)) result
        ≡ four_of (words_after (option_map (λ r. r.now) rest.entry)) }
{
    let (first, rest) = cut(rest?, b' ');
    let (second, third, fourth) = three(rest)?;
    Some((first, second, third, fourth))
}

/// Five words.
pub fn five(rest: Option<&[u8]>) -> Option<(&[u8], &[u8], &[u8], &[u8], &[u8])>
    ensures { option_map (λ x. (x.0.now, x.1.now, x.2.now, x.3.now, x.4.now)) result
        ≡ five_of (words_after (option_map (λ r. r.now) rest.entry)) }
{
    let (first, rest) = cut(rest?, b' ');
    let (second, third, fourth, fifth) = four(rest)?;
    Some((first, second, third, fourth, fifth))
}
