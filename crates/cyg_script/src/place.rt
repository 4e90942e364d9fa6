//! Where a line may stand.

ghost use Rattle.std.specs.Prelude.{◌≡◌};
ghost use Rattle.script_spec.specs.FirstWords.{sort_of};
ghost use Rattle.script_spec.specs.Places.{sort_number, is_sort, followers, earliest, is_one_of, place_fault};

use script_spec::{FirstWord, Kind, Sort};

/// The place of a sort in the order of lines.
fn number(sort: Sort) -> u8
    ensures { result ≡ sort_number sort }
{
    match sort {
        Sort::Header => 1,
        Sort::Slots => 2,
        Sort::Rows => 3,
        Sort::Budget => 4,
        Sort::Module => 5,
        Sort::Occupy => 6,
        Sort::Program => 7,
        Sort::Instruction => 8,
        Sort::Schedule => 9,
        Sort::Directive => 10,
    }
}

fn is(sort: Sort, other: Sort) -> bool
    ensures { result ≡ is_sort sort other }
{
    number(sort) == number(other)
}

/// The sort of line that begins with a word.
pub fn sort_of(word: FirstWord) -> Sort
    ensures { result ≡ sort_of word }
{
    match word {
        FirstWord::CygScript => Sort::Header,
        FirstWord::Slots => Sort::Slots,
        FirstWord::Rows => Sort::Rows,
        FirstWord::Budget => Sort::Budget,
        FirstWord::Module => Sort::Module,
        FirstWord::Occupy => Sort::Occupy,
        FirstWord::Program => Sort::Program,
        FirstWord::Instr(_) => Sort::Instruction,
        FirstWord::Schedule => Sort::Schedule,
        FirstWord::Directive(_) => Sort::Directive,
    }
}

/// Whether a line may stand straight after another.
fn may_follow(last: Sort, this: Sort) -> bool
    ensures { result ≡ is_one_of (followers last) this }
{
    match last {
        Sort::Header => is(Sort::Slots, this),
        Sort::Slots => is(Sort::Rows, this),
        Sort::Rows => is(Sort::Budget, this),
        Sort::Budget | Sort::Module => is(Sort::Module, this)
            || is(Sort::Occupy, this)
            || is(Sort::Program, this),
        Sort::Occupy => is(Sort::Occupy, this) || is(Sort::Program, this),
        Sort::Program => is(Sort::Instruction, this),
        Sort::Instruction => is(Sort::Instruction, this)
            || is(Sort::Program, this)
            || is(Sort::Schedule, this),
        Sort::Schedule | Sort::Directive => is(Sort::Directive, this),
    }
}

/// The earliest sort that doesn't come too late after a line.
fn earliest(last: Sort) -> Sort
    ensures { result ≡ earliest last }
{
    match last {
        Sort::Header => Sort::Slots,
        Sort::Slots => Sort::Rows,
        Sort::Rows => Sort::Budget,
        Sort::Budget | Sort::Module => Sort::Module,
        Sort::Occupy => Sort::Occupy,
        Sort::Program | Sort::Instruction => Sort::Program,
        Sort::Schedule | Sort::Directive => Sort::Directive,
    }
}

/// The fault of a line that may not stand straight after another.
pub fn place_fault(last: Sort, this: Sort) -> Option<Kind>
    ensures { result ≡ place_fault last this }
{
    if may_follow(last, this) {
        None
    } else if number(earliest(last)) <= number(this) {
        Some(Kind::Missing)
    } else {
        Some(Kind::Unknown)
    }
}
