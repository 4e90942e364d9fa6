//! The lesser of two faults.

ghost use Rattle.std.specs.Prelude.{◌≡◌, Some, Ok, IfOk};
ghost use Rattle.script_spec.specs.Faults.{kind_number, least};
ghost use Rattle.cyg_script.specs.Results.{fault_in};

use script_spec::Kind;

/// The number of a kind in the order.
fn number(kind: Kind) -> u8
    ensures { result ≡ kind_number kind }
{
    match kind {
        Kind::Large => 1,
        Kind::NoHeader => 2,
        Kind::Unfinished => 3,
        Kind::NotAscii => 4,
        Kind::TooLong => 5,
        Kind::Missing => 6,
        Kind::Unknown => 7,
        Kind::Words => 8,
        Kind::BadNumber => 9,
        Kind::Range => 10,
        Kind::BadName => 11,
        Kind::Twice => 12,
        Kind::TooMany => 13,
        Kind::Target => 14,
    }
}

/// The lesser of two kinds.
pub fn least(first: Kind, second: Kind) -> Kind
    ensures { Some result ≡ least (Some first) (Some second) }
{
    if number(first) <= number(second) {
        first
    } else {
        second
    }
}

/// Both values, or the lesser of the faults.
pub fn both<A: Copy + Drop, B: Copy + Drop>(
    first: Result<A, Kind>,
    second: Result<B, Kind>,
) -> Result<(A, B), Kind>
    ensures fault { fault_in result ≡ least (fault_in first) (fault_in second) }
    ensures first { IfOk result (λ x. first ≡ Ok x.0) }
    ensures second { IfOk result (λ x. second ≡ Ok x.1) }
{
    match (first, second) {
        (Ok(a), Ok(b)) => Ok((a, b)),
        (Ok(_), Err(kind)) => Err(kind),
        (Err(kind), Ok(_)) => Err(kind),
        (Err(kind), Err(other)) => Err(least(kind, other)),
    }
}
