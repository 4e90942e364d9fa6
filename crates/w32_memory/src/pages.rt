//! The pages of a process, where modules are placed.

ghost use Rattle.std.specs.Prelude.{◌≡◌, ◌≤◌, ◌↔◌, ℕ, IsTrue, All, false};
ghost use Rattle.win32_spec.specs.Regions.{IsFreeRange, IsPlaceFor};

/// How many pages a process has.
pub const PAGES: usize = 1024;

/// The first page of a module of this many pages that is wanted at page `wanted`: there where these pages are free,
/// else the lowest free range. A page is free where `taken` says false.
pub fn place(wanted: u16, size: u16, taken: &[bool; 1024]) -> u16
    requires { (base : ℕ) × IsFreeRange taken.now base size }
    ensures { IsPlaceFor taken.now wanted size result }
{
    if is_free(taken, wanted, size) {
        wanted
    } else {
        lowest_free(size, taken)
    }
}

/// The lowest page from which `size` pages are free.
fn lowest_free(size: u16, taken: &[bool; 1024]) -> u16
    requires { (base : ℕ) × IsFreeRange taken.now base size }
    ensures free { IsFreeRange taken.now result size }
    ensures lowest { (lower : ℕ) → IsFreeRange taken.now lower size → result ≤ lower }
{
    let mut base = 0;
    while !is_free(taken, base, size) {
        base += 1;
    }
    base
}

/// Whether the pages from `base` on, `size` of them, are among the 1024 and free.
fn is_free(taken: &[bool; 1024], base: u16, size: u16) -> bool
    ensures { IsTrue result ↔ IsFreeRange taken.now base size }
{
    let base = usize::from(base);
    let end = base + usize::from(size);
    end <= PAGES && are_free(&taken[base..end])
}

/// Whether none of these pages is taken.
fn are_free(pages: &[bool]) -> bool
    ensures { IsTrue result ↔ All (λ page. page ≡ false) pages.now }
{
    pages.iter().all(|page| !*page)
}

#[cfg(test)]
mod tests {
    use super::*;

    #[test]
    fn places_a_module_where_it_is_wanted_or_lowest(rt: HostRuntime) {
        let mut taken = [false; 1024];
        assert_eq!(rt; place(10, 4, &taken), 10);
        taken[11] = true;
        assert_eq!(rt; place(10, 4, &taken), 0);
    }
}
