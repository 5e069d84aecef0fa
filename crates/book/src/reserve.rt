// How many cells a making call asks for. A call is accepted only where that many fit beside the cells in use.
ghost use Rattle.std.specs.Prelude.{◌≡◌, ◌+◌, ◌*◌, ◌^◌, ◌<◌, ◌≤◌};
ghost use Rattle.book.specs.Numbers.{digits, edit_reserve, window_reserve, pair_reserve, sift_reserve, build_reserve, capped};

// The binary digits of a number: 0 has none, 7 has 3 and 8 has 4.
pub fn binary_digits(n: usize) -> u32
    ensures value { result ≡ digits n }
    ensures high_bound { n < 2 ^ result }
    ensures low_bound { 0 < n → 2 ^ result ≤ 2 * n }
    ensures bound { result ≤ 64 }
{
    usize::BITS - n.leading_zeros()
}

// For put and remove, from a map of so many entries.
pub fn edit_reserve(entries: usize) -> u32
    ensures { result ≡ edit_reserve entries }
{
    per_digit::<12>(entries)
}

// For window.
pub fn window_reserve(entries: usize) -> u32
    ensures { result ≡ window_reserve entries }
{
    per_digit::<64>(entries)
}

// For merge, common and without.
pub fn pair_reserve(first: usize, second: usize) -> u32
    ensures { result ≡ capped (pair_reserve first second) }
{
    cap(first.saturating_add(second).saturating_add(8))
}

// For sift.
pub fn sift_reserve(entries: usize) -> u32
    ensures { result ≡ capped (sift_reserve entries) }
{
    cap(entries.saturating_add(8))
}

// For build, from a slice of so many entries.
pub fn build_reserve(entries: usize) -> u32
    ensures { result ≡ capped (build_reserve entries) }
{
    // `usize` has no `From<u32>`.
    cap(entries.saturating_add(edit_reserve(entries) as usize))
}

fn cap(n: usize) -> u32
    ensures { result ≡ capped n }
{
    u32::try_from(n).unwrap_or(u32::MAX)
}

// So many cells for each binary digit of a number, and once more.
fn per_digit<const CELLS: u32>(entries: usize) -> u32
    requires { CELLS ≤ 64 }
    ensures { result ≡ CELLS * (digits entries + 1) }
{
    CELLS * (binary_digits(entries) + 1)
}
