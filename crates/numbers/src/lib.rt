// Whole numbers and floats: widening, a bound of each number of a list, and which floats are finite.
#![tactic(auto)]

ghost use Rattle.std.specs.Prelude.{◌≡◌};
ghost use Rattle.numbers.specs.Floats.{finite, all_finite};
ghost use Rattle.numbers.specs.Ranges.{all_below};

// A u32 as an index: asks no proof that the number fits where it is called. (By `as`, which always fits: std has no `From<u32>` for usize.)
pub fn wide(x: u32) -> usize
    ensures { result ≡ x }
{
    x as usize
}

// Whether each number of the list is below the bound.
pub fn all_below(list: &[u32], bound: u32) -> bool
    ensures { result ≡ all_below list.now bound }
{
    list.iter().all(|&x| x < bound)
}

// Neither infinite nor a NaN. A function of its own, since its contract says `finite`, the documents' word, where the library's says how it is found.
pub fn is_finite(x: f64) -> bool
    ensures { result ≡ finite x }
{
    x.is_finite()
}

// Whether each number of the list is finite.
pub fn all_finite(s: &[f64]) -> bool
    ensures { result ≡ all_finite s.now }
{
    s.iter().all(|&x| is_finite(x))
}
