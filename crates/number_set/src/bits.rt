//! The places of a word, from 0 to 63, at which it has a 1.
ghost use Rattle.std.specs.Prelude.{◌≡◌, ◌≢◌, ◌≤◌, ◌<◌, ℕ, true, false};
ghost use Rattle.number_set.specs.Places.{has_place};

/// The least place.
pub fn lowest(word: u64) -> usize
    requires { 0 < word }
    ensures range { result < 64 }
    ensures there { has_place word result ≡ true }
    ensures least { (i : ℕ) → i < result → has_place word i ≡ false }
{
    word.trailing_zeros() as usize
}

/// The greatest place.
pub fn highest(word: u64) -> usize
    requires { 0 < word }
    ensures range { result < 64 }
    ensures there { has_place word result ≡ true }
    ensures greatest { (i : ℕ) → result < i → has_place word i ≡ false }
{
    63 - word.leading_zeros() as usize
}

/// The places above this one alone.
pub fn above(word: u64, place: usize) -> u64
    requires { place < 64 }
    ensures kept { (i : ℕ) → place < i → i < 64 → has_place result i ≡ has_place word i }
    ensures gone { (i : ℕ) → i ≤ place → has_place result i ≡ false }
{
    word & !(u64::MAX >> (63 - place))
}

/// The places up to this one alone.
pub fn up_to(word: u64, place: usize) -> u64
    requires { place < 64 }
    ensures kept { (i : ℕ) → i ≤ place → has_place result i ≡ has_place word i }
    ensures gone { (i : ℕ) → place < i → has_place result i ≡ false }
{
    word & (u64::MAX >> (63 - place))
}

/// With this place, or without it.
pub fn with_place(word: u64, place: usize, there: bool) -> u64
    requires { place < 64 }
    ensures here { has_place result place ≡ there }
    ensures others { (i : ℕ) → i < 64 → i ≢ place → has_place result i ≡ has_place word i }
    ensures less { there ≡ false → result ≤ word }
{
    if there {
        word | (1 << place)
    } else {
        word & !(1 << place)
    }
}
