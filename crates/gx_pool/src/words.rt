//! Sets of numbers in words, a bit each.
ghost use Rattle.std.specs.Prelude.{◌≡◌, ◌≢◌, ◌<◌, ◌≤◌, ◌+◌, ◌*◌, ◌/◌, ℕ, length, IfSome, IfNone};
ghost use Rattle.std.specs.Int.{bit_at};
ghost use Rattle.gx_disk.specs.declared.layout.TheConstants.{MAX_PAGES};
ghost use Rattle.gx_pool.specs.Words.{has, IsFirstBit, IsFirst, NoneFrom, OthersStay};

/// The word with a bit set.
fn with_bit(word: u64, bit: u32) -> u64
    requires { bit < 64 }
    ensures set { bit_at result bit ≡ 1 }
    ensures others { (i : ℕ) → i ≢ bit → bit_at result i ≡ bit_at word i }
{
    word | (1 << bit)
}

/// The word with a bit cleared.
fn without_bit(word: u64, bit: u32) -> u64
    requires { bit < 64 }
    ensures clear { bit_at result bit ≡ 0 }
    ensures others { (i : ℕ) → i < 64 → i ≢ bit → bit_at result i ≡ bit_at word i }
{
    word & !(1 << bit)
}

/// The least bit from one on that is set.
fn first_bit(word: u64, from: u32) -> Option<u32>
    requires { from < 64 }
    ensures found { IfSome result (IsFirstBit word from) }
    ensures none { IfNone result ((i : ℕ) → from ≤ i → i < 64 → bit_at word i ≡ 0) }
{
    let rest = word & (u64::MAX << from);
    if rest == 0 {
        None
    } else {
        Some(rest.trailing_zeros())
    }
}

/// Puts a number into the set.
pub(crate) fn put_in(words: &mut Vec<u64>, n: usize)
    requires { n < 64 * length words.old.items }
    ensures size { length words.new.items ≡ length words.old.items }
    ensures put { has words.new.items n ≡ 1 }
    ensures others { OthersStay n words.old.items words.new.items }
{
    words[n / 64] = with_bit(words[n / 64], (n % 64) as u32);
}

/// Takes a number out of the set.
pub(crate) fn take_out(words: &mut Vec<u64>, n: usize)
    requires { n < 64 * length words.old.items }
    ensures size { length words.new.items ≡ length words.old.items }
    ensures taken { has words.new.items n ≡ 0 }
    ensures others { OthersStay n words.old.items words.new.items }
{
    words[n / 64] = without_bit(words[n / 64], (n % 64) as u32);
}

/// The least number of the set from one on in its word.
pub(crate) fn first_in_word(words: &[u64], from: usize) -> Option<usize>
    requires { from < 64 * length words.now }
    ensures found { IfSome result (λ n. IsFirst words.now from n × (n < 64 * length words.now)) }
    ensures none { IfNone result ((n : ℕ) → from ≤ n → n / 64 ≡ from / 64 → has words.now n ≡ 0) }
{
    let word = from / 64;
    match first_bit(words[word], (from % 64) as u32) {
        Some(bit) => Some(64 * word + bit as usize),
        None => None,
    }
}

/// The least number of the set from one on.
pub(crate) fn first_in(words: &[u64], from: usize) -> Option<usize>
    requires from { from < 64 * length words.now }
    requires few { length words.now ≤ MAX_PAGES }
    ensures found { IfSome result (λ n. IsFirst words.now from n × (n < 64 * length words.now)) }
    ensures none { IfNone result (NoneFrom words.now from) }
{
    if let Some(n) = first_in_word(words, from) {
        return Some(n);
    }
    for word in from / 64 + 1..words.len() {
        if let Some(n) = first_in_word(words, 64 * word) {
            return Some(n);
        }
    }
    None
}
