// The key words of all rounds: bit j of each word belongs to lane j, which has its own key. Bit j of key word i is bit i of that key.
#![tactic(auto)]

ghost use Rattle.std.specs.Prelude.{◌≡◌, ℕ, ◌*◌, ◌≤◌, get_or, length};
ghost use Rattle.katan.specs.Counter.{rounds};
ghost use Rattle.katan.specs.Key.{key_length, key_bit_number};
ghost use Rattle.katan.specs.inner.Within.{Entries};
ghost use Rattle.lanes_keys.specs.RoundWords.{k_word, round_words};
ghost use Rattle.lanes_keys.specs.inner.Keeps.{Keeps};

use katan::{KEY_BITS, ROUND_KEYS};

// From this word on, the doubled distances of the rule of k(i) reach no further back than the first word.
const TWO_KEYS: usize = 2 * KEY_BITS;

// Words up to `to`, each by the rule of k(i) with its distances s times as long. Where a stream keeps the rule, it keeps the rule with
// doubled distances too: those are even, so that two words are made at once. Each word is made of earlier ones of the same array, which no
// iterator lends beside it.
fn extend(words: &mut [u64; ROUND_KEYS], s: usize, to: usize)
    requires { (1 ≤ s) × (s ≤ 2) × (key_length * s ≤ to) × (to ≤ 2 * rounds) × (length words.old ≡ 2 * rounds) }
    ensures words_len { length words.new ≡ 2 * rounds }
    ensures by_index { (f : ℕ → ℕ) → Entries f (key_length * s) words.old → Keeps s (key_length * s) to f → Entries f to words.new }
{
    for i in KEY_BITS * s..to {
        words[i] = words[i - KEY_BITS * s]
            ^ words[i - 61 * s]
            ^ words[i - 50 * s]
            ^ words[i - 13 * s];
    }
}

// KATAN: the rule of k(i), at words.
fn katan_words(key: [u64; KEY_BITS]) -> [u64; ROUND_KEYS]
    ensures { Entries (k_word key) (2 * rounds) result }
{
    let mut words = [0u64; ROUND_KEYS];
    words[..KEY_BITS].copy_from_slice(&key);
    extend(&mut words, 1, TWO_KEYS);
    extend(&mut words, 2, ROUND_KEYS);
    words
}

// KTANTAN: the words that the table of key bit numbers picks.
fn ktantan_words(key: [u64; KEY_BITS]) -> [u64; ROUND_KEYS]
    ensures { Entries (λ i. get_or key (key_bit_number i) 0) (2 * rounds) result }
{
    let numbers = katan_variants::key_bit_numbers();
    let mut words = [0u64; ROUND_KEYS];
    // By index: of what iter_mut().zip lends nothing is known after the loop.
    for (i, number) in numbers.iter().enumerate() {
        words[i] = key[usize::from(*number)];
    }
    words
}

// The words of all rounds, two a round: ka's and then kb's. The number 0 is taken as a KATAN, one above 6 as a KTANTAN.
pub fn round_words(variant: u8, key: [u64; KEY_BITS]) -> [u64; ROUND_KEYS]
    ensures { result ≡ round_words variant key }
{
    if katan_variants::is_katan(variant) {
        katan_words(key)
    } else {
        ktantan_words(key)
    }
}
