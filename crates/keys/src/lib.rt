// Key words: the document's table, a word's place in it, and the two classes that the rules ask for.
#![tactic(auto)]

ghost use Rattle.std.specs.Prelude.{◌≡◌, take};
ghost use Rattle.pdi_spec.specs.Keys.{zero_common_or_user, zero_or_common};
ghost use Rattle.pdi_spec.specs.Lists.{is_in};
ghost use Rattle.keys.specs.Places.{all_keys, place_in, found};

// Document 01, "Key words", in its order: the 8 common ones, then the 14 user ones.
const KEYS: [u32; 22] = [
    0xA5C3C5A3, 0xA5C3C5A5, 0xA5C3C5A7, 0x3A5C3C5A, 0x3A5C3C59, 0x3A5C3C57, 0xA35C7C53, 0xA35C7CA5,
    0x5C3CA5A3, 0x5C3CA5A5, 0x5C3CA5A7, 0xC3A5C5A3, 0xC3A5C5A5, 0xC3A5C5A7, 0xC5C3A5A3, 0xC3A5C5B3,
    0xC5C3A5C3, 0xC3A5C5D3, 0xC5C3A5E3, 0xC3A5C5F3, 0xC5C3A563, 0xC3A5C573,
];

// How many of them, from the first on, are common.
const COMMON: usize = 8;

// The word's place in the table, counted from 1.
pub fn place_of(word: u32) -> Option<usize>
    ensures { result ≡ found (place_in all_keys word) }
{
    KEYS.iter().position(|key| word == *key).map(|i| i + 1)
}

// One of the first n keys.
fn is_among_first(n: usize, word: u32) -> bool
    ensures { result ≡ is_in word (take n all_keys) }
{
    place_of(word).is_some_and(|place| place <= n)
}

// 0 or a common key. 0, by far the commonest word, is tested before the table is searched.
#[tactic(auto, using(crate::proofs::Classes::common_told))]
pub fn zero_or_common(word: u32) -> bool
    ensures { result ≡ zero_or_common word }
{
    word == 0 || is_among_first(COMMON, word)
}

// 0, common or user.
#[tactic(auto, using(crate::proofs::Classes::known_told))]
pub fn zero_common_or_user(word: u32) -> bool
    ensures { result ≡ zero_common_or_user word }
{
    word == 0 || is_among_first(KEYS.len(), word)
}
