// The bytes and the 32-bit little-endian words of a byte slice, checksums of words, the bits of a word, and a number stored as bytes. What
// is read lies inside: a rule has said so before, so no reading tests the end. Only a single byte may be asked for anywhere: it is 0 past
// the end.
#![tactic(auto)]

ghost use Rattle.std.specs.Prelude.{◌≡◌, ◌+◌, ◌-◌, ◌*◌, ◌/◌, ◌%◌, ◌^◌, ◌<◌, ◌≤◌, length};
ghost use Rattle.std.proofs.lemmas.List.Edits.{sets};
ghost use Rattle.pdi_spec.specs.Words.{byte_at, word_at, checksum, boot_checksum, spells};
ghost use Rattle.pdi_spec.specs.Host.{le_bytes};

// The byte at an offset, 0 past the end.
#[tactic(auto, unfolding(pdi_spec::specs::Words::byte_at))]
pub fn byte_at(s: &[u8], at: usize) -> u8
    ensures { result ≡ byte_at s.now at }
{
    s.get(at).copied().unwrap_or(0)
}

// The word at an offset. With no test between them the four reads become one.
#[tactic(auto, unfolding(pdi_spec::specs::Words::word_at, pdi_spec::specs::Words::byte_at))]
pub fn word_at(s: &[u8], at: usize) -> u32
    requires { at + 3 < length s.now }
    ensures { result ≡ word_at s.now at }
{
    u32::from_le_bytes([s[at], s[at + 1], s[at + 2], s[at + 3]])
}

// COUNT bits of a word, from bit LOW on. In 64 bits, where a shift by 32 is defined as well.
pub fn bits<const LOW: u32, const COUNT: u32>(word: u32) -> u32
    requires { LOW + COUNT ≤ 32 }
    ensures { result ≡ word / 2 ^ LOW % 2 ^ COUNT }
{
    ((word as u64 >> LOW) % (1 << COUNT)) as u32
}

// The checksum of the n words from an offset on: the loop has no test and becomes vector instructions.
#[tactic(auto, using(crate::proofs::Sums::checksum_none, crate::proofs::Sums::checksum_more))]
pub fn checksum(s: &[u8], at: usize, n: usize) -> u32
    requires { 4 * n ≤ length s.now - at }
    ensures { result ≡ checksum s.now at n }
{
    let mut sum: u32 = 0;
    for i in 0..n {
        sum = sum.wrapping_add(word_at(s, at + 4 * i));
    }
    sum
}

// The boot header's: the negative of the sum.
#[tactic(auto, unfolding(pdi_spec::specs::Words::checksum, pdi_spec::specs::Words::boot_checksum))]
pub fn boot_checksum(s: &[u8], at: usize, n: usize) -> u32
    requires { 4 * n ≤ length s.now - at }
    ensures { result ≡ boot_checksum s.now at n }
{
    0u32.wrapping_sub(checksum(s, at, n))
}

// The four bytes from an offset on are those of the text. As words they are compared at once.
#[tactic(auto, using(crate::proofs::Text::spells_word))]
pub fn spells(s: &[u8], at: usize, text: &[u8; 4]) -> bool
    requires { at + 3 < length s.now }
    ensures { result ≡ spells s.now at text.now }
{
    word_at(s, at) == u32::from_le_bytes(*text)
}

// Stores a number as eight bytes, the least first.
#[tactic(auto, using(crate::proofs::Stores::eight_stored))]
pub fn put_u64(s: &mut [u8], at: usize, value: u64)
    requires { at + 8 ≤ length s.old }
    ensures { s.new ≡ sets s.old at (le_bytes 8 value) }
{
    s[at..at + 8].copy_from_slice(&value.to_le_bytes());
}
