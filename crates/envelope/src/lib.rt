// The program's input: version byte 1, image length and table place, 4 bytes each and big-endian, and the image.
#![tactic(auto)]

ghost use Rattle.std.specs.Prelude.{◌≡◌, ◌+◌, ◌≤◌, min, drop, length, IfSome, IsFalse};
ghost use Rattle.std.specs.Option.{option_map};
ghost use Rattle.pdi_spec.specs.Answers.{asked};
ghost use Rattle.pdi_spec.specs.Envelope.{big_endian_at, envelope, envelope_bad, envelope_head};
ghost use Rattle.envelope.specs.Opened.{opened_as};

use words::byte_at;

// What an input holds that isn't bad.
#[derive(Clone, Copy)]
pub struct Envelope<'a> {
    // The table place.
    pub place: usize,
    // The image, a part of the input.
    pub image: &'a [u8],
}

// Bytes before the image.
pub const HEAD: usize = 9;

// The longest image.
pub const LONGEST: usize = 65_527;

// Four bytes, the most significant first.
#[tactic(auto, unfolding(pdi_spec::specs::Envelope::big_endian_at))]
fn big_endian_at(input: &[u8], at: usize) -> usize
    requires { at ≤ 5 }
    ensures { result ≡ big_endian_at input.now at }
{
    let bytes = [
        byte_at(input, at),
        byte_at(input, at + 1),
        byte_at(input, at + 2),
        byte_at(input, at + 3),
    ];
    u32::from_be_bytes(bytes) as usize
}

// Another version, a stated length over the longest, or too few or too many bytes.
#[tactic(auto, unfolding(pdi_spec::specs::Envelope::envelope_bad, pdi_spec::specs::Envelope::envelope_head))]
fn is_bad(input: &[u8]) -> bool
    ensures tests { result ≡ envelope_bad input.now }
    ensures head { IsFalse result → envelope_head ≤ length input.now }
{
    let stated = big_endian_at(input, 1);
    byte_at(input, 0) != 1 || LONGEST < stated || input.len() != HEAD + stated
}

// The table place and the image, or None for bad input. The last two promises say where the image lies in the caller's own input: in the
// same block of memory, behind the head.
#[tactic(auto, unfolding(pdi_spec::specs::Envelope::envelope, crate::specs::Opened::opened_as))]
pub fn open<'a>(input: &'a [u8]) -> Option<Envelope<'a>>
    ensures holds { option_map (λ e. asked e.image.now e.place) result ≡ opened_as (envelope input.now) }
    ensures block { IfSome result (λ e. e.image.ref_ptr.0 ≡ input.entry.ref_ptr.0) }
    ensures offset { IfSome result (λ e. e.image.ref_ptr.1 ≡ input.entry.ref_ptr.1 + envelope_head) }
{
    if is_bad(input) {
        return None;
    }
    Some(Envelope {
        place: big_endian_at(input, 5),
        image: image(input),
    })
}

// The image's part of the input: what follows the first 9 bytes. The last two promises say that it lies there in the caller's own input:
// in the same block of memory, and at which offset.
#[tactic(auto, unfolding(pdi_spec::specs::Envelope::envelope_head))]
pub fn image<'a>(input: &'a [u8]) -> &'a [u8]
    ensures bytes { result.now ≡ drop envelope_head input.now }
    ensures block { result.ref_ptr.0 ≡ input.entry.ref_ptr.0 }
    ensures offset { result.ref_ptr.1 ≡ input.entry.ref_ptr.1 + min envelope_head (length input.now) }
{
    let start = HEAD.min(input.len());
    &input[start..]
}
