// The promises, frozen: each question, each call for C and each function of the program on lent bytes again, under its whole promise. That
// is restated here from the definitions, and proved from the callee's contract alone. A contract that promises less, or asks something of
// its caller, no longer proves this crate.
// specs/Demands.antt gathers what is claimed of the definitions. Assumes nothing, and nothing depends on it.
#![tactic(auto)]

ghost use Rattle.std.specs.Prelude.{◌+◌, min, ◌≡◌, length, drop, IfSome};
ghost use Rattle.std.specs.Option.{option_map};
ghost use Rattle.pdi_spec.specs.Answers.{asked, read_answer, read_rows, bill_answer, body_part, body_answer, owner_answer};
ghost use Rattle.pdi_spec.specs.Envelope.{envelope, envelope_head};
ghost use Rattle.pdi_spec.specs.Host.{host_answer, host_rows};
ghost use Rattle.envelope.specs.Opened.{opened_as};
ghost use Rattle.listing.specs.Printed.{print_answer, print_buffer};

use envelope::Envelope;

// Read: the answer, and all of the row buffer, for any image, place and buffer.
pub fn read(image: &[u8], place: usize, rows: &mut [u64]) -> u64
    ensures answers { result ≡ read_answer image.now place rows.old }
    ensures writes { rows.new ≡ read_rows image.now place rows.old }
{
    reader::read(image, place, rows)
}

// Bill: the answer, for any image and place.
pub fn bill(image: &[u8], place: usize) -> u64
    ensures { result ≡ bill_answer image.now place }
{
    reader::bill(image, place)
}

// Body: the bytes, and that they are that part of the caller's own image, for any image, place and p.
pub fn body<'a>(image: &'a [u8], place: usize, p: usize) -> &'a [u8]
    ensures bytes { result.now ≡ body_answer image.now place p }
    ensures block { result.ref_ptr.0 ≡ image.entry.ref_ptr.0 }
    ensures offset { result.ref_ptr.1 ≡ image.entry.ref_ptr.1 + (body_part image.now place p).start }
{
    reader::body(image, place, p)
}

// Owner: the answer, for any image, place and p.
pub fn owner(image: &[u8], place: usize, p: usize) -> u64
    ensures { result ≡ owner_answer image.now place p }
{
    reader::owner(image, place, p)
}

// The host's read: the answer, and all bytes of the row buffer.
pub fn host_read(image: &[u8], place: u64, rows: &mut [u8]) -> u64
    ensures answers { result ≡ host_answer image.now place rows.old }
    ensures writes { rows.new ≡ host_rows image.now place rows.old }
{
    pdi_host::pdi_read(image, place, rows)
}

// The host's bill.
pub fn host_bill(image: &[u8], place: u64) -> u64
    ensures { result ≡ bill_answer image.now place }
{
    pdi_host::pdi_bill(image, place)
}

// The length of a body, for the host.
pub fn host_body_length(image: &[u8], place: u64, p: u64) -> u64
    ensures { result ≡ length (body_answer image.now place p) }
{
    pdi_host::pdi_body_length(image, place, p)
}

// The host's owner.
pub fn host_owner(image: &[u8], place: u64, p: u64) -> u64
    ensures { result ≡ owner_answer image.now place p }
{
    pdi_host::pdi_owner(image, place, p)
}

// What the program prints for an input: how many bytes, and all of the buffer.
pub fn print(input: &[u8], out: &mut [u8]) -> usize
    ensures answers { result ≡ print_answer input.now out.old }
    ensures writes { out.new ≡ print_buffer input.now out.old }
{
    listing::print(input, out)
}

// The program's input: bad, or a table place and the image, a part of the caller's own bytes.
pub fn open<'a>(input: &'a [u8]) -> Option<Envelope<'a>>
    ensures holds { option_map (λ e. asked e.image.now e.place) result ≡ opened_as (envelope input.now) }
    ensures block { IfSome result (λ e. e.image.ref_ptr.0 ≡ input.entry.ref_ptr.0) }
    ensures offset { IfSome result (λ e. e.image.ref_ptr.1 ≡ input.entry.ref_ptr.1 + envelope_head) }
{
    envelope::open(input)
}

// The image in the program's input, a part of the caller's own bytes.
pub fn image<'a>(input: &'a [u8]) -> &'a [u8]
    ensures bytes { result.now ≡ drop envelope_head input.now }
    ensures block { result.ref_ptr.0 ≡ input.entry.ref_ptr.0 }
    ensures offset { result.ref_ptr.1 ≡ input.entry.ref_ptr.1 + min envelope_head (length input.now) }
{
    envelope::image(input)
}
