// The calls for C: read, bill, the length of a body and owner, on numbers and byte slices. The row buffer lies in bytes, 8 to a number,
// little-endian. A static library is no library for other crates, so pdi_host_c hands the calls to C.
#![tactic(auto)]

ghost use Rattle.std.specs.Prelude.{◌*◌, ◌≤◌, ◌≡◌, length};
ghost use mathlib.Core.List.{[], ◌∷◌, flat_map};
ghost use Rattle.std.proofs.lemmas.List.Edits.{sets};
ghost use Rattle.pdi_spec.specs.Answers.{bill_answer, body_answer, owner_answer, read_answer};
ghost use Rattle.pdi_spec.specs.Host.{host_answer, host_rows, le_bytes};
ghost use Rattle.pdi_spec.specs.Limits.{number_bytes};

use rows::{BUFFER, HEAD, ROW};

// Rule 2: the bytes of a row buffer that serves, 8 to a number.
const BYTES: usize = 8 * BUFFER;

// Stores the numbers from the first byte on.
#[tactic(auto, using(crate::proofs::Buffers::none_stored, crate::proofs::Buffers::turn))]
fn put_numbers(rows: &mut [u8], numbers: &[u64])
    requires { number_bytes * length numbers.now ≤ length rows.old }
    ensures { rows.new ≡ sets rows.old 0 (flat_map (le_bytes number_bytes) numbers.now) }
{
    for i in 0..numbers.len() {
        words::put_u64(rows, 8 * i, numbers[i]);
    }
}

// Rule 2: what read answers, lent a buffer that is too short as well. Rule 1 still comes before it.
fn too_short(image: &[u8], place: usize) -> u64
    ensures { result ≡ read_answer image.now place (0 ∷ []) }
{
    let mut numbers = [0u64; 1];
    reader::read(image, place, &mut numbers)
}

// Read's answer; an acceptance stores the head and the rows, and changes no other byte of the row buffer.
#[tactic(auto, using(crate::proofs::Rows::plain_laws))]
pub fn pdi_read(image: &[u8], place: u64, rows: &mut [u8]) -> u64
    ensures answers { result ≡ host_answer image.now place rows.old }
    ensures writes { rows.new ≡ host_rows image.now place rows.old }
{
    if rows.len() < BYTES {
        return too_short(image, place as usize);
    }
    let mut numbers = [0u64; BUFFER];
    let answer = reader::read(image, place as usize, &mut numbers);
    if answer == 0 {
        let partitions = numbers[2] as usize;
        let written = HEAD + ROW * partitions;
        put_numbers(rows, &numbers[..written]);
    }
    answer
}

// Bill's answer.
pub fn pdi_bill(image: &[u8], place: u64) -> u64
    ensures { result ≡ bill_answer image.now place }
{
    reader::bill(image, place as usize)
}

// How long body's answer is.
pub fn pdi_body_length(image: &[u8], place: u64, p: u64) -> u64
    ensures { result ≡ length (body_answer image.now place p) }
{
    let body = reader::body(image, place as usize, p as usize);
    body.len() as u64
}

// Owner's answer.
pub fn pdi_owner(image: &[u8], place: u64, p: u64) -> u64
    ensures { result ≡ owner_answer image.now place p }
{
    reader::owner(image, place as usize, p as usize)
}
