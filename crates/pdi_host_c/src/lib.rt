// The calls of pdi_host, for C, under the same names and clauses. A slice is a pointer and a length to C; include/pdi.h declares the calls.
#![tactic(auto)]

ghost use Rattle.std.specs.Prelude.{◌≡◌, length};
ghost use Rattle.pdi_spec.specs.Answers.{bill_answer, body_answer, owner_answer};
ghost use Rattle.pdi_spec.specs.Host.{host_answer, host_rows};

// Read's answer; an acceptance stores the head and the rows, and changes no other byte of the row buffer.
#[unsafe(no_mangle)]
pub extern "C" fn pdi_read(image: &[u8], place: u64, rows: &mut [u8]) -> u64
    ensures answers { result ≡ host_answer image.now place rows.old }
    ensures writes { rows.new ≡ host_rows image.now place rows.old }
{
    pdi_host::pdi_read(image, place, rows)
}

// Bill's answer.
#[unsafe(no_mangle)]
pub extern "C" fn pdi_bill(image: &[u8], place: u64) -> u64
    ensures { result ≡ bill_answer image.now place }
{
    pdi_host::pdi_bill(image, place)
}

// How long body's answer is.
#[unsafe(no_mangle)]
pub extern "C" fn pdi_body_length(image: &[u8], place: u64, p: u64) -> u64
    ensures { result ≡ length (body_answer image.now place p) }
{
    pdi_host::pdi_body_length(image, place, p)
}

// Owner's answer.
#[unsafe(no_mangle)]
pub extern "C" fn pdi_owner(image: &[u8], place: u64, p: u64) -> u64
    ensures { result ≡ owner_answer image.now place p }
{
    pdi_host::pdi_owner(image, place, p)
}
