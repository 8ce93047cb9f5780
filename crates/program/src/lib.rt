// The program: it reads standard input, has `listing` say what is printed, and writes that to standard output. Nothing else is decided
// here. A contract can't speak of what a call of the system reads or writes, so it speaks of readers and writers whose bytes are known.
#![tactic(auto)]

ghost use Rattle.std.specs.Prelude.{◌<◌, ◌⊎◌, ◌≡◌, pos, length, IfSome, IfOk};
ghost use Rattle.std.specs.Io.KnownBytes.{Appends};
ghost use Rattle.listing.specs.Printed.{longest_input, printed};

use std::io;
use std::io::{Read, Write};

// The longest input, and one byte more: where that is read too, there are too many.
const ROOM: usize = envelope::HEAD + envelope::LONGEST + 1;

// Writes what is printed for this input; an error where not all could be.
#[tactic(auto, using(listing::proofs::Laws::Printed::answer_within, crate::proofs::Printing::counted))]
fn answer<W: Write>(input: &[u8], writer: &mut W) -> io::Result<()>
    ensures { IfOk result (λ u. Appends (W.contents writer.old) (W.contents writer.new) (printed input.now)) }
{
    let mut out = [0u8; listing::LONGEST];
    let n = listing::print(input, &mut out);
    writer.write_all(&out[..n])
}

// The exit status: 0, or 1 where standard input couldn't be read or standard output couldn't be written. At 0, what was written is what is
// printed for all that was there to be read, also where some of it was left unread.
#[tactic(auto, using(crate::proofs::Printing::prints), unfolding(pdi_spec::specs::Envelope::envelope_head))]
pub fn pdi_run<R: Read, W: Write, E: Eprint>(reader: &mut R, writer: &mut W, messages: &E) -> i32
    ensures status { (result ≡ pos 0) ⊎ (result ≡ pos 1) }
    ensures prints { result ≡ pos 0
        → IfSome (R.remaining reader.old) (λ input. Appends (W.contents writer.old) (W.contents writer.new) (printed input)) }
{
    let mut buffer = inputs::buffer::<ROOM>();
    let Ok(n) = inputs::read_full(reader, &mut buffer) else {
        let _ = messages.eprintln("pdi: standard input can't be read");
        return 1;
    };
    if answer(&buffer[..n], writer).is_ok() {
        return 0;
    }
    let _ = messages.eprintln("pdi: standard output can't be written");
    1
}
