// What the program prints for an input, as bytes.
#![tactic(auto)]

mod lines;
mod reading;

ghost use Rattle.std.specs.Prelude.{◌≡◌};
ghost use Rattle.listing.specs.Printed.{print_answer, print_buffer};

use crate::reading::push_reading;
use arrayvec::ArrayString;
use envelope::Envelope;
use rows::BUFFER;

// The most bytes that are printed: the 4 of `0 0` and its line feed, and for each number of a row buffer 20 digits and a byte behind them.
pub const LONGEST: usize = 4 + 21 * BUFFER;

// What is printed, as it grows.
type Text = ArrayString<LONGEST>;

// Puts what the program prints for this input at the start of `out`, and answers how many bytes it is. A buffer under LONGEST bytes is
// left as found, and the answer is 0.
#[tactic(auto, using(crate::proofs::Inputs::prints, crate::proofs::Appends::alone), unfolding(crate::specs::Printed::envelope_text))]
pub fn print(input: &[u8], out: &mut [u8]) -> usize
    ensures answers { result ≡ print_answer input.now out.old }
    ensures writes { out.new ≡ print_buffer input.now out.old }
{
    if out.len() < LONGEST {
        return 0;
    }
    let mut text = Text::new();
    match envelope::open(input) {
        Some(Envelope { place, image }) => push_reading(&mut text, image, place),
        None => text.push_str("envelope\n"),
    }
    let n = text.len();
    out[..n].copy_from_slice(text.as_str().as_bytes());
    n
}
