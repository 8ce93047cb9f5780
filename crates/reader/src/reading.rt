// Read: the answer of an image, and the row buffer of an accepted one.
ghost use Rattle.std.specs.Prelude.{◌≡◌};
ghost use Rattle.pdi_spec.specs.Answers.{read_answer, read_rows};

use checks::check;
use rows::BUFFER;

// 64 × number + p, or 0 for an accepted image. A refusal leaves the row buffer as found.
#[tactic(auto, using(crate::proofs::Questions::read_told))]
pub fn read(image: &[u8], place: usize, rows: &mut [u64]) -> u64
    ensures answers { result ≡ read_answer image.now place rows.old }
    ensures writes { rows.new ≡ read_rows image.now place rows.old }
{
    let short = rows.len() < BUFFER;
    match check(image, place, short) {
        Ok(accepted) => {
            accepted.write(rows);
            0
        }
        Err(refusal) => u64::from(refusal),
    }
}
