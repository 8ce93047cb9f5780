// Reading into a lent buffer until it is full or the input ends. A read that a signal interrupts before a byte came counts as one that
// failed. What comes from the system no contract can say, so it is said of any reader whose bytes are known.
#![tactic(auto)]

ghost use Rattle.std.specs.Prelude.{◌≡◌, ◌<◌, ◌≤◌, length, take, IfOk};
ghost use Rattle.std.specs.Io.KnownBytes.{Consumes, IsAtEnd};

use std::io;
use std::io::Read;

// N zeros.
pub fn buffer<const N: usize>() -> [u8; N]
    ensures { length result ≡ N }
{
    [0; N]
}

// How many bytes came; they lie at the start of the buffer. Where they are fewer than it has, the input has no more.
#[tactic(auto, using(crate::proofs::Reading::read_more, crate::proofs::Reading::read_within))]
pub fn read_full<R: Read>(reader: &mut R, buffer: &mut [u8]) -> io::Result<usize>
    ensures within { IfOk result (λ n. n ≤ length buffer.new) }
    ensures bytes { IfOk result (λ n. Consumes (R.remaining reader.old) (R.remaining reader.new) (take n buffer.new)) }
    ensures end { IfOk result (λ n. n < length buffer.new → IsAtEnd (R.remaining reader.new)) }
{
    let mut n: usize = 0;
    while n < buffer.len() {
        let more = reader.read(&mut buffer[n..])?;
        if more == 0 {
            return Ok(n);
        }
        n += more;
    }
    Ok(n)
}
