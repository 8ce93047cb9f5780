// Document 01's cases, and those of image headers, run: asks the reader's four questions of each case on standard input, which
// tests/cli/bench_cases.py makes, and prints a line: the case's name, read's answer (64 × number + p), the bill, the length of the body,
// the owner, and then each number of the row buffer that read changed, as index:number. The file stdout is from documents 01 and 02 and not
// from a run. Assumes nothing: a case that is cut off is not asked.
#![tactic(auto)]

ghost use Rattle.std.specs.Prelude.{◌≤◌, length};

use rows::BUFFER;
use std::io;

// A case is its name, padded with spaces; the image's length, how much of the row buffer is lent, p and the table place, little-endian; the
// image. These are their byte offsets.
const LENGTH: usize = 32;

const LENT: usize = 36;

const PARTITION: usize = 40;

const PLACE: usize = 44;

const IMAGE: usize = 52;

// The row buffer of every case, one number more than is needed, and what each number holds before read is asked.
const ROWS: usize = BUFFER + 1;

const FOUND: u64 = 7;

// A space and a number.
fn field(rt: &impl Print, n: u64) -> io::Result<()> {
    print!(rt; " {n}")
}

// The numbers of the row buffer that are not as found, each after its index.
fn print_changes(rt: &impl Print, rows: &[u64; ROWS]) -> io::Result<()> {
    for (i, n) in rows.iter().enumerate() {
        if *n != FOUND {
            print!(rt; " {i}:{n}")?;
        }
    }
    Ok(())
}

// Asks all four questions of an image, read with the first n numbers of the row buffer, and prints what they answer and what read changed.
fn ask(rt: &impl Print, image: &[u8], place: usize, n: usize, p: usize) -> io::Result<()> {
    let mut rows = [FOUND; ROWS];
    let lent = n.min(ROWS);
    field(rt, reader::read(image, place, &mut rows[..lent]))?;
    field(rt, reader::bill(image, place))?;
    let body = reader::body(image, place, p);
    field(rt, body.len() as u64)?;
    field(rt, reader::owner(image, place, p))?;
    print_changes(rt, &rows)?;
    rt.println("")
}

// The fields of a case.
fn case(rt: &impl Print, bytes: &[u8]) -> io::Result<()>
    requires { 52 ≤ length bytes.now }
{
    rt.write_all(&bytes[0..LENGTH])?;
    let n = words::word_at(bytes, LENT) as usize;
    let p = words::word_at(bytes, PARTITION) as usize;
    let low = words::word_at(bytes, PLACE) as usize;
    let high = words::word_at(bytes, PLACE + 4) as usize;
    ask(rt, &bytes[IMAGE..], low + 0x1_0000_0000 * high, n, p)
}

// One case after another.
fn cases(rt: &impl Print, input: &[u8]) -> io::Result<()> {
    let mut rest = input;
    while IMAGE <= rest.len() {
        let size = IMAGE + words::word_at(rest, LENGTH) as usize;
        let Some((first, others)) = rest.split_at_checked(size) else {
            break;
        };
        case(rt, first)?;
        rest = others;
    }
    Ok(())
}

fn main(rt: HostRuntime) -> io::Result<()> {
    let mut input = inputs::buffer::<65_536>();
    let n = inputs::read_full(&mut rt.stdin(), &mut input)?;
    cases(&rt, &input[..n])
}
