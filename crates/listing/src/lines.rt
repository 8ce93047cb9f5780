// Lines of numbers as text: one space between numbers, and a line feed after the last.
ghost use Rattle.std.specs.Prelude.{◌+◌, ◌*◌, ◌≤◌, ◌<◌, ◌++◌, ◌≡◌, length, get_or};
ghost use Rattle.arrayvec.specs.ArrayString.{array_string_len};
ghost use Rattle.pdi_spec.specs.Limits.{head_width, row_width};
ghost use Rattle.listing.specs.Decimal.{decimal};
ghost use Rattle.listing.specs.Printed.{buffer_lines, line};

use crate::{LONGEST, Text};
use rows::{HEAD, ROW};

// Appends a number in decimal.
#[tactic(auto, using(crate::proofs::Laws::Decimal::as_std))]
fn push_number(text: &mut Text, n: u64)
    requires { array_string_len text.old + length (decimal n) ≤ LONGEST }
    ensures { text.new.bytes ≡ text.old.bytes ++ decimal n }
{
    let mut buffer = itoa::Buffer::new();
    text.push_str(buffer.format(n));
}

// Appends a line.
pub(crate) fn push_line(text: &mut Text, numbers: &[u64])
    requires some { 0 < length numbers.now }
    requires room { array_string_len text.old + length (line numbers.now) ≤ LONGEST }
    ensures { text.new.bytes ≡ text.old.bytes ++ line numbers.now }
{
    push_number(text, numbers[0]);
    for n in &numbers[1..] {
        text.push(' ');
        push_number(text, *n);
    }
    text.push('\n');
}

// Appends a line with the head of a row buffer, and one for each of the partitions that the head counts.
pub(crate) fn push_buffer(text: &mut Text, rows: &[u64])
    requires enough { head_width + row_width * get_or rows.now 2 0 ≤ length rows.now }
    requires room { array_string_len text.old + length (buffer_lines rows.now) ≤ LONGEST }
    ensures { text.new.bytes ≡ text.old.bytes ++ buffer_lines rows.now }
{
    let (head, rest) = rows.split_at(HEAD);
    push_line(text, head);
    for row in rest.chunks_exact(ROW).take(head[2] as usize) {
        push_line(text, row);
    }
}
