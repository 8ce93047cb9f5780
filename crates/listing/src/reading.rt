// What is printed of an image: number and p, and of an accepted one the head and the rows.
ghost use Rattle.std.specs.Prelude.{◌+◌, ◌≤◌, ◌≡◌, ◌++◌, length};
ghost use Rattle.arrayvec.specs.ArrayString.{array_string_len};
ghost use Rattle.pdi_spec.specs.Answers.{asked};
ghost use Rattle.pdi_spec.specs.RuleList.{plain_rules};
ghost use Rattle.listing.specs.Printed.{printed_of};

use crate::lines::{push_buffer, push_line};
use crate::{LONGEST, Text};
use rows::BUFFER;

// Appends what is printed of an image.
pub(crate) fn push_reading(text: &mut Text, image: &[u8], place: usize)
    requires { array_string_len text.old + length (printed_of plain_rules (asked image.now place)) ≤ LONGEST }
    ensures { text.new.bytes ≡ text.old.bytes ++ printed_of plain_rules (asked image.now place) }
{
    let mut rows = [0u64; BUFFER];
    let answer = reader::read(image, place, &mut rows);
    push_line(text, &[answer / 64, answer % 64]);
    if answer == 0 {
        push_buffer(text, &rows);
    }
}
