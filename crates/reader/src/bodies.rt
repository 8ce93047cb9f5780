// Body: the stored bytes of one partition of an accepted image, as a part of it.
ghost use Rattle.std.specs.Prelude.{◌≡◌, ◌+◌, ◌≤◌, length, IfSome, unwrap_or};
ghost use Rattle.std.specs.Option.{option_map};
ghost use Rattle.pdi_spec.specs.Answers.{body_answer, body_part, empty_part};
ghost use Rattle.ranges.specs.Range.{range_of};

use checks::check;
use ranges::Range;

// Where it lies: nowhere for a refused image, and for a p that isn't 1 to N, where the part is the empty one at the start.
#[tactic(auto, using(crate::proofs::Questions::part_told))]
fn part_of(image: &[u8], place: usize, p: usize) -> Option<Range>
    ensures part { unwrap_or (option_map range_of result) empty_part ≡ body_part image.now place p }
    ensures inside { IfSome result (λ part. part.start + part.size ≤ length image.now) }
{
    let Ok(accepted) = check(image, place, false) else {
        return None;
    };
    let chain = accepted.chain;
    if p < 1 {
        return None;
    }
    if (chain.table.partitions as usize) < p {
        return None;
    }
    let h = chain.header(p - 1);
    Some(h.body())
}

// The bytes of that part. The last two promises say that they are the caller's own: in the image's block of memory, and from the part's
// start on.
pub fn body<'a>(image: &'a [u8], place: usize, p: usize) -> &'a [u8]
    ensures bytes { result.now ≡ body_answer image.now place p }
    ensures block { result.ref_ptr.0 ≡ image.entry.ref_ptr.0 }
    ensures offset { result.ref_ptr.1 ≡ image.entry.ref_ptr.1 + (body_part image.now place p).start }
{
    let Some(part) = part_of(image, place, p) else {
        return &image[..0];
    };
    let start = part.start as usize;
    &image[start..start + (part.size as usize)]
}
