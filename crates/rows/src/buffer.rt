// What an acceptance writes into the row buffer: the head, and then a row for each partition.
ghost use Rattle.std.specs.Prelude.{◌+◌, ◌*◌, ◌≤◌, ◌<◌, ◌≡◌, length};
ghost use Rattle.std.proofs.lemmas.List.Edits.{sets};
ghost use Rattle.pdi_spec.specs.Answers.{row_numbers, row_of};
ghost use Rattle.pdi_spec.specs.Limits.{head_width, row_width};
ghost use Rattle.chain_rules.specs.File.{file_of_chain};
ghost use Rattle.rows.specs.Rows.{first_rows, overwritten};

use crate::Accepted;
use headers::MOST_PARTITIONS;

// Numbers in the head and in a row, and in a row buffer that serves: the head, and a row for each of the most partitions.
pub const HEAD: usize = 4;

pub const ROW: usize = 8;

pub const BUFFER: usize = HEAD + ROW * MOST_PARTITIONS;

impl Accepted<'_> {
    // The row of partition i + 1.
    #[tactic(auto, using(crate::proofs::Stores::row_told))]
    fn row(&self, i: usize) -> [u64; ROW]
        requires { i < self.now.chain.table.partitions }
        ensures { result ≡ row_numbers (row_of (file_of_chain self.now.chain) (i + 1)) }
    {
        let h = self.chain.header(i);
        let stored = h.span();
        let loaded = h.load_range();
        [
            stored.start,
            stored.size,
            loaded.size,
            loaded.start,
            h.execution,
            u64::from(h.key),
            self.entries[i] as u64,
            u64::from(h.attributes.word),
        ]
    }

    // The rows, which follow the head.
    #[tactic(auto, using(crate::proofs::Stores::rows_none, crate::proofs::Stores::turn))]
    fn write_rows(&self, rows: &mut [u64])
        requires { head_width + row_width * self.now.chain.table.partitions ≤ length rows.old }
        ensures { rows.new ≡ sets rows.old head_width (first_rows (file_of_chain self.now.chain)
            self.now.chain.table.partitions) }
    {
        for i in 0..self.chain.table.partitions as usize {
            let at = HEAD + ROW * i;
            rows[at..at + ROW].copy_from_slice(&self.row(i));
        }
    }

    // The head and the rows. What comes after them is left as found.
    #[tactic(auto, using(crate::proofs::Stores::whole))]
    pub fn write(&self, rows: &mut [u64])
        requires { head_width + row_width * self.now.chain.table.partitions ≤ length rows.old }
        ensures { rows.new ≡ overwritten (file_of_chain self.now.chain) rows.old }
    {
        let table = self.chain.table;
        rows[..HEAD].copy_from_slice(&[
            u64::from(table.kind),
            u64::from(table.images),
            u64::from(table.partitions),
            self.bill,
        ]);
        self.write_rows(rows);
    }
}
