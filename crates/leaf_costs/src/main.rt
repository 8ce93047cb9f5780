// What the leaves cost: calls one of them 1,000 times for each thousand asked, so that counted instructions of two runs give the cost of a
// call. Standard input has a letter for the leaf, a digit for the thousands, and the bytes to read: with too few for every leaf at every
// offset no leaf is called. It assumes nothing of them.
#![tactic(auto)]

ghost use Rattle.std.specs.Prelude.{◌+◌, ◌*◌, ◌≤◌, length};
ghost use Rattle.pdi_spec.specs.Headers.{boot_size};

use attributes::Attributes;
use headers::{BootHeader, HashEntry, PartitionHeader, TableHeader};
use std::io;

// The offsets are the first words' of the bytes, so many of them; from each on there is room for a boot header, the most that a leaf reads.
const OFFSETS: usize = 64;

const ENOUGH: usize = 4 * OFFSETS + BootHeader::SIZE;

fn main(rt: HostRuntime) -> io::Result<()> {
    let mut buffer = inputs::buffer::<65_536>();
    let n = inputs::read_full(&mut rt.stdin(), &mut buffer)?;
    let input = &buffer[..n];
    let sum = if n < 2 + ENOUGH {
        0
    } else {
        turns(&input[2..], input[0], 1000 * usize::from(input[1] % 16))
    };
    println!(rt; "{sum}")
}

// Each turn reads at another offset, and each result counts, so that no call can be left out.
fn turns(image: &[u8], leaf: u8, n: usize) -> u32
    requires { 4 * 64 + boot_size ≤ length image.now }
{
    let mut sum: u32 = 0;
    for i in 0..n {
        sum = sum.wrapping_add(one(image, leaf, 4 * (i % OFFSETS)));
    }
    sum
}

fn one(image: &[u8], leaf: u8, at: usize) -> u32
    requires { at + boot_size ≤ length image.now }
{
    match leaf {
        b'w' => words::word_at(image, at),
        b'c' => words::checksum(image, at, 1099),
        b's' => words::checksum(image, at, 31),
        b'p' => partition(PartitionHeader::read(image, at)),
        b't' => table(TableHeader::read(image, at)),
        b'b' => boot(BootHeader::read(&image[at..])),
        b'e' => entry(HashEntry::read(image, at)),
        _ => (at % 256) as u32,
    }
}

// A sum modulo 2^32.
fn total(words: &[u32]) -> u32 {
    words.iter().fold(0, |sum, word| sum.wrapping_add(*word))
}

fn partition(h: PartitionHeader) -> u32 {
    let attributes: Attributes = h.attributes;
    let block = h.block;
    total(&[
        h.encrypted,
        h.unencrypted,
        h.total,
        h.next,
        h.load_low,
        h.load_high,
        h.data_offset,
        h.checksum_offset,
        (h.execution % 0x1_0000_0000) as u32,
        (h.execution / 0x1_0000_0000) as u32,
        block.size,
        block.offset,
        h.key,
        h.key_total,
        h.key_actual,
        attributes.word,
        h.signature_total,
        h.signature_actual,
        h.reserved,
        h.checksum,
    ])
}

fn table(t: TableHeader) -> u32 {
    let sizes = t.header_sizes;
    let block = t.block;
    total(&[
        t.version,
        t.images,
        t.partitions,
        t.kind,
        t.image_header_offset,
        t.first_header_offset,
        t.key,
        t.optional_words,
        sizes.word,
        block.size,
        block.offset,
        t.reserved,
        t.checksum,
    ])
}

fn boot(b: BootHeader) -> u32 {
    total(&[
        b.width_detection,
        u32::from(b.identified),
        b.key,
        b.source_offset,
        b.cdo_length,
        b.cdo_total,
        b.plm_length,
        b.plm_total,
        b.checksum,
    ])
}

fn entry(e: HashEntry) -> u32 {
    e.index
}
