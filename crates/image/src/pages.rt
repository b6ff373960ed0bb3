// The blocks of an image, written and taken: a block after the first is a page of table memory.
ghost use Rattle.std.specs.Prelude.{ℕ, List, ◌≡◌, ◌++◌, ◌+◌, ◌-◌, ◌*◌, ◌≤◌, ◌<◌, length, replicate};
ghost use Rattle.field.specs.Bytes.{overlay};
ghost use Rattle.block.specs.Block.{block_size, body_size};
ghost use Rattle.table.specs.Memory.{most_rows, table_size};
ghost use Rattle.image.specs.Shape.{pages_for, blocks_for, most_blocks, old_version, version_fits, head_for, pages, first_page};
ghost use Rattle.image.specs.Save.{page_of, body_of, saved_block, image_in, Sizes};
ghost use Rattle.image.specs.declared.Header.{Header};
ghost use Rattle.row.specs.Rules.{newest};

use crate::{Header, facts};
use block::Head;
use row::rules;

// A table had at most so many rows before W-208.
const ROWS_OF_VERSION_1: usize = 256;

// In an image the first page is the body of block 1.
pub const FIRST_PAGE: usize = block::BLOCK_SIZE + block::HEAD_SIZE;

pub fn blocks_for(rows: usize) -> usize
    requires { rows ≤ 65_535 }
    ensures { result ≡ blocks_for rows }
{
    1 + (rows + (crate::PAGE_ROWS - 1)) / crate::PAGE_ROWS
}

// The version that an image of so many rows had before W-209.
pub fn old_version(rows: usize) -> u16
    ensures { result ≡ old_version rows }
{
    if rows <= ROWS_OF_VERSION_1 { 1 } else { 2 }
}

// An image has version 3, or the one that its rows had before.
pub fn version_fits(version: u16, rows: usize) -> bool
    ensures { result ≡ version_fits version rows }
{
    (version == rules::NEWEST) | (version == old_version(rows))
}

// The head of block k.
pub fn head_for(count: usize, version: u16, next: u64, k: usize) -> Head
    requires { (count ≤ most_blocks) × (k < count) }
    ensures { result ≡ head_for count version next k }
{
    Head {
        number: k as u16,
        count: count as u16,
        version,
        next,
    }
}

// What gives an image its blocks: a header, a version, and pages of rows.
pub trait Source {
    ghost header: { Self → Header };

    ghost rows: { Self → List ℕ };

    ghost version: { Self → ℕ };

    ghost sizes: { (s : Self) → Sizes (header s) (rows s) };

    fn header(&self) -> Header
        ensures { result ≡ header self.now };

    fn version(&self) -> u16
        ensures { result ≡ version self.now };

    // Page k.
    fn put_page(&self, out: &mut [u8], at: usize, k: usize)
        requires { (at + body_size ≤ length out.old) × (k < pages_for (header self.now).board.rows) }
        ensures { out.new ≡ overlay out.old at (page_of (header self.now).board.rows (rows self.now) k) };

    // Block 0 has the header, and each after it a page.
    fn put_body(&self, out: &mut [u8], at: usize, k: usize)
        requires { (at + body_size ≤ length out.old) × (k < blocks_for (header self.now).board.rows) }
        ensures { out.new ≡ overlay out.old at (body_of (header self.now) (rows self.now) k) }
    {
        if k == 0 {
            facts::put(out, at, self.header());
        } else {
            self.put_page(out, at, k - 1);
        }
    }

    fn put_block(&self, out: &mut [u8], count: usize, k: usize)
        requires { (k * block_size + block_size ≤ length out.old) × (count ≡ blocks_for (header self.now).board.rows) × (k < count) }
        ensures { out.new ≡ overlay out.old (k * block_size) (saved_block (version self.now) (header self.now) (rows self.now) k) }
    {
        let at = k * block::BLOCK_SIZE;
        let head = head_for(count, self.version(), self.header().next, k);
        block::put_head(out, at, head);
        self.put_body(out, at + block::HEAD_SIZE, k);
        block::put_check(out, at);
    }

    fn put_blocks(&self, out: &mut [u8], count: usize)
        requires { (count * block_size ≤ length out.old) × (count ≡ blocks_for (header self.now).board.rows) }
        ensures { out.new ≡ overlay out.old 0 (image_in (version self.now) (header self.now) (rows self.now)) }
    {
        for k in 0..count {
            self.put_block(out, count, k);
        }
    }
}

// What is saved: a table, and the rows in use with what stands beside them.
#[derive(Clone, Copy)]
pub struct Keeping<'a> {
    pub table: &'a [u8],
    pub header: Header,
    pub ghost sizes: { Sizes header table.now },
}

impl Source for Keeping<'_> {
    ghost header = { λ s. s.header };

    ghost rows = { λ s. s.table.now };

    ghost version = { λ s. newest };

    ghost sizes = { λ s. s.sizes };

    // The header of its own struct.
    fn header(&self) -> Header {
        self.header
    }

    fn version(&self) -> u16 {
        rules::NEWEST
    }

    // Its rows in use, and zeros.
    fn put_page(&self, out: &mut [u8], at: usize, k: usize) {
        let from = k * block::BODY_SIZE;
        let left = self.header.board.rows * row::ROW_SIZE - from;
        if left < block::BODY_SIZE {
            field::copy(self.table, from, left, out, at);
            field::fill(out, at + left, block::BODY_SIZE - left, 0);
        } else {
            field::copy(self.table, from, block::BODY_SIZE, out, at);
        }
    }
}

// The n pages of an image to table memory, with zeros past them. Both memories are longer: n counts pages, and is no length of theirs.
pub fn take(image: &[u8], table: &mut [u8], n: usize)
    requires { (n * block_size + block_size ≤ length image.now) × (length table.old ≡ table_size) × (n < most_blocks) }
    ensures { table.new ≡ pages image.now first_page block_size n ++ replicate (table_size - n * body_size) 0 }
{
    for k in 0..n {
        field::copy(
            image,
            FIRST_PAGE + k * block::BLOCK_SIZE,
            block::BODY_SIZE,
            table,
            k * block::BODY_SIZE,
        );
    }
    field::fill(
        table,
        n * block::BODY_SIZE,
        table::TABLE_SIZE - n * block::BODY_SIZE,
        0,
    );
}
