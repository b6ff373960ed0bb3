// The rules of rows where they lie, four to a page: in table memory the pages touch, in an image each has its block.
ghost use Rattle.std.specs.Prelude.{◌≡◌, ◌+◌, ◌≤◌, ◌<◌, ◌^◌, length};
ghost use Rattle.row.specs.Fields.{row_size};
ghost use Rattle.table.specs.Memory.{most_rows};
ghost use Rattle.table.specs.Rules.{rows_keep};
ghost use Rattle.image.specs.Shape.{pages_for, pages, PagesIn, place_of, all_below};
ghost use Rattle.image.specs.Ids.{good_row, own_id};

use crate::ids;

// Rows in pages: the first page is at `base`, and each `stride` bytes after the one before it.
#[derive(Clone, Copy)]
pub struct Pages<'a> {
    pub bytes: &'a [u8],
    pub base: usize,
    pub stride: usize,
    pub rows: usize,
    pub ghost inside: { PagesIn bytes.now base stride (pages_for rows) },
}

impl<'a> Pages<'a> {
    ghost use Rattle.image.specs.Held.{rows_in, row_in};

    // The bytes of row k.
    pub fn row(&self, k: usize) -> &'a [u8]
        requires { k < self.now.rows }
        ensures bytes { result.now ≡ row_in self.now k }
        ensures whole { length result.now ≡ row_size }
    {
        let at = self.base
            + k / crate::PAGE_ROWS * self.stride
            + k % crate::PAGE_ROWS * row::ROW_SIZE;
        let to = at + row::ROW_SIZE;
        &self.bytes[at..to]
    }

    // Does each row keep its own rules?
    fn each_keeps(&self, version: u16) -> bool
        ensures { result ≡ all_below (good_row version (rows_in self.now)) self.now.rows }
    {
        for k in 0..self.rows {
            if !row::rules::keep(version, self.row(k)) {
                return false;
            }
        }
        true
    }

    // Is no id there twice? The ids enter one by one among those before them.
    fn each_new(&self, rising: &mut [u32]) -> bool
        requires { self.now.rows ≤ length rising.old }
        ensures { result ≡ all_below (own_id (rows_in self.now)) self.now.rows }
    {
        for k in 0..self.rows {
            if !ids::enter(rising, k, field::read::<u32>(self.row(k), 0)) {
                return false;
            }
        }
        true
    }

    pub fn keep(&self, version: u16) -> bool
        requires { self.now.rows ≤ most_rows }
        ensures { result ≡ rows_keep version self.now.rows (rows_in self.now) }
    {
        if !self.each_keeps(version) {
            return false;
        }
        let mut rising = [0u32; table::MOST_ROWS];
        self.each_new(&mut rising)
    }
}
