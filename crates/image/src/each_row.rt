// Rows of table memory, or of a page, moved to version 3 and back where they lie (W-209).
ghost use Rattle.std.specs.Prelude.{◌≡◌, ◌+◌, ◌*◌, ◌≤◌, length};
ghost use Rattle.row.specs.Fields.{row_size};
ghost use Rattle.table.specs.Memory.{row_at, row, with_row, each_row};
ghost use Rattle.image.specs.Restore.{renewed};
ghost use Rattle.image.specs.Moves.{along};

use crate::Way;
use row::rules;

impl Way {
    // One row.
    fn go(self, row: &mut [u8])
        requires { row_size ≤ length row.old }
        ensures { row.new ≡ along self row.old }
    {
        match self {
            Way::Forward => row::moves::forward(row),
            Way::Back => row::moves::back(row),
        }
    }
}

// Row k of table memory, or of a page: these three take the memory and a number of rows, as `each_row` does, since what is behind the rows stays; and the way as a value, as
// their clauses name it (`along way`).
fn go_at(table: &mut [u8], way: Way, k: usize)
    requires { k * row_size + row_size ≤ length table.old }
    ensures { table.new ≡ with_row k (along way (row k table.old)) table.old }
{
    let from = k * row::ROW_SIZE;
    let to = from + row::ROW_SIZE;
    way.go(&mut table[from..to]);
}

// Each of the first rows of table memory, or of a page.
pub fn all(table: &mut [u8], way: Way, rows: usize)
    requires { row_at rows ≤ length table.old }
    ensures { table.new ≡ each_row (along way) rows table.old }
{
    for k in 0..rows {
        go_at(table, way, k);
    }
}

// Rows of a version as a table holds them.
pub fn renew(table: &mut [u8], version: u16, rows: usize)
    requires { row_at rows ≤ length table.old }
    ensures { table.new ≡ renewed version rows table.old }
{
    if version != rules::NEWEST {
        all(table, Way::Forward, rows);
    }
}
