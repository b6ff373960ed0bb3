// What a message does to the table, straight from its bytes, which have passed their test.
ghost use Rattle.std.specs.Prelude.{◌≡◌, ◌≤◌, length, get_or};
ghost use Rattle.message.specs.Message.{read_of, accepted};
ghost use Rattle.message.specs.Test.{quote_length};
ghost use Rattle.message.specs.declared.Message.{Message};
ghost use Rattle.message.specs.declared.Texts.{Texts};
ghost use Rattle.row.specs.Fields.{row_size};
ghost use Rattle.row.specs.Wire.{directory_in, texts_in, quote_in};
ghost use Rattle.table.specs.Memory.{memories};
ghost use Rattle.table.specs.Index.{LentFitting};
ghost use Rattle.table.specs.Board.{beside, directory_at, quote_at, effect};
ghost use Rattle.table.specs.Wire.{placed, index_by, Rowed, Placeable, effect_in, AtRow, AtNone};
ghost use Rattle.table.specs.declared.Board.{Board};

use crate::index::Sought;
use crate::{Refusal, index};

// What came of a message: the rows in use stay, or there is one more; or it is refused. Three answers with names of their own, so no Result.
#[derive(Clone, Copy)]
pub enum Placed {
    Kept,
    Added,
    Refused(Refusal),
}

// A message for an id that has no row yet: only a directory adds one, which takes its place in the index.
fn add(rows: usize, place: usize, bytes: &[u8], table: &mut [u8], index: &mut [u8]) -> Placed
    requires { Rowed bytes.now × (LentFitting rows (memories table.old index.old) × (place ≤ rows)) }
    ensures at_none { AtNone (effect_in bytes.now) rows table.old table.new result }
    ensures index_after { index.new ≡ index_by result rows place index.old }
{
    if bytes[0] != b'm' {
        return Placed::Refused(Refusal::NoRow);
    }
    if crate::MOST_ROWS <= rows {
        return Placed::Refused(Refusal::TableFull);
    }
    let from = rows * row::ROW_SIZE;
    let to = from + row::ROW_SIZE;
    row::wire::put_new(&mut table[from..to], bytes);
    index::insert(index, rows, place, rows);
    Placed::Added
}

// A directory for the row's own id. The row is a slice here, as those of crate row that write it take one.
fn relist(row: &mut [u8], bytes: &[u8]) -> Placed
    requires { (row_size ≤ length row.old) × (63 ≤ length bytes.now) }
    ensures { AtRow (λ b. directory_at b (directory_in bytes.now) (texts_in bytes.now)) row.old row.new result }
{
    if !row::wire::unchanged(row, bytes) {
        return Placed::Refused(Refusal::FixedField);
    }
    row::wire::put_directory(row, bytes);
    Placed::Kept
}

fn quote(row: &mut [u8], bytes: &[u8]) -> Placed
    requires { (row_size ≤ length row.old) × ((quote_length (get_or bytes.now 0 0) ≡ 0 → ⊥) × (length bytes.now ≡ quote_length (get_or bytes.now 0 0))) }
    ensures { AtRow (λ b. quote_at b (quote_in bytes.now)) row.old row.new result }
{
    if !row::takes_quote(row) {
        return Placed::Refused(Refusal::NoQuotes);
    }
    row::wire::put_quote(row, bytes);
    Placed::Kept
}

// A message for the id of a row.
fn at_row(row: &mut [u8], bytes: &[u8]) -> Placed
    requires { (row_size ≤ length row.old) × Rowed bytes.now }
    ensures { AtRow (effect_in bytes.now) row.old row.new result }
{
    match bytes[0] {
        b'H' => {
            row::wire::put_action(row, bytes);
            Placed::Kept
        }
        b'm' => relist(row, bytes),
        _ => quote(row, bytes),
    }
}

// A message for the row of its id: accepted, with all that it changes, or refused, with nothing changed.
pub fn place(rows: usize, bytes: &[u8], table: &mut [u8], index: &mut [u8]) -> Placed
    requires { Placeable rows bytes.now (memories table.old index.old) }
    ensures { (b : Board) (m : Message) (t : Texts) → b.rows ≡ rows → read_of bytes.now ≡ accepted m t → beside index.new (placed result b table.new) ≡ effect b m t (memories table.old index.old) }
{
    match index::find(index, table, rows, field::read::<u32>(bytes, 11)) {
        Sought::Here(k) => {
            let from = k * row::ROW_SIZE;
            let to = from + row::ROW_SIZE;
            at_row(&mut table[from..to], bytes)
        }
        Sought::Absent(place) => add(rows, place, bytes, table, index),
        Sought::Astray => Placed::Refused(Refusal::Unfit),
    }
}
