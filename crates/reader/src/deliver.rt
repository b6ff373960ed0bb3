// A message, delivered where its bytes lie: tested, and applied to its row.
ghost use Rattle.std.specs.Prelude.{◌≡◌, true, ◌<◌, length, get_or};
ghost use Rattle.field.specs.Limits.{highest_number};
ghost use Rattle.message.specs.Message.{read_of, accepted};
ghost use Rattle.message.specs.Feed.{listed_length};
ghost use Rattle.message.specs.Letters.{letter_in};
ghost use Rattle.message.specs.Test.{tested, checked, quote_letters};
ghost use Rattle.message.specs.declared.Message.{Message};
ghost use Rattle.message.specs.declared.Texts.{Texts};
ghost use Rattle.packet.specs.Session.{delivered};
ghost use Rattle.table.specs.Memory.{memories};
ghost use Rattle.table.specs.Index.{LentFitting};
ghost use Rattle.table.specs.Board.{effect};
ghost use Rattle.table.specs.Wire.{Placeable};
ghost use Rattle.handle.specs.Handle.{is_handle, head_of};
ghost use Rattle.reader.specs.Deliver.{table_of, deliver};
ghost use Rattle.reader.specs.Refusals.{number_in};
ghost use Rattle.reader.specs.Handles.{left};
ghost use Rattle.reader.specs.Shapes.{Going, Ready, closed_as, applied_as, tried_as};

use crate::{Refusal, told};
use packet::numbering;
use table::wire::Placed;

// The test of some bytes; `size` is the length of a quote with their letter, none for any other. A quote's test is small and compiles into this.
fn test(size: Option<usize>, letter: u8, body: &[u8]) -> Result<(), message::Refusal>
    requires { (length body.now ≡ 0 → ⊥) × ((letter ≡ get_or body.now 0 0) × (size ≡ listed_length (letter_in quote_letters letter))) }
    ensures { result ≡ checked (read_of body.now) }
{
    match size {
        Some(n) => message::test::quote(letter, n, body),
        None => message::test::rarer(letter, body),
    }
}

// A message for the row of its id.
fn place(
    rows: usize,
    handle: &mut [u8],
    table: &mut [u8],
    index: &mut [u8],
    body: &[u8],
) -> Result<(), Refusal>
    requires { (is_handle handle.old ≡ true) × ((rows ≡ (head_of handle.old).board.rows) × Placeable rows body.now (memories table.old index.old)) }
    ensures { (m : Message) (t : Texts) → read_of body.now ≡ accepted m t → left (number_in result) handle.new (memories table.new index.new) ≡ applied_as (effect (head_of handle.old).board m t (memories table.old index.old)) handle.old }
{
    match table::wire::place(rows, body, table, index) {
        Placed::Kept => Ok(()),
        Placed::Added => {
            handle::put_rows(handle::rows(handle) + 1, handle);
            Ok(())
        }
        Placed::Refused(r) => Err(Refusal::from(r)),
    }
}

// A message that has passed its test.
fn apply(
    size: Option<usize>,
    rows: usize,
    handle: &mut [u8],
    table: &mut [u8],
    index: &mut [u8],
    body: &[u8],
) -> Result<(), Refusal>
    requires { (is_handle handle.old ≡ true) × ((rows ≡ (head_of handle.old).board.rows) × ((size ≡ listed_length (letter_in quote_letters (get_or body.now 0 0))) × ((tested (read_of body.now) ≡ 0) × LentFitting rows (memories table.old index.old)))) }
    ensures { (m : Message) (t : Texts) → read_of body.now ≡ accepted m t → left (number_in result) handle.new (memories table.new index.new) ≡ applied_as (effect (head_of handle.old).board m t (memories table.old index.old)) handle.old }
{
    let letter = body[0];
    if size.is_none() {
        if letter == b'S' {
            handle::put_event(field::read::<u8>(body, 11), handle);
            return Ok(());
        }
        if letter == b'M' {
            handle::put_live(message::test::number(body), handle);
            return Ok(());
        }
    }
    place(rows, handle, table, index, body)
}

// Tested, and applied.
fn tried(
    rows: usize,
    handle: &mut [u8],
    table: &mut [u8],
    index: &mut [u8],
    body: &[u8],
) -> Result<(), Refusal>
    requires { Going handle.old (memories table.old index.old) × (rows ≡ (head_of handle.old).board.rows) }
    ensures { left (number_in result) handle.new (memories table.new index.new) ≡ tried_as (deliver (table_of (head_of handle.old).board (memories table.old index.old)) body.now) handle.old }
{
    if body.len() == 0 {
        return Err(Refusal::UnknownMessage);
    }
    let letter = body[0];
    let size = message::test::quote_length(letter);
    test(size, letter, body)?;
    apply(size, rows, handle, table, index, body)
}

// A message that may take the next number.
pub fn message(
    next: u64,
    rows: usize,
    handle: &mut [u8],
    table: &mut [u8],
    index: &mut [u8],
    body: &[u8],
) -> u32
    requires { Ready handle.old (memories table.old index.old) × ((rows ≡ (head_of handle.old).board.rows) × ((next ≡ (head_of handle.old).line.next) × (next < highest_number))) }
    ensures closes { left result handle.new (memories table.new index.new) ≡ closed_as (delivered (head_of handle.old).line (deliver (table_of (head_of handle.old).board (memories table.old index.old)) body.now)) handle.old }
    ensures low_half { result < 65_536 }
{
    if let Err(r) = tried(rows, handle, table, index, body) {
        return told::refuse(u8::from(r), handle);
    }
    handle::put_next(numbering::number_after(next), handle);
    told::MESSAGE
}
