// The calls for C: numbers and lent bytes only. Each answers a number whose low byte is the refusal, 0 for none, so answers by name become
// numbers here, and a handle, its table and its index come as three borrows.
#![tactic(auto)]

ghost use Rattle.std.specs.Prelude.{◌≡◌, ◌≤◌, [], length, take};
ghost use Rattle.table.specs.Memory.{table_size, memories};
ghost use Rattle.table.specs.Index.{index_size};
ghost use Rattle.listing.specs.Lines.{line_size, Short};
ghost use Rattle.handle.specs.Handle.{handle_size, handle_bytes};
ghost use Rattle.record.specs.Places.{record_size};
ghost use Rattle.record.specs.Record.{answered, read_answer, write_answer};
ghost use Rattle.image.specs.declared.Way.TheVariants.{Forward, Back};
ghost use Rattle.reader.specs.Saving.{written_of, restore_number};
ghost use Rattle.reader.specs.Handles.{HostSteps, GoesOn};
ghost use Rattle.reader.specs.Running.{HostRuns, RunsOn};
ghost use Rattle.nelqubat.specs.Host.{no_held, HostStarts, StartsOn, HostRestores, RestoresOn, saved_number, SavedFits, HostSaves, HostMoves, line_to, shown_to, host_version, line_host, FoundFits, found_number, find_host};

use handle::{HANDLE_SIZE, HEAD_SIZE, Head};
use listing::{Shown, Text};
use packet::HELD_SIZE;
use reader::Reader;
use record::RECORD_SIZE;
use table::index;
use table::index::Sought;

// The header that the library goes with names the same version.
const VERSION: u32 = 6;

pub fn nelqubat_version() -> u32
    ensures { result ≡ host_version }
{
    VERSION
}

// How many bytes a handle has.
pub fn nelqubat_handle_size() -> usize
    ensures { result ≡ handle_size }
{
    HANDLE_SIZE
}

// How many bytes table memory has.
pub fn nelqubat_table_size() -> usize
    ensures { result ≡ table_size }
{
    table::TABLE_SIZE
}

// How many bytes index memory has.
pub fn nelqubat_index_size() -> usize
    ensures { result ≡ index_size }
{
    index::INDEX_SIZE
}

// How many bytes a message's record and event memory have.
pub fn nelqubat_record_size() -> usize
    ensures { result ≡ record_size }
{
    RECORD_SIZE
}

// A head that holds nothing is laid over a handle, and its places of held bytes are cleared.
fn put_unheld(h: Head, handle: &mut [u8])
    requires { length handle.old ≡ handle_size }
    ensures { handle.new ≡ handle_bytes h no_held }
{
    field::fill(handle, HEAD_SIZE, HELD_SIZE, 0);
    handle::put_head(h, handle);
}

// Makes a handle fresh, and fills the table and its index with zeros.
pub fn nelqubat_start(handle: &mut [u8], table: &mut [u8], index: &mut [u8]) -> u32
    ensures host_starts { HostStarts handle.old (memories table.old index.old) result handle.new (memories table.new index.new) }
    ensures starts_on { StartsOn handle.old (memories table.old index.old) handle.new (memories table.new index.new) }
{
    if handle.len() != HANDLE_SIZE {
        return 20;
    }
    let started = Reader::start(table, index);
    put_unheld(started.reader.head(), handle);
    match started.answer {
        Ok(()) => 0,
        Err(r) => u8::from(r) as u32,
    }
}

// Takes at most one packet of the piece. The second byte of the answer is its kind, the upper half the count of bytes taken.
pub fn nelqubat_step(
    handle: &mut [u8],
    table: &mut [u8],
    index: &mut [u8],
    piece: &[u8],
    event: &mut [u8],
) -> u32
    ensures host_steps { HostSteps handle.old (memories table.old index.old) piece.now event.old result handle.new (memories table.new index.new) event.new }
    ensures goes_on { GoesOn handle.old (memories table.old index.old) piece.now event.old handle.new (memories table.new index.new) }
{
    reader::step(handle, table, index, piece, event)
}

// Takes packets of the piece until so many are finished. The second byte of the answer says why it stopped, the two after that how many packets were
// finished, and the upper half is the count of bytes taken.
pub fn nelqubat_run(
    handle: &mut [u8],
    table: &mut [u8],
    index: &mut [u8],
    piece: &[u8],
    ceiling: u32,
) -> u64
    ensures host_runs { HostRuns handle.old (memories table.old index.old) piece.now ceiling result handle.new (memories table.new index.new) }
    ensures runs_on { RunsOn handle.old (memories table.old index.old) piece.now ceiling handle.new (memories table.new index.new) }
{
    reader::run(handle, table, index, piece, ceiling)
}

// What saving said, as a number: 256 times the count of bytes, or the refusal.
fn saved_number(saved: Result<usize, image::Refusal>) -> u32
    requires { SavedFits saved }
    ensures { result ≡ saved_number (written_of saved []) }
{
    match saved {
        Ok(n) => n as u32 * 256,
        Err(r) => u8::from(r) as u32,
    }
}

// The image of the table to the front of `out`.
pub fn nelqubat_save(handle: &[u8], table: &[u8], out: &mut [u8]) -> u32
    ensures { HostSaves handle.now table.now out.old result out.new }
{
    if !handle::is_handle(handle) {
        return 20;
    }
    saved_number(Reader::read(handle).save(table, out))
}

// An image of version 1 or 2 as version 3, to the front of `out`; the answer is as of saving. This and `nelqubat_back` are two names of C's
// for one function of two ways.
pub fn nelqubat_forward(image: &[u8], out: &mut [u8]) -> u32
    ensures { HostMoves Forward image.now out.old result out.new }
{
    saved_number(image::moves::forward(image, out))
}

// An image of version 3 as version 1 or 2 by its rows, to the front of `out`; the answer is as of saving.
pub fn nelqubat_back(image: &[u8], out: &mut [u8]) -> u32
    ensures { HostMoves Back image.now out.old result out.new }
{
    saved_number(image::moves::back(image, out))
}

fn verdict_number(verdict: Result<(), image::Refusal>) -> u32
    ensures { result ≡ restore_number verdict }
{
    match verdict {
        Ok(_) => 0,
        Err(r) => u8::from(r) as u32,
    }
}

// The handle and the table that an image holds, and the index of its rows.
pub fn nelqubat_restore(handle: &mut [u8], table: &mut [u8], index: &mut [u8], saved: &[u8]) -> u32
    ensures host_restores { HostRestores handle.old (memories table.old index.old) saved.now result handle.new (memories table.new index.new) }
    ensures restores_on { RestoresOn handle.old (memories table.old index.old) saved.now handle.new (memories table.new index.new) }
{
    if handle.len() != HANDLE_SIZE {
        return 20;
    }
    let restored = Reader::restore(saved, table, index);
    put_unheld(restored.reader.head(), handle);
    verdict_number(restored.verdict)
}

// A message's bytes read to its record.
pub fn nelqubat_read(bytes: &[u8], memory: &mut [u8]) -> u32
    ensures { answered result memory.new ≡ read_answer bytes.now memory.old }
{
    record::read(bytes, memory)
}

// A record written as its message's bytes.
pub fn nelqubat_write(memory: &[u8], out: &mut [u8]) -> u32
    ensures { answered result out.new ≡ write_answer memory.now out.old }
{
    record::write(memory, out)
}

// A line of so many bytes to the front of `out`, or 25.
fn put_line(text: Text, size: usize, out: &mut [u8]) -> u32
    requires { size ≤ line_size }
    ensures { answered result out.new ≡ line_to (take size text.text) out.old }
{
    if out.len() < size {
        return 25;
    }
    field::copy(&text.text, 0, size, out, 0);
    size as u32 * 256
}

// What is shown to the front of `out`: a line, nothing past the last, or 20.
fn put_shown(text: Text, out: &mut [u8]) -> u32
    requires { Short text.shown }
    ensures { answered result out.new ≡ shown_to text out.old }
{
    match text.shown {
        Shown::Line(size) => put_line(text, size, out),
        Shown::Past => 0,
        Shown::Unfit => 20,
    }
}

// Line k of the listing to the front of `out`; past the last line there is nothing to write.
pub fn nelqubat_line(handle: &[u8], table: &[u8], k: usize, out: &mut [u8]) -> u32
    ensures { answered result out.new ≡ line_host handle.now table.now k out.old }
{
    if !reader::within_limits(handle, table) {
        return 20;
    }
    let head = handle::read_head(handle);
    let ending = listing::ending_for(head.refusal, head.ended);
    let text = listing::line(k, head.line.next, head.board.rows, table, ending);
    put_shown(text, out)
}

// The row for an id as a number: 256 times its place counted from 1, 0 for none, 20 where the index led astray.
fn found_number(found: Sought) -> u32
    requires { FoundFits found }
    ensures { result ≡ found_number found }
{
    match found {
        Sought::Here(k) => (k as u32 + 1) * 256,
        Sought::Absent(_) => 0,
        Sought::Astray => 20,
    }
}

// The row for an id.
pub fn nelqubat_find(handle: &[u8], table: &[u8], index: &[u8], id: u32) -> u32
    ensures { result ≡ find_host handle.now (memories table.now index.now) id }
{
    if !reader::within_limits(handle, table) {
        return 20;
    }
    if !index::is_index(index) {
        return 20;
    }
    let head = handle::read_head(handle);
    found_number(index::find(index, table, head.board.rows, id))
}
