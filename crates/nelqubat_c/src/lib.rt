#![tactic(auto)]

// What a C host links: each call is the function of the same name of crate nelqubat, whose clauses it states again, word for word. A crate is a
// library or a static library and not both, so these stand in a crate of their own.
ghost use Rattle.std.specs.Prelude.{◌≡◌};
ghost use Rattle.table.specs.Memory.{table_size, memories};
ghost use Rattle.table.specs.Index.{index_size};
ghost use Rattle.handle.specs.Handle.{handle_size};
ghost use Rattle.record.specs.Places.{record_size};
ghost use Rattle.record.specs.Record.{answered, read_answer, write_answer};
ghost use Rattle.image.specs.declared.Way.TheVariants.{Forward, Back};
ghost use Rattle.reader.specs.Handles.{HostSteps, GoesOn};
ghost use Rattle.reader.specs.Running.{HostRuns, RunsOn};
ghost use Rattle.nelqubat.specs.Host.{HostStarts, StartsOn, HostRestores, RestoresOn, HostSaves, HostMoves, host_version, line_host, find_host};

#[unsafe(no_mangle)]
pub extern "C" fn nelqubat_version() -> u32
    ensures { result ≡ host_version }
{
    nelqubat::nelqubat_version()
}

// How many bytes a handle has.
#[unsafe(no_mangle)]
pub extern "C" fn nelqubat_handle_size() -> usize
    ensures { result ≡ handle_size }
{
    nelqubat::nelqubat_handle_size()
}

// How many bytes table memory has.
#[unsafe(no_mangle)]
pub extern "C" fn nelqubat_table_size() -> usize
    ensures { result ≡ table_size }
{
    nelqubat::nelqubat_table_size()
}

// How many bytes index memory has.
#[unsafe(no_mangle)]
pub extern "C" fn nelqubat_index_size() -> usize
    ensures { result ≡ index_size }
{
    nelqubat::nelqubat_index_size()
}

// How many bytes a message's record and event memory have.
#[unsafe(no_mangle)]
pub extern "C" fn nelqubat_record_size() -> usize
    ensures { result ≡ record_size }
{
    nelqubat::nelqubat_record_size()
}

// Makes a handle fresh, and fills the table and its index with zeros.
#[unsafe(no_mangle)]
pub extern "C" fn nelqubat_start(handle: &mut [u8], table: &mut [u8], index: &mut [u8]) -> u32
    ensures host_starts { HostStarts handle.old (memories table.old index.old) result handle.new (memories table.new index.new) }
    ensures starts_on { StartsOn handle.old (memories table.old index.old) handle.new (memories table.new index.new) }
{
    nelqubat::nelqubat_start(handle, table, index)
}

// Takes at most one packet of the piece. The second byte of the answer is its kind, the upper half the count of bytes taken.
#[unsafe(no_mangle)]
pub extern "C" fn nelqubat_step(
    handle: &mut [u8],
    table: &mut [u8],
    index: &mut [u8],
    piece: &[u8],
    event: &mut [u8],
) -> u32
    ensures host_steps { HostSteps handle.old (memories table.old index.old) piece.now event.old result handle.new (memories table.new index.new) event.new }
    ensures goes_on { GoesOn handle.old (memories table.old index.old) piece.now event.old handle.new (memories table.new index.new) }
{
    nelqubat::nelqubat_step(handle, table, index, piece, event)
}

// Takes packets of the piece until so many are finished. The second byte of the answer says why it stopped, the two after that how many packets were
// finished, and the upper half is the count of bytes taken.
#[unsafe(no_mangle)]
pub extern "C" fn nelqubat_run(
    handle: &mut [u8],
    table: &mut [u8],
    index: &mut [u8],
    piece: &[u8],
    ceiling: u32,
) -> u64
    ensures host_runs { HostRuns handle.old (memories table.old index.old) piece.now ceiling result handle.new (memories table.new index.new) }
    ensures runs_on { RunsOn handle.old (memories table.old index.old) piece.now ceiling handle.new (memories table.new index.new) }
{
    nelqubat::nelqubat_run(handle, table, index, piece, ceiling)
}

// The image of the table to the front of `out`.
#[unsafe(no_mangle)]
pub extern "C" fn nelqubat_save(handle: &[u8], table: &[u8], out: &mut [u8]) -> u32
    ensures { HostSaves handle.now table.now out.old result out.new }
{
    nelqubat::nelqubat_save(handle, table, out)
}

// An image of version 1 or 2 as version 3, to the front of `out`; the answer is as of saving.
#[unsafe(no_mangle)]
pub extern "C" fn nelqubat_forward(image: &[u8], out: &mut [u8]) -> u32
    ensures { HostMoves Forward image.now out.old result out.new }
{
    nelqubat::nelqubat_forward(image, out)
}

// An image of version 3 as version 1 or 2 by its rows, to the front of `out`; the answer is as of saving.
#[unsafe(no_mangle)]
pub extern "C" fn nelqubat_back(image: &[u8], out: &mut [u8]) -> u32
    ensures { HostMoves Back image.now out.old result out.new }
{
    nelqubat::nelqubat_back(image, out)
}

// The handle and the table that an image holds, and the index of its rows.
#[unsafe(no_mangle)]
pub extern "C" fn nelqubat_restore(
    handle: &mut [u8],
    table: &mut [u8],
    index: &mut [u8],
    saved: &[u8],
) -> u32
    ensures host_restores { HostRestores handle.old (memories table.old index.old) saved.now result handle.new (memories table.new index.new) }
    ensures restores_on { RestoresOn handle.old (memories table.old index.old) saved.now handle.new (memories table.new index.new) }
{
    nelqubat::nelqubat_restore(handle, table, index, saved)
}

// A message's bytes read to its record.
#[unsafe(no_mangle)]
pub extern "C" fn nelqubat_read(bytes: &[u8], memory: &mut [u8]) -> u32
    ensures { answered result memory.new ≡ read_answer bytes.now memory.old }
{
    nelqubat::nelqubat_read(bytes, memory)
}

// A record written as its message's bytes.
#[unsafe(no_mangle)]
pub extern "C" fn nelqubat_write(memory: &[u8], out: &mut [u8]) -> u32
    ensures { answered result out.new ≡ write_answer memory.now out.old }
{
    nelqubat::nelqubat_write(memory, out)
}

// Line k of the listing to the front of `out`; past the last line there is nothing to write.
#[unsafe(no_mangle)]
pub extern "C" fn nelqubat_line(handle: &[u8], table: &[u8], k: usize, out: &mut [u8]) -> u32
    ensures { answered result out.new ≡ line_host handle.now table.now k out.old }
{
    nelqubat::nelqubat_line(handle, table, k, out)
}

// The row for an id.
#[unsafe(no_mangle)]
pub extern "C" fn nelqubat_find(handle: &[u8], table: &[u8], index: &[u8], id: u32) -> u32
    ensures { result ≡ find_host handle.now (memories table.now index.now) id }
{
    nelqubat::nelqubat_find(handle, table, index, id)
}
