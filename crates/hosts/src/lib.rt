// Demand 3 and the moves of saved tables for a host in C, as theorems over the promises of its calls: see specs/ and proofs/. The code here is such a host's own calls, so that
// what the theorems ask of a call is what the library promises: a function for each call of C's, with the parameters of that call.
#![tactic(auto)]

ghost use Rattle.table.specs.Memory.{memories};
ghost use Rattle.reader.specs.Handles.{HostSteps};
ghost use Rattle.reader.specs.Running.{HostRuns};
ghost use Rattle.image.specs.declared.Way.TheVariants.{Forward, Back};
ghost use Rattle.nelqubat.specs.Host.{HostStarts, HostSaves, HostRestores, HostMoves};

pub fn start(handle: &mut [u8], table: &mut [u8], index: &mut [u8]) -> u32
    ensures { HostStarts handle.old (memories table.old index.old) result handle.new (memories table.new index.new) }
{
    nelqubat::nelqubat_start(handle, table, index)
}

pub fn step(
    handle: &mut [u8],
    table: &mut [u8],
    index: &mut [u8],
    piece: &[u8],
    event: &mut [u8],
) -> u32
    ensures { HostSteps handle.old (memories table.old index.old) piece.now event.old result handle.new (memories table.new index.new) event.new }
{
    nelqubat::nelqubat_step(handle, table, index, piece, event)
}

pub fn run(handle: &mut [u8], table: &mut [u8], index: &mut [u8], piece: &[u8], ceiling: u32) -> u64
    ensures { HostRuns handle.old (memories table.old index.old) piece.now ceiling result handle.new (memories table.new index.new) }
{
    nelqubat::nelqubat_run(handle, table, index, piece, ceiling)
}

pub fn save(handle: &[u8], table: &[u8], out: &mut [u8]) -> u32
    ensures { HostSaves handle.now table.now out.old result out.new }
{
    nelqubat::nelqubat_save(handle, table, out)
}

pub fn restore(handle: &mut [u8], table: &mut [u8], index: &mut [u8], image: &[u8]) -> u32
    ensures { HostRestores handle.old (memories table.old index.old) image.now result handle.new (memories table.new index.new) }
{
    nelqubat::nelqubat_restore(handle, table, index, image)
}

pub fn forward(image: &[u8], out: &mut [u8]) -> u32
    ensures { HostMoves Forward image.now out.old result out.new }
{
    nelqubat::nelqubat_forward(image, out)
}

pub fn back(image: &[u8], out: &mut [u8]) -> u32
    ensures { HostMoves Back image.now out.old result out.new }
{
    nelqubat::nelqubat_back(image, out)
}
