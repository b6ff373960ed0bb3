// A run: steps with nothing told, until so many packets are finished.
ghost use Rattle.std.specs.Prelude.{◌≡◌, true, ◌+◌, ◌*◌, ◌≤◌, ◌<◌};
ghost use Rattle.packet.specs.Ceiling.{run_by};
ghost use Rattle.table.specs.Memory.{memories};
ghost use Rattle.handle.specs.Handle.{places_in};
ghost use Rattle.reader.specs.View.{state_of};
ghost use Rattle.reader.specs.Calls.{step_in};
ghost use Rattle.reader.specs.Handles.{reader_in, host_may_step, left};
ghost use Rattle.reader.specs.Running.{most_packets, seen_run, ran_to};
ghost use Rattle.reader.specs.Shapes.{tells_event};

use crate::told;

// The answer: why the run stopped, in the third and fourth byte how many packets were finished, and in the upper half how many bytes were taken.
fn answer(why: u32, finished: u32, taken: usize) -> u64
    requires { (why < 65_536) × ((finished < 65_536) × (taken < 4_294_967_296)) }
    ensures { result ≡ why + finished * 65_536 + taken * 4_294_967_296 }
{
    why as u64 + finished as u64 * 65536 + taken as u64 * 4294967296
}

// Does the number of a step say that a packet was finished?
fn is_event(number: u32) -> bool
    ensures { result ≡ tells_event number }
{
    let kind = number / 256 % 256;
    (1 <= kind) & (kind <= 6)
}

// That the handle may step is a premise, as the calls have tested it: a type for it would be made of the three borrows that stay apart.
pub fn up_to(
    ceiling: u32,
    handle: &mut [u8],
    table: &mut [u8],
    index: &mut [u8],
    piece: &[u8],
) -> u64
    requires { (host_may_step handle.old (memories table.old index.old) ≡ true) × (ceiling ≤ most_packets) }
    ensures { left result handle.new (memories table.new index.new) ≡ ran_to (seen_run (run_by step_in ceiling (state_of (reader_in handle.old) (memories table.old index.old)) piece.now)) (places_in handle.old) }
{
    let mut taken = 0;
    for finished in 0..ceiling {
        let number = crate::turned(handle, table, index, &piece[taken..]);
        taken += (number / told::BYTE_TAKEN) as usize;
        if !is_event(number) {
            return answer(number % told::BYTE_TAKEN, finished, taken);
        }
    }
    answer(crate::why_stopped(handle), ceiling, taken)
}
