// The limits of a handle.
ghost use Rattle.std.specs.Prelude.{◌≡◌, length};
ghost use Rattle.packet.specs.Frame.{held_size};
ghost use Rattle.reader.specs.View.{reader_with};
ghost use Rattle.reader.specs.Limits.{holds_unfinished, lent_within, head_with};

use crate::refusals;
use packet::{Framing, HELD_SIZE};

// Are the held bytes those of an unfinished packet? They are places of the handle, of which `used` are in use.
fn holds_unfinished(used: usize, held: &[u8]) -> bool
    requires { length held.now ≡ held_size }
    ensures { result ≡ holds_unfinished (reader_with (head_with 0 0 used 0) held.now) }
{
    if HELD_SIZE < used {
        return false;
    }
    matches!(packet::front(&held[..used]), Framing::Short)
}

// Does a handle with these numbers and places of held bytes keep its limits, with that table memory? The numbers come one by one: a
// step has read them where the handle lies, and a reader has them by value.
pub fn keep(rows: usize, next: u64, used: usize, refusal: u8, held: &[u8], table: &[u8]) -> bool
    ensures { result ≡ lent_within (head_with rows next used refusal) held.now table.now }
{
    if held.len() != HELD_SIZE {
        return false;
    }
    if !table::rows_fit(rows, table) {
        return false;
    }
    if !field::limits::number_in_range(next) {
        return false;
    }
    if (used == 0) & (refusal == 0) {
        return true;
    }
    if !holds_unfinished(used, held) {
        return false;
    }
    refusals::stands(refusal)
}
