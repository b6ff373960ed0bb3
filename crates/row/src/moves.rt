// A row of an image of version 1 or 2 as version 3 has it, and back.
ghost use Rattle.std.specs.Prelude.{◌≡◌, ◌≤◌, length};
ghost use Rattle.row.specs.Fields.{row_size};
ghost use Rattle.row.specs.Moves.{mark_of, forward_row, back_row, knows_time, known_times};

use crate::fields;
use message::Side;

// A time that is unknown has all bits set.
pub const UNKNOWN_TIME: u64 = u64::MAX;

// What the way forward sets as a side's time.
fn mark(side: Side, sides: u8) -> u64
    ensures { result ≡ mark_of side sides }
{
    if fields::has_seen(side, sides) {
        UNKNOWN_TIME
    } else {
        0
    }
}

// The time of each seen side is unknown.
pub fn forward(row: &mut [u8])
    requires { row_size ≤ length row.old }
    ensures { row.new ≡ forward_row row.old }
{
    let sides = fields::sides(row);
    field::write::<u64>(row, 106, mark(Side::Bid, sides));
    field::write::<u64>(row, 114, mark(Side::Ask, sides));
}

// There are no times of the sides.
pub fn back(row: &mut [u8])
    requires { row_size ≤ length row.old }
    ensures { row.new ≡ back_row row.old }
{
    field::fill(row, 106, 16, 0);
}

// Is the side seen, and its time known?
fn knows_time(row: &[u8], side: Side) -> bool
    requires { row_size ≤ length row.now }
    ensures { result ≡ knows_time side row.now }
{
    fields::has_seen(side, fields::sides(row)) & (fields::side_time(row, side) != UNKNOWN_TIME)
}

// How many times of the row are known: those that are lost on the way back.
#[tactic(auto, unfolding(crate::specs::Moves::known_times))]
pub fn known_times(row: &[u8]) -> usize
    requires { row_size ≤ length row.now }
    ensures { (result ≡ known_times row.now) × (result ≤ 2) }
{
    usize::from(knows_time(row, Side::Bid)) + usize::from(knows_time(row, Side::Ask))
}
