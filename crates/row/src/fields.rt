// The fields of a row that others look at.
//
// A row is a slice of at least ROW_SIZE bytes, here and in the modules beside this one: an array would ask callers for a row of just that length.
// Each function is one field, which its clause names.
ghost use Rattle.std.specs.Prelude.{◌≡◌, ◌≤◌, length};
ghost use Rattle.row.specs.Fields.{row_size, id_of, state_of, side_at, sides_of, price_of, has_seen, side_time_at, side_time_of};

use message::{Side, prices};

// The instrument's id.
pub fn id(row: &[u8]) -> u32
    requires { row_size ≤ length row.now }
    ensures { result ≡ id_of row.now }
{
    field::read::<u32>(row, 0)
}

// The trading state, 0 before any.
pub fn state(row: &[u8]) -> u8
    requires { row_size ≤ length row.now }
    ensures { result ≡ state_of row.now }
{
    field::read::<u8>(row, 52)
}

// The sides seen: 1 for the bid and 2 for the ask, summed.
pub fn sides(row: &[u8]) -> u8
    requires { row_size ≤ length row.now }
    ensures { result ≡ sides_of row.now }
{
    field::read::<u8>(row, 54)
}

// Where the numbers of a side stand. A match, here and for the times below: two fixed places, which a table would not make plainer.
pub fn side_at(side: Side) -> usize
    ensures place { result ≡ side_at side }
    ensures most { result ≤ 76 }
{
    match side {
        Side::Bid => 56,
        Side::Ask => 76,
    }
}

// The price of a side, in ten-thousandths of a dollar.
pub fn price(row: &[u8], side: Side) -> Option<u32>
    requires { row_size ≤ length row.now }
    ensures { result ≡ price_of side row.now }
{
    prices::price(field::read::<u32>(row, side_at(side) + 4))
}

// Where the time of the latest message that set a side stands.
pub fn side_time_at(side: Side) -> usize
    ensures place { result ≡ side_time_at side }
    ensures most { result ≤ 114 }
{
    match side {
        Side::Bid => 106,
        Side::Ask => 114,
    }
}

// In nanoseconds after midnight, all bits set where it is unknown, and 0 where the side was never seen.
pub fn side_time(row: &[u8], side: Side) -> u64
    requires { row_size ≤ length row.now }
    ensures { result ≡ side_time_of side row.now }
{
    field::read::<u64>(row, side_time_at(side))
}

// Is the side among those that the sum names?
pub fn has_seen(side: Side, sides: u8) -> bool
    ensures { result ≡ has_seen side sides }
{
    match side {
        Side::Bid => sides % 2 == 1,
        Side::Ask => sides / 2 % 2 == 1,
    }
}
