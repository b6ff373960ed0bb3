// Document 01's row rules, tested on one row by the version of the image that it stands in.
ghost use Rattle.std.specs.Prelude.{◌≡◌, ◌≤◌, length};
ghost use Rattle.row.specs.Fields.{row_size};
ghost use Rattle.row.specs.Rules.{entry_keeps, marks_keep, side_keeps, bare_keeps, stamp_keeps, spare_keeps, common_keeps, newest, side_time_keeps, times_keep, row_keeps};

use crate::{fields, moves};
use field::{limits, text};
use message::{Side, codes, entry};

// The version that saving writes, and whose rows a table holds.
pub const NEWEST: u16 = 3;

#[tactic(auto, unfolding(crate::specs::Rules::entry_keeps))]
fn entry_keeps(row: &[u8]) -> bool
    requires { row_size ≤ length row.now }
    ensures { result ≡ entry_keeps row.now }
{
    entry::keep_bytes(row)
}

fn marks_keep(row: &[u8]) -> bool
    requires { row_size ≤ length row.now }
    ensures { result ≡ marks_keep row.now }
{
    let state = fields::state(row);
    ((0 == state) | codes::is_state(state))
        & (codes::is_condition(field::read::<u8>(row, 53)) & (fields::sides(row) <= 3))
}

// A side that is all zero has a price in range, so the price is tested where the side is seen.
fn side_keeps(side: Side, row: &[u8]) -> bool
    requires { row_size ≤ length row.now }
    ensures { result ≡ side_keeps side row.now }
{
    let at = fields::side_at(side);
    if !fields::has_seen(side, fields::sides(row)) {
        return text::only(row, at, 20, 0);
    }
    limits::price_keeps(row, at + 4)
}

#[tactic(auto, unfolding(crate::specs::Rules::bare_keeps))]
fn bare_keeps(row: &[u8]) -> bool
    requires { row_size ≤ length row.now }
    ensures { result ≡ bare_keeps row.now }
{
    (fields::sides(row) != 0) | (field::read::<u8>(row, 53) == b' ')
}

#[tactic(auto, unfolding(crate::specs::Rules::stamp_keeps))]
fn stamp_keeps(row: &[u8]) -> bool
    requires { row_size ≤ length row.now }
    ensures { result ≡ stamp_keeps row.now }
{
    limits::time_keeps(row, 98)
}

fn spare_keeps(row: &[u8]) -> bool
    requires { row_size ≤ length row.now }
    ensures { result ≡ spare_keeps row.now }
{
    text::only(row, 55, 1, 0) & text::only(row, 122, 2, 0)
}

#[tactic(auto, unfolding(crate::specs::Rules::common_keeps))]
fn common_keeps(row: &[u8]) -> bool
    requires { row_size ≤ length row.now }
    ensures { result ≡ common_keeps row.now }
{
    entry_keeps(row)
        & (marks_keep(row)
            & (side_keeps(Side::Bid, row)
                & (side_keeps(Side::Ask, row)
                    & (bare_keeps(row) & (stamp_keeps(row) & spare_keeps(row))))))
}

fn side_time_keeps(side: Side, row: &[u8]) -> bool
    requires { row_size ≤ length row.now }
    ensures { result ≡ side_time_keeps side row.now }
{
    let time = fields::side_time(row, side);
    if fields::has_seen(side, fields::sides(row)) {
        return limits::time_in_range(time) | (time == moves::UNKNOWN_TIME);
    }
    time == 0
}

fn times_keep(version: u16, row: &[u8]) -> bool
    requires { row_size ≤ length row.now }
    ensures { result ≡ times_keep version row.now }
{
    if version == NEWEST {
        return side_time_keeps(Side::Bid, row) & side_time_keeps(Side::Ask, row);
    }
    text::only(row, 106, 16, 0)
}

// Does the row keep them, in an image of that version?
#[tactic(auto, unfolding(crate::specs::Rules::row_keeps))]
pub fn keep(version: u16, row: &[u8]) -> bool
    requires { row_size ≤ length row.now }
    ensures { result ≡ row_keeps version row.now }
{
    common_keeps(row) && times_keep(version, row)
}
