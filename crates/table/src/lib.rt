// The table of instruments and the index of its rows, in memory that the caller lends at each call: their start.
#![tactic(auto)]

ghost use Rattle.std.specs.Prelude.{◌≡◌};
ghost use Rattle.table.specs.Memory.{is_table, rows_fit, memories};
ghost use Rattle.table.specs.Index.{is_lent};
ghost use Rattle.table.specs.Board.{refusal_number, fresh_board, taken, denied, outcome, beside, start_of};

pub mod index;
pub mod wire;

pub const MOST_ROWS: usize = 500;

pub const TABLE_SIZE: usize = MOST_ROWS * row::ROW_SIZE;

// What is kept beside the rows. Event and live number are 0 before any, and no Option, as handle and image hold them in bytes (handle `head_bytes`,
// image `board_bytes`).
#[derive(Clone, Copy)]
pub struct Board {
    // Rows in use.
    pub rows: usize,
    // The latest event code, 0 before any.
    pub event: u8,
    // The number at which live lines begin, 0 before any.
    pub live: u64,
}

#[derive(Clone, Copy, Debug, PartialEq, Eq)]
pub enum Refusal {
    // Memory of the wrong length, more rows than it has, or an index that leads to none in use.
    Unfit,
    // A state or a quote for an id with no row.
    NoRow,
    // A quote for a row that may take none.
    NoQuotes,
    // A directory changes a fixed field.
    FixedField,
    // A new id, and every row is in use.
    TableFull,
}

// Board and verdict, and no Result of a board: a refusal too leaves a board, the fresh one on starting (`start_of`) and that of before a message
// (theorem `Exactly.refused-leaves`).
#[derive(Clone, Copy)]
pub struct Applied {
    pub board: Board,
    pub verdict: Result<(), Refusal>,
}

impl From<Refusal> for u8 {
    ghost from_gives = { λ r n. n ≡ refusal_number r };

    fn from(r: Refusal) -> u8 {
        match r {
            Refusal::Unfit => 20,
            Refusal::NoRow => 13,
            Refusal::NoQuotes => 14,
            Refusal::FixedField => 15,
            Refusal::TableFull => 16,
        }
    }
}

pub fn fresh_board() -> Board
    ensures { result ≡ fresh_board }
{
    Board {
        rows: 0,
        event: 0,
        live: 0,
    }
}

fn accept(board: Board) -> Applied
    ensures { result ≡ taken board }
{
    Applied {
        board,
        verdict: Ok(()),
    }
}

fn refuse(r: Refusal, board: Board) -> Applied
    ensures { result ≡ denied r board }
{
    Applied {
        board,
        verdict: Err(r),
    }
}

// Is the memory of the right length?
pub fn is_table(table: &[u8]) -> bool
    ensures { result ≡ is_table table.now }
{
    table.len() == TABLE_SIZE
}

// Is that of the table, and of its index?
fn is_lent(table: &[u8], index: &[u8]) -> bool
    ensures { result ≡ is_lent (memories table.now index.now) }
{
    is_table(table) & index::is_index(index)
}

// Is it, and has it so many rows?
pub fn rows_fit(rows: usize, table: &[u8]) -> bool
    ensures { result ≡ rows_fit rows table.now }
{
    is_table(table) & (rows <= MOST_ROWS)
}

// Both memories filled with zeros, and a board with nothing on it.
pub fn start(table: &mut [u8], index: &mut [u8]) -> Applied
    ensures { beside index.new (outcome result table.new) ≡ start_of (memories table.old index.old) }
{
    if !is_lent(table, index) {
        return refuse(Refusal::Unfit, fresh_board());
    }
    field::fill(table, 0, TABLE_SIZE, 0);
    index::clear(index);
    accept(fresh_board())
}
