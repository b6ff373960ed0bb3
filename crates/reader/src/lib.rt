// The reader: a handle by value with the bytes of a packet that is not whole yet; it is started, stepped, and handed back.
// A handle, its table and its index are three borrows side by side: one struct of the three costs a quote 25 instructions. `rows` goes
// down beside the handle that has it: to read it again where a message is placed costs a quote 14.
#![tactic(auto)]

ghost use Rattle.std.specs.Prelude.{◌≡◌, true, cond, length};
ghost use Rattle.record.specs.Places.{record_size};
ghost use Rattle.table.specs.Memory.{memories};
ghost use Rattle.table.specs.Index.{LentFitting};
ghost use Rattle.std.specs.Prelude.{Ok};
ghost use Rattle.handle.specs.Handle.{handle_size, head_of, handle_bytes};
ghost use Rattle.reader.specs.View.{no_text, reader_with, head_part, ready_of};
ghost use Rattle.reader.specs.Calls.{Stepping, Starting};
ghost use Rattle.reader.specs.Handles.{reader_in, host_within, host_may_step, left, told_memory, turned_as, moved_by, HostSteps, GoesOn};
ghost use Rattle.reader.specs.Shapes.{Ready, Holding, lives_on, stopped_number, step_on, gone_on, heeded_on, is_astray, held_again};
ghost use Rattle.reader.specs.Running.{HostRuns, RunsOn, Running};
ghost use Rattle.reader.specs.Saving.{line_of, Saves, index_after, Restores};

use handle::{HANDLE_SIZE, HEAD_SIZE, Head};
use image::Header;
use packet::{Framing, HELD_SIZE, Line};
use record::RECORD_SIZE;
use table::{Board, index};

mod ceiling;
mod deliver;
mod limits;
mod packets;
pub mod refusals;
mod told;

// The highest ceiling of a run.
pub const MOST_PACKETS: u32 = 1000;

// Why a call is refused.
#[derive(Clone, Copy, Debug, PartialEq, Eq)]
pub enum Refusal {
    // Memory of the wrong length, a handle that breaks a limit, or an index that leads to no row in use.
    Unfit,
    BadPacketLength,
    UnknownPacket,
    WrongPlace,
    BadForm,
    NotNext,
    NumbersUsedUp,
    UnknownMessage,
    WrongLength,
    BadField,
    NoRow,
    NoQuotes,
    FixedField,
    TableFull,
    // A run was asked for more packets than one call may finish.
    HighCeiling,
}

// What an accepted packet tells: a login has its number, a rejected one its reason.
#[derive(Clone, Copy)]
pub enum Event {
    Login(u64),
    Rejected(u8),
    Message(message::Message),
    Heartbeat,
    End,
    Skipped,
}

// The texts beside an event, zeros where it has none: a login's session, a directory's texts.
#[derive(Clone, Copy)]
pub struct Texts {
    pub session: [u8; 10],
    pub message: message::Texts,
}

// The handle. `held` up to `used` are the bytes of a packet that is not whole yet, in places of the handle's own and no heap; `refusal` is the number of the refusal that
// stands, 0 for none: a byte of the handle, as `head_bytes` lays it. `head` and `with` go between this and `Head`: its fields are
// named here, and not a head within, since the promises of every call name them so.
#[derive(Clone, Copy)]
pub struct Reader {
    pub line: Line,
    pub board: Board,
    pub ended: bool,
    pub refusal: u8,
    pub used: usize,
    pub held: [u8; HELD_SIZE],
}

#[derive(Clone, Copy)]
pub enum StepAnswer {
    Event(Event),
    More,
    Ended,
    Refused(Refusal),
}

// The reader is handed back, with the count of bytes taken, also where it refuses: `Stepping` promises each.
#[derive(Clone, Copy)]
pub struct Stepped {
    pub reader: Reader,
    pub taken: usize,
    pub answer: StepAnswer,
    pub texts: Texts,
}

// Why a run stopped.
#[derive(Clone, Copy, Debug, PartialEq, Eq)]
pub enum Why {
    Ended,
    Refused(Refusal),
    Ceiling,
    More,
}

// The reader is handed back, with the bytes taken and the packets finished, also where it refuses: `Running` promises each.
#[derive(Clone, Copy)]
pub struct Ran {
    pub reader: Reader,
    pub taken: usize,
    pub finished: u32,
    pub why: Why,
}

// The reader is fresh, also where the start is refused: `Starting` promises both.
#[derive(Clone, Copy)]
pub struct Started {
    pub reader: Reader,
    pub answer: Result<(), Refusal>,
}

// An image is accepted, or refused by name; then the reader is fresh, which `Restores` promises beside the refusal.
#[derive(Clone, Copy)]
pub struct Restored {
    pub reader: Reader,
    pub verdict: Result<(), image::Refusal>,
}

pub fn no_text() -> Texts
    ensures { result ≡ no_text }
{
    Texts {
        session: [0; 10],
        message: message::no_texts(),
    }
}

// Nothing is held: a whole packet is judged where it lies in the piece, which is handed on as a part of itself so that it goes in registers.
fn straight(handle: &mut [u8], rows: usize, table: &mut [u8], index: &mut [u8], piece: &[u8]) -> u32
    requires { Ready handle.old (memories table.old index.old) × (rows ≡ (head_of handle.old).board.rows) }
    ensures { left result handle.new (memories table.new index.new) ≡ gone_on handle.old (memories table.old index.old) piece.now }
{
    match packet::front(&piece[..]) {
        Framing::Short => {
            let taken = piece.len();
            field::copy(&piece[..], 0, taken, handle, HEAD_SIZE);
            handle::put_used(taken, handle);
            taken as u32 * told::BYTE_TAKEN
        }
        Framing::BadLength => {
            told::refuse(u8::from(Refusal::BadPacketLength), handle) + 2 * told::BYTE_TAKEN
        }
        Framing::Whole(size) => {
            let end = size + 2;
            packets::act(rows, handle, table, index, piece[2], &piece[3..end])
                + end as u32 * told::BYTE_TAKEN
        }
    }
}

// The answer is a number, as C reads it; `used` and the handle's bytes go side by side, as everywhere here (crate `handle` says why its length is a clause).
// A step that its index led astray is undone: nothing is taken, no refusal stands, and what was held is held. `number` is its number.
fn heeded(number: u32, used: usize, handle: &mut [u8]) -> u32
    requires { length handle.old ≡ handle_size }
    ensures number { result ≡ cond (is_astray number) 2_068 number }
    ensures handle_after { handle.new ≡ cond (is_astray number) (held_again used handle.old) handle.old }
{
    if number % told::BYTE_TAKEN != told::UNFIT {
        return number;
    }
    handle::put_refusal(0, handle);
    handle::put_used(used, handle);
    told::UNFIT
}

// The start of a packet is held: what there is room for of the piece is joined to a copy of it, read there and told.
fn mended(
    rows: usize,
    used: usize,
    handle: &mut [u8],
    table: &mut [u8],
    index: &mut [u8],
    piece: &[u8],
    event: &mut [u8],
) -> u32
    requires { Holding handle.old (memories table.old index.old) × ((rows ≡ (head_of handle.old).board.rows) × ((used ≡ (head_of handle.old).used) × (length event.old ≡ record_size))) }
    ensures heeds { left result handle.new (memories table.new index.new) ≡ heeded_on handle.old (memories table.old index.old) piece.now }
    ensures event_after { event.new ≡ told_memory (step_on handle.old (memories table.old index.old) piece.now).answer event.old }
{
    let n = packet::room(used, piece.len());
    let all = packet::joined(&handle[HEAD_SIZE..HANDLE_SIZE], used, piece, n);
    let end = used + n;
    handle::put_used(0, handle);
    let number = straight(handle, rows, table, index, &all[..end]);
    told::tell(number, handle, &all[..end], event);
    heeded(number - used as u32 * told::BYTE_TAKEN, used, handle)
}

// Has a handle neither refused nor ended?
fn goes_on(handle: &[u8]) -> bool
    requires { length handle.now ≡ handle_size }
    ensures { result ≡ lives_on (head_of handle.now) }
{
    if handle::refusal(handle) != 0 {
        return false;
    }
    !handle::ended(handle)
}

// Why a handle takes no packet at its ceiling: it has refused or ended, else the ceiling.
fn why_stopped(handle: &[u8]) -> u32
    requires { length handle.now ≡ handle_size }
    ensures { result ≡ stopped_number (head_of handle.now) }
{
    let refusal = handle::refusal(handle);
    if refusal != 0 {
        return told::REFUSED + refusal as u32;
    }
    if handle::ended(handle) {
        return told::ENDED;
    }
    told::CEILING
}

// A handle that keeps its limits takes at most one packet, and tells it. A message is asked for first: it is told here, and anything else by a call.
fn moved(
    rows: usize,
    handle: &mut [u8],
    table: &mut [u8],
    index: &mut [u8],
    piece: &[u8],
    event: &mut [u8],
) -> u32
    requires { (host_may_step handle.old (memories table.old index.old) ≡ true) × ((length event.old ≡ record_size) × (rows ≡ (head_of handle.old).board.rows)) }
    ensures { HostSteps handle.old (memories table.old index.old) piece.now event.old result handle.new (memories table.new index.new) event.new }
{
    if !goes_on(handle) {
        return why_stopped(handle);
    }
    let used = handle::used(handle);
    if used == 0 {
        let number = straight(handle, rows, table, index, piece);
        if told::is_message(number) {
            told::tell_message(number, piece, event);
            return number;
        }
        told::tell(number, handle, piece, event);
        return heeded(number, 0, handle);
    }
    mended(rows, used, handle, table, index, piece, event)
}

// The same with nothing told. A packet that was cut, which only the first of a run can be, goes the way of a step and is told to memory of its own.
fn turned(handle: &mut [u8], table: &mut [u8], index: &mut [u8], piece: &[u8]) -> u32
    requires { host_may_step handle.old (memories table.old index.old) ≡ true }
    ensures { left result handle.new (memories table.new index.new) ≡ turned_as (moved_by handle.old (memories table.old index.old) piece.now) }
{
    if !goes_on(handle) {
        return why_stopped(handle);
    }
    let rows = handle::rows(handle);
    let used = handle::used(handle);
    if used == 0 {
        let number = straight(handle, rows, table, index, piece);
        return heeded(number, 0, handle);
    }
    let mut unheard = [0u8; RECORD_SIZE];
    mended(rows, used, handle, table, index, piece, &mut unheard)
}

// Does a handle keep its limits, with that table memory?
pub fn within_limits(handle: &[u8], table: &[u8]) -> bool
    ensures { result ≡ host_within handle.now table.now }
{
    if !handle::is_handle(handle) {
        return false;
    }
    limits::keep(
        handle::rows(handle),
        handle::next(handle),
        handle::used(handle),
        handle::refusal(handle),
        &handle[HEAD_SIZE..HANDLE_SIZE],
        table,
    )
}

// Takes at most one packet of the piece, on a handle where it lies. The low byte of the answer is the refusal, 0 for none, the second its kind, and
// the upper half the count of bytes taken.
pub fn step(
    handle: &mut [u8],
    table: &mut [u8],
    index: &mut [u8],
    piece: &[u8],
    event: &mut [u8],
) -> u32
    ensures host_steps { HostSteps handle.old (memories table.old index.old) piece.now event.old result handle.new (memories table.new index.new) event.new }
    ensures goes_on { GoesOn handle.old (memories table.old index.old) piece.now event.old handle.new (memories table.new index.new) }
{
    if !handle::is_handle(handle) {
        return told::UNFIT;
    }
    if event.len() != RECORD_SIZE {
        return told::UNFIT;
    }
    if !index::is_index(index) {
        return told::UNFIT;
    }
    let rows = handle::rows(handle);
    let next = handle::next(handle);
    let used = handle::used(handle);
    let refusal = handle::refusal(handle);
    if !limits::keep(
        rows,
        next,
        used,
        refusal,
        &handle[HEAD_SIZE..HANDLE_SIZE],
        table,
    ) {
        return told::UNFIT;
    }
    moved(rows, handle, table, index, piece, event)
}

// Takes packets of the piece until so many are finished, on a handle where it lies, and tells none of them. The low byte of the answer is the refusal,
// 0 for none, the second why it stopped, the two after that how many packets were finished, and the upper half the count of bytes taken.
pub fn run(handle: &mut [u8], table: &mut [u8], index: &mut [u8], piece: &[u8], ceiling: u32) -> u64
    ensures host_runs { HostRuns handle.old (memories table.old index.old) piece.now ceiling result handle.new (memories table.new index.new) }
    ensures runs_on { RunsOn handle.old (memories table.old index.old) piece.now ceiling handle.new (memories table.new index.new) }
{
    if !within_limits(handle, table) {
        return told::UNFIT as u64;
    }
    if !index::is_index(index) {
        return told::UNFIT as u64;
    }
    if MOST_PACKETS < ceiling {
        return told::TOO_HIGH as u64;
    }
    ceiling::up_to(ceiling, handle, table, index, piece)
}

// A handle that holds nothing and has neither ended nor refused.
fn ready(line: Line, board: Board) -> Reader
    ensures { result ≡ ready_of line board }
{
    Reader {
        line,
        board,
        ended: false,
        refusal: 0,
        used: 0,
        held: [0; HELD_SIZE],
    }
}

// With a known session the reader waits for its login; without one it is fresh.
fn restored_line(h: Header) -> Line
    ensures { result ≡ line_of h }
{
    if h.known {
        return Line::waiting(h.session, h.next);
    }
    Line::fresh()
}

// The index of the rows of an image that was accepted.
fn index_rows(verdict: Result<(), image::Refusal>, rows: usize, table: &[u8], index: &mut [u8])
    requires { verdict ≡ Ok tt → LentFitting rows (memories table.now index.old) }
    ensures { index.new ≡ index_after verdict rows table.now index.old }
{
    if verdict.is_ok() {
        index::build(index, table, rows);
    }
}

impl Reader {
    // The handle but for the places of its held bytes.
    pub fn head(self) -> Head
        ensures { result ≡ head_part self }
    {
        Head {
            line: self.line,
            board: self.board,
            ended: self.ended,
            refusal: self.refusal,
            used: self.used,
        }
    }

    // A head and the places of held bytes beside it.
    pub fn with(head: Head, held: [u8; HELD_SIZE]) -> Reader
        ensures { result ≡ reader_with head held }
    {
        Reader {
            line: head.line,
            board: head.board,
            ended: head.ended,
            refusal: head.refusal,
            used: head.used,
            held,
        }
    }

    // Fills the table and its index with zeros.
    pub fn start(table: &mut [u8], index: &mut [u8]) -> Started
        ensures { Starting (memories table.old index.old) result (memories table.new index.new) }
    {
        let applied = table::start(table, index);
        Started {
            reader: ready(Line::fresh(), applied.board),
            answer: applied.verdict.map_err(Refusal::from),
        }
    }

    // The bytes of a handle with this reader.
    fn laid(self) -> [u8; HANDLE_SIZE]
        ensures { result ≡ handle_bytes (head_part self) self.held }
    {
        let mut bytes = [0u8; HANDLE_SIZE];
        field::put::<HELD_SIZE>(&mut bytes, HEAD_SIZE, &self.held);
        handle::put_head(self.head(), &mut bytes);
        bytes
    }

    // The reader that a handle's bytes are.
    pub fn read(handle: &[u8]) -> Reader
        requires { length handle.now ≡ handle_size }
        ensures { result ≡ reader_in handle.now }
    {
        Reader::with(
            handle::read_head(handle),
            field::bytes::<HELD_SIZE>(handle, HEAD_SIZE),
        )
    }

    // Takes at most one packet of the piece: the step on bytes of its own, with event memory of its own.
    pub fn step(self, piece: &[u8], table: &mut [u8], index: &mut [u8]) -> Stepped
        ensures { Stepping self (memories table.old index.old) piece.now result (memories table.new index.new) }
    {
        let mut handle = self.laid();
        let mut event = [0u8; RECORD_SIZE];
        let number = step(&mut handle, table, index, piece, &mut event);
        let heard = told::read_back(number, &event);
        Stepped {
            reader: Reader::read(&handle),
            taken: (number / told::BYTE_TAKEN) as usize,
            answer: heard.answer,
            texts: heard.texts,
        }
    }

    // Takes packets of the piece until so many are finished, and tells none: the run on bytes of its own.
    pub fn run(self, piece: &[u8], table: &mut [u8], index: &mut [u8], ceiling: u32) -> Ran
        ensures { Running self (memories table.old index.old) piece.now ceiling result (memories table.new index.new) }
    {
        let mut handle = self.laid();
        let number = run(&mut handle, table, index, piece, ceiling);
        Ran {
            reader: Reader::read(&handle),
            taken: (number / 4294967296) as usize,
            finished: (number / 65536 % 65536) as u32,
            why: told::why_back((number % 65536) as u32),
        }
    }

    // The image of the table to the front of `out`. Held bytes and a standing refusal are not saved.
    pub fn save(self, table: &[u8], out: &mut [u8]) -> Result<usize, image::Refusal>
        ensures { Saves self table.now out.old result out.new }
    {
        if !limits::keep(
            self.board.rows,
            self.line.next,
            self.used,
            self.refusal,
            &self.held,
            table,
        ) {
            return Err(image::Refusal::Unfit);
        }
        let header = Header {
            session: self.line.session,
            known: self.line.known,
            next: self.line.next,
            board: self.board,
        };
        image::save(header, table, out)
    }

    // The reader and the table that an image holds, and the index of its rows.
    pub fn restore(saved: &[u8], table: &mut [u8], index: &mut [u8]) -> Restored
        ensures { Restores saved.now (memories table.old index.old) result (memories table.new index.new) }
    {
        if !index::is_index(index) {
            return Restored {
                reader: ready(Line::fresh(), table::fresh_board()),
                verdict: Err(image::Refusal::Unfit),
            };
        }
        let back = image::restore(saved, table);
        index_rows(back.verdict, back.header.board.rows, table, index);
        Restored {
            reader: ready(restored_line(back.header), back.header.board),
            verdict: back.verdict,
        }
    }
}
