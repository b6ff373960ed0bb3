// The messages of the feed: ten letters, read from their bytes and written to them.
#![tactic(auto)]

ghost use Rattle.std.specs.Prelude.{◌≡◌};
ghost use Rattle.message.specs.Letters.{no_texts};
ghost use Rattle.message.specs.Message.{refusal_number, write_refusal_number, refused, read_of, outcome, write_of};

pub mod codes;
pub mod entry;
mod judge;
pub mod lengths;
pub mod numbers;
pub mod prices;
mod put;
mod rules;
mod take;
pub mod test;
pub mod width;

// The tracking number, and the nanoseconds since midnight.
#[derive(Clone, Copy)]
pub struct Stamp {
    pub tracking: u16,
    pub time: u64,
}

#[derive(Clone, Copy)]
pub enum Side {
    Bid,
    Ask,
}

// One side of a quote, in numbers of two bytes or of four: the price is in pennies where they have two, in ten-thousandths of a dollar where they have
// four. It is above zero, or there is none; zero is no price above zero.
#[derive(Clone, Copy)]
pub struct SideNumbers<T> {
    pub market: T,
    pub price: Option<T>,
    pub size: T,
    pub customer: T,
    pub professional: T,
}

#[derive(Clone, Copy)]
pub struct SystemEvent {
    pub stamp: Stamp,
    pub code: u8,
}

// An instrument's own fields, but for its texts.
#[derive(Clone, Copy)]
pub struct Instrument {
    pub id: u32,
    pub year: u8,
    pub month: u8,
    pub day: u8,
    pub strike: u32,
    pub kind: u8,
    pub closing: u8,
    pub tradable: u8,
    pub variation: u8,
}

#[derive(Clone, Copy)]
pub struct Directory {
    pub stamp: Stamp,
    pub instrument: Instrument,
}

#[derive(Clone, Copy)]
pub struct TradingAction {
    pub stamp: Stamp,
    pub id: u32,
    pub state: u8,
}

#[derive(Clone, Copy)]
pub struct Quote<T> {
    pub stamp: Stamp,
    pub id: u32,
    pub condition: u8,
    pub bid: SideNumbers<T>,
    pub ask: SideNumbers<T>,
}

// A quote of one side.
#[derive(Clone, Copy)]
pub struct OneSide<T> {
    pub stamp: Stamp,
    pub id: u32,
    pub condition: u8,
    pub side: Side,
    pub numbers: SideNumbers<T>,
}

#[derive(Clone, Copy)]
pub struct EndOfReplay {
    pub number: u64,
}

#[derive(Clone, Copy)]
pub enum Message {
    SystemEvent(SystemEvent),
    Directory(Directory),
    TradingAction(TradingAction),
    ShortQuote(Quote<u16>),
    LongQuote(Quote<u32>),
    ShortSide(OneSide<u16>),
    LongSide(OneSide<u32>),
    EndOfReplay(EndOfReplay),
}

// The texts of a directory, which travel beside its record; zeros beside any other.
#[derive(Clone, Copy)]
pub struct Texts {
    pub symbol: [u8; 8],
    pub underlying: [u8; 13],
    pub reserved: [u8; 16],
}

#[derive(Clone, Copy)]
pub enum Refusal {
    UnknownLetter,
    WrongLength,
    BadField,
}

// The texts stand beside the answer, and not in it: a refusal says of them too that they are zeros (`Message.refused`, whose
// theorem is `Verdicts.read-verdict`), and records, readers and demands speak of the texts of any bytes.
#[derive(Clone, Copy)]
pub struct Reading {
    pub answer: Result<Message, Refusal>,
    pub texts: Texts,
}

#[derive(Clone, Copy)]
pub enum WriteRefusal {
    BrokenRecord,
    ShortOutput,
}

impl From<Refusal> for u8 {
    ghost from_gives = { λ r n. n ≡ refusal_number r };

    fn from(r: Refusal) -> u8 {
        match r {
            Refusal::UnknownLetter => 10,
            Refusal::WrongLength => 11,
            Refusal::BadField => 12,
        }
    }
}

impl From<WriteRefusal> for u8 {
    ghost from_gives = { λ r n. n ≡ write_refusal_number r };

    fn from(r: WriteRefusal) -> u8 {
        match r {
            WriteRefusal::BrokenRecord => 26,
            WriteRefusal::ShortOutput => 25,
        }
    }
}

pub fn no_texts() -> Texts
    ensures { result ≡ no_texts }
{
    Texts {
        symbol: [0; 8],
        underlying: [0; 13],
        reserved: [0; 16],
    }
}

fn refuse(r: Refusal) -> Reading
    ensures { result ≡ refused r }
{
    Reading {
        answer: Err(r),
        texts: no_texts(),
    }
}

pub fn read(bytes: &[u8]) -> Reading
    ensures { result ≡ read_of bytes.now }
{
    if bytes.len() == 0 {
        return refuse(Refusal::UnknownLetter);
    }
    let letter = bytes[0];
    let Some(size) = lengths::length_of(letter) else {
        return refuse(Refusal::UnknownLetter);
    };
    if bytes.len() != size {
        return refuse(Refusal::WrongLength);
    }
    judge::message(letter, bytes)
}

pub fn write(message: Message, texts: Texts, out: &mut [u8]) -> Result<usize, WriteRefusal>
    ensures { outcome result out.new ≡ write_of message texts out.old }
{
    if !rules::keep(message, texts) {
        return Err(WriteRefusal::BrokenRecord);
    }
    let size = lengths::length_for(message);
    if out.len() < size {
        return Err(WriteRefusal::ShortOutput);
    }
    put::message(message, texts, out);
    Ok(size)
}
