// The packet table: for each letter L, the meaning and the place.
ghost use Rattle.std.specs.Prelude.{◌≡◌, ◌+◌, length};
ghost use Rattle.packet.specs.Table.{packet_table, entry_of, takes_number, in_place, of_size};

#[derive(Clone, Copy, Debug, PartialEq, Eq)]
pub enum Meaning {
    LoginAccepted,
    LoginRejected,
    Message,
    Heartbeat,
    EndOfSession,
    Skipped,
}

#[derive(Clone, Copy, Debug, PartialEq, Eq)]
pub enum Place {
    BeforeLogin,
    AfterLogin,
    Anywhere,
}

// The length, one more than the body's, that a packet with the letter must have, or none where any will do; what it means; and where it may stand.
// The match is that table, a line for each letter.
pub fn row_of(letter: u8) -> Option<(Option<usize>, Meaning, Place)>
    ensures { result ≡ entry_of letter packet_table }
{
    match letter {
        b'A' => Some((Some(31), Meaning::LoginAccepted, Place::BeforeLogin)),
        b'J' => Some((Some(2), Meaning::LoginRejected, Place::BeforeLogin)),
        b'S' => Some((None, Meaning::Message, Place::AfterLogin)),
        b'H' => Some((Some(1), Meaning::Heartbeat, Place::Anywhere)),
        b'Z' => Some((Some(1), Meaning::EndOfSession, Place::AfterLogin)),
        b'+' | b'U' => Some((None, Meaning::Skipped, Place::Anywhere)),
        _ => None,
    }
}

// Does a packet of that meaning take a number?
pub fn takes_number(meaning: Meaning) -> bool
    ensures { result ≡ takes_number meaning }
{
    matches!(meaning, Meaning::Message)
}

// Does a packet of that place belong on a line that is logged in, or is not?
pub fn in_place(place: Place, logged: bool) -> bool
    ensures { result ≡ in_place place logged }
{
    match place {
        Place::BeforeLogin => !logged,
        Place::AfterLogin => logged,
        Place::Anywhere => true,
    }
}

// Is L, one more than the body's length, of that size?
pub fn of_size(size: Option<usize>, body: &[u8]) -> bool
    ensures { result ≡ of_size size (length body.now + 1) }
{
    match size {
        None => true,
        Some(n) => 0 < n && body.len() == n - 1,
    }
}
