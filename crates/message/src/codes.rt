// The one-letter codes of the feed: a function for each list, whose clause names the list of the definitions, and one that looks a code up. A
// constant for each list would need a promise of its own that it is that list.
ghost use Rattle.std.specs.Prelude.{◌≡◌};
ghost use Rattle.message.specs.Letters.{listed, event_codes, option_types, closings, tradables, variations, states, conditions};

// A loop and no `contains`, with which saving took 2,711 instructions more.
pub fn is_listed(code: u8, list: &[u8]) -> bool
    ensures { result ≡ listed list.now code }
{
    for c in list {
        if *c == code {
            return true;
        }
    }
    false
}

pub fn is_event(code: u8) -> bool
    ensures { result ≡ listed event_codes code }
{
    is_listed(code, b"OSQNLECW")
}

pub fn is_type(code: u8) -> bool
    ensures { result ≡ listed option_types code }
{
    is_listed(code, b"CPN")
}

pub fn is_closing(code: u8) -> bool
    ensures { result ≡ listed closings code }
{
    is_listed(code, b"NLW")
}

pub fn is_tradable(code: u8) -> bool
    ensures { result ≡ listed tradables code }
{
    is_listed(code, b"YN")
}

pub fn is_variation(code: u8) -> bool
    ensures { result ≡ listed variations code }
{
    is_listed(code, b"ESP")
}

pub fn is_state(code: u8) -> bool
    ensures { result ≡ listed states code }
{
    is_listed(code, b"BSHTIORX")
}

// Without a branch, since every quote comes by here.
pub fn is_condition(code: u8) -> bool
    ensures { result ≡ listed conditions code }
{
    (b' ' == code) | ((b'X' == code) | (b'Y' == code))
}
