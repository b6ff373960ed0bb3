// The bytes of an instrument, which a directory and a table's row share: taken, judged and put.
ghost use Rattle.std.specs.Prelude.{◌≡◌, ◌++◌, ◌+◌, ◌≤◌, length};
ghost use Rattle.field.specs.Bytes.{overlay, bytes_be};
ghost use Rattle.field.specs.Text.{within, is_text};
ghost use Rattle.message.specs.Layout.{values, keeps_all, bytes_for};
ghost use Rattle.message.specs.Letters.{entry_rows, entry_size, instrument_of, texts_of, instrument_rows, instrument_fields};
ghost use Rattle.message.specs.Test.{entry_keeps};

use crate::{Instrument, Texts, codes};
use field::{limits, text};

pub fn instrument(entry: &[u8]) -> Instrument
    requires { entry_size ≤ length entry.now }
    ensures { result ≡ instrument_of (values entry_rows entry.now) }
{
    Instrument {
        id: field::read::<u32>(entry, 0),
        year: field::read::<u8>(entry, 12),
        month: field::read::<u8>(entry, 13),
        day: field::read::<u8>(entry, 14),
        strike: field::read::<u32>(entry, 15),
        kind: field::read::<u8>(entry, 19),
        closing: field::read::<u8>(entry, 33),
        tradable: field::read::<u8>(entry, 34),
        variation: field::read::<u8>(entry, 35),
    }
}

pub fn texts(entry: &[u8]) -> Texts
    requires { entry_size ≤ length entry.now }
    ensures { result ≡ texts_of (values entry_rows entry.now) }
{
    Texts {
        symbol: field::bytes::<8>(entry, 4),
        underlying: field::bytes::<13>(entry, 20),
        reserved: field::bytes::<16>(entry, 36),
    }
}

fn is_within(low: u8, high: u8, v: u8) -> bool
    ensures { result ≡ within low high v }
{
    (low <= v) & (v <= high)
}

fn is_symbol(t: Texts) -> bool
    ensures { result ≡ is_text t.symbol }
{
    text::is_text(&t.symbol, 0, 8)
}

fn is_underlying(t: Texts) -> bool
    ensures { result ≡ is_text t.underlying }
{
    text::is_text(&t.underlying, 0, 13)
}

pub fn keep(m: Instrument, t: Texts) -> bool
    ensures { result ≡ keeps_all instrument_rows (instrument_fields m t) }
{
    is_symbol(t)
        & (is_within(0, 99, m.year)
            & (is_within(1, 12, m.month)
                & (is_within(1, 31, m.day)
                    & (limits::price_in_range(m.strike)
                        & (codes::is_type(m.kind)
                            & (is_underlying(t)
                                & (codes::is_closing(m.closing)
                                    & (codes::is_tradable(m.tradable)
                                        & codes::is_variation(m.variation)))))))))
}

// The fields that may not change: symbol, date, strike and type.
fn terms(out: &mut [u8], m: Instrument, t: Texts)
    requires { 20 ≤ length out.old }
    ensures { out.new
        ≡ overlay out.old 4
        (t.symbol
        ++ ((bytes_be 1 m.year ++ (bytes_be 1 m.month ++ bytes_be 1 m.day))
        ++ (bytes_be 4 m.strike ++ bytes_be 1 m.kind))) }
{
    field::put(out, 4, &t.symbol);
    field::put(out, 12, &[m.year, m.month, m.day]);
    field::write::<u32>(out, 15, m.strike);
    field::write::<u8>(out, 19, m.kind);
}

// The fields that may change: underlying, closing, tradable, variation and reserved.
fn market(out: &mut [u8], m: Instrument, t: Texts)
    requires { entry_size ≤ length out.old }
    ensures { out.new
        ≡ overlay out.old 20
        (t.underlying
        ++ ((bytes_be 1 m.closing ++ (bytes_be 1 m.tradable ++ bytes_be 1 m.variation)) ++ t.reserved)) }
{
    field::put(out, 20, &t.underlying);
    field::put(out, 33, &[m.closing, m.tradable, m.variation]);
    field::put(out, 36, &t.reserved);
}

pub fn put(out: &mut [u8], m: Instrument, t: Texts)
    requires { entry_size ≤ length out.old }
    ensures { out.new ≡ overlay out.old 0 (bytes_for instrument_rows (instrument_fields m t)) }
{
    field::write::<u32>(out, 0, m.id);
    terms(out, m, t);
    market(out, m, t);
}

// The rules of an instrument's fields, whose places in some bytes are these; a date has three bytes, and so have the marks.
pub fn keep_at(
    s: &[u8],
    symbol: usize,
    date: usize,
    strike: usize,
    kind: usize,
    underlying: usize,
    marks: usize,
) -> bool
    requires { (symbol + 8 ≤ length s.now) × (date + 3 ≤ length s.now) × (strike + 4 ≤ length s.now) × (kind + 1 ≤ length s.now)
        × (underlying + 13 ≤ length s.now) × (marks + 3 ≤ length s.now) }
    ensures { result ≡ entry_keeps s.now symbol date strike kind underlying marks }
{
    let whole = &s[..];
    if !text::is_text(whole, symbol, 8) {
        return false;
    }
    if !text::is_text(whole, underlying, 13) {
        return false;
    }
    is_within(0, 99, field::read::<u8>(whole, date))
        & (is_within(1, 12, field::read::<u8>(whole, date + 1))
            & (is_within(1, 31, field::read::<u8>(whole, date + 2))
                & (limits::price_keeps(whole, strike)
                    & (codes::is_type(field::read::<u8>(whole, kind))
                        & (codes::is_closing(field::read::<u8>(whole, marks))
                            & (codes::is_tradable(field::read::<u8>(whole, marks + 1))
                                & codes::is_variation(field::read::<u8>(whole, marks + 2))))))))
}

// The rules of an instrument, tested where its bytes lie.
pub fn keep_bytes(entry: &[u8]) -> bool
    requires { 52 ≤ length entry.now }
    ensures { result ≡ keeps_all entry_rows (values entry_rows entry.now) }
{
    keep_at(entry, 4, 12, 15, 19, 20, 33)
}
