// The two widths of a quote's numbers, and what differs between them: two bytes with prices in pennies, and four with prices in ten-thousandths of a dollar.
ghost use Rattle.std.specs.Prelude.{◌≡◌, ◌+◌, ◌≤◌, true, refl, length};
ghost use Rattle.field.specs.Bytes.{part, be};
ghost use Rattle.message.specs.Letters.{Form, short_form, long_form, map_quote, map_side};

use crate::{Message, OneSide, Quote, Side};
use field::{Number, limits};

// A number of a quote. Zero says that there is no price.
pub trait Width: Number {
    // The form as the definitions have it.
    ghost form: { Form };

    // How many bytes a number has.
    fn size() -> usize
        ensures { (result ≡ Self.width) × (result ≤ 4) };

    // The number that says no price.
    fn zero() -> Self
        ensures { Self.number result ≡ 0 };

    // The same number in four bytes.
    fn value(self) -> u32
        ensures { result ≡ Self.number self };

    // Does a price of this number keep its rule, if it is above zero?
    fn keeps(self) -> bool
        ensures { result ≡ form.keeps (Self.number self) };

    // Does the price that stands at `at` keep that rule? It is tested where it lies.
    fn price_keeps(bytes: &[u8], at: usize) -> bool
        requires { at + Self.width ≤ length bytes.now }
        ensures { result ≡ form.keeps (be (part bytes.now at Self.width)) };

    // The letter of a quote of both sides.
    fn quote_code() -> u8
        ensures { result ≡ form.quote_code };

    // The letter of a quote of one side.
    fn side_code(side: Side) -> u8
        ensures { result ≡ form.side_code side };

    // The message that a quote of both sides is.
    fn quote(q: Quote<Self>) -> Message
        ensures { result ≡ form.quote (map_quote Self.number q) };

    // The message that a quote of one side is.
    fn side(s: OneSide<Self>) -> Message
        ensures { result ≡ form.side (map_side Self.number s) };

    // The number of no price keeps that rule.
    ghost none_keeps: { form.keeps 0 ≡ true };
}

impl Width for u16 {
    ghost form = { short_form };

    ghost none_keeps = { refl };

    fn size() -> usize {
        2
    }

    fn zero() -> u16 {
        0
    }

    fn value(self) -> u32 {
        self as u32
    }

    // Every number of two bytes is in range, here and where it lies.
    fn keeps(self) -> bool {
        true
    }

    fn price_keeps(_bytes: &[u8], _at: usize) -> bool {
        true
    }

    fn quote_code() -> u8 {
        b'q'
    }

    fn side_code(side: Side) -> u8 {
        match side {
            Side::Bid => b'b',
            Side::Ask => b'a',
        }
    }

    fn quote(q: Quote<u16>) -> Message
        ensures { result ≡ short_form.quote (map_quote (λ v. v) q) }
    {
        Message::ShortQuote(q)
    }

    fn side(s: OneSide<u16>) -> Message
        ensures { result ≡ short_form.side (map_side (λ v. v) s) }
    {
        Message::ShortSide(s)
    }
}

impl Width for u32 {
    ghost form = { long_form };

    ghost none_keeps = { refl };

    fn size() -> usize {
        4
    }

    fn zero() -> u32 {
        0
    }

    fn value(self) -> u32 {
        self
    }

    fn keeps(self) -> bool {
        limits::price_in_range(self)
    }

    fn price_keeps(bytes: &[u8], at: usize) -> bool {
        limits::price_keeps(bytes, at)
    }

    fn quote_code() -> u8 {
        b'Q'
    }

    fn side_code(side: Side) -> u8 {
        match side {
            Side::Bid => b'B',
            Side::Ask => b'A',
        }
    }

    fn quote(q: Quote<u32>) -> Message
        ensures { result ≡ long_form.quote (map_quote (λ v. v) q) }
    {
        Message::LongQuote(q)
    }

    fn side(s: OneSide<u32>) -> Message
        ensures { result ≡ long_form.side (map_side (λ v. v) s) }
    {
        Message::LongSide(s)
    }
}
