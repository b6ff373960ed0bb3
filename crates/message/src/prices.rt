// Prices: what a number in bytes says, the number that says a price, and the rule of a price that is written.
ghost use Rattle.std.specs.Prelude.{◌≡◌, option_map};
ghost use Rattle.message.specs.Layout.{price_by, amount, priced, price, holds};

use crate::SideNumbers;
use crate::width::Width;

pub fn price<T: Width>(n: T) -> Option<T>
    ensures { result ≡ price_by T.number n }
{
    if n.value() == 0 {
        return None;
    }
    Some(n)
}

pub fn amount<T: Width>(p: Option<T>) -> T
    ensures { T.number result ≡ amount (option_map T.number p) }
{
    match p {
        Some(n) => n,
        None => T::zero(),
    }
}

// Does the price of a side keep its rule?
pub fn keep<T: Width>(side: SideNumbers<T>) -> bool
    ensures { result ≡ holds (price T.form.keeps) (priced (option_map T.number side.price)) }
{
    match side.price {
        Some(n) => (1 <= n.value()) & n.keeps(),
        None => true,
    }
}
