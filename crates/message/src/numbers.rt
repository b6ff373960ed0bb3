// The five numbers of a side: taken from bytes, and put into them.
ghost use Rattle.std.specs.Prelude.{◌≡◌, ◌+◌, ◌*◌, ◌≤◌, length};
ghost use Rattle.field.specs.Bytes.{overlay};
ghost use Rattle.message.specs.Layout.{values, bytes_for};
ghost use Rattle.message.specs.Letters.{numbers_rows, numbers_of, numbers_fields, map_numbers, long_numbers_rows};

use crate::width::Width;
use crate::{SideNumbers, prices};

pub fn read<T: Width>(bytes: &[u8], at: usize) -> SideNumbers<T>
    requires { at + 5 * T.width ≤ length bytes.now }
    ensures { map_numbers T.number result ≡ numbers_of (values (numbers_rows T.width T.form.keeps at) bytes.now) }
{
    let size = T::size();
    SideNumbers {
        market: field::read::<T>(bytes, at),
        price: prices::price(field::read::<T>(bytes, at + size)),
        size: field::read::<T>(bytes, at + 2 * size),
        customer: field::read::<T>(bytes, at + 3 * size),
        professional: field::read::<T>(bytes, at + 4 * size),
    }
}

pub fn put<T: Width>(out: &mut [u8], at: usize, n: SideNumbers<T>)
    requires { at + 5 * T.width ≤ length out.old }
    ensures { out.new ≡ overlay out.old at (bytes_for (numbers_rows T.width T.form.keeps at) (numbers_fields (map_numbers T.number n))) }
{
    let size = T::size();
    field::write::<T>(out, at, n.market);
    field::write::<T>(out, at + size, prices::amount(n.price));
    field::write::<T>(out, at + 2 * size, n.size);
    field::write::<T>(out, at + 3 * size, n.customer);
    field::write::<T>(out, at + 4 * size, n.professional);
}

// The 20 bytes of a side from one place to another, with no number taken.
pub fn carry_long(bytes: &[u8], from: usize, out: &mut [u8], at: usize)
    requires { (from + 20 ≤ length bytes.now) × (at + 20 ≤ length out.old) }
    ensures { out.new ≡ overlay out.old at (bytes_for (long_numbers_rows at) (numbers_fields (numbers_of (values (long_numbers_rows from) bytes.now)))) }
{
    field::carry::<20>(bytes, from, out, at);
}
