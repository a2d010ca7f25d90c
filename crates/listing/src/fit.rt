// Numbers of the input as entries of 16 bits and as bytes.
ghost use Rattle.std.specs.Prelude.{true, ◌≡◌, ℕ, ◌≤◌, leb, length, map};
ghost use Rattle.flash.specs.Lists.{all};

// Whether none of the numbers is above `most`.
pub fn fit(numbers: &[u32], most: u32) -> bool
    ensures { result ≡ all (λ number. leb number most) numbers.now }
{
    numbers.iter().all(|number| *number <= most)
}

// An entry of a list or a byte, which is cut from a number that fits.
pub trait Cell: Copy {
    // The largest number that fits, and what it becomes.
    ghost most: { ℕ };

    ghost of: { ℕ → Self };

    fn cut(number: u32) -> Self
        requires { number ≤ most }
        ensures { result ≡ of number };
}

impl Cell for u16 {
    ghost most = { 65535 };

    ghost of = { λ number. number };

    fn cut(number: u32) -> u16 {
        number as u16
    }
}

impl Cell for u8 {
    ghost most = { 255 };

    ghost of = { λ number. number };

    fn cut(number: u32) -> u8 {
        number as u8
    }
}

// Numbers that fit, as entries of a list or as bytes.
pub fn put<T: Cell>(numbers: &[u32], cells: &mut [T])
    requires numbers_len { length numbers.now ≡ length cells.old }
    requires numbers_value { all (λ number. leb number T.most) numbers.now ≡ true }
    ensures { cells.new ≡ map T.of numbers.now }
{
    for (i, number) in numbers.iter().enumerate() {
        cells[i] = T::cut(*number);
    }
}
