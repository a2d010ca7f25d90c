// A cursor over a lent text: the number at a position, and the position behind it.
ghost use Rattle.std.specs.Prelude.{◌≡◌, false, ◌-◌, ◌≤◌, ◌<◌, length, get_or, drop};
ghost use Rattle.listing.specs.Numbers.{is_separator, is_digit, numbers_in, next};
ghost use Rattle.listing.specs.ReaderAnswers.{told_as};

const MOST_DIGITS: usize = 5;

// What is found from a position on.
#[derive(Clone, Copy)]
pub enum Word {
    // A number, and the position behind it.
    Number { value: u32, next: usize },
    // A word that is no number.
    Malformed,
    // No word is left.
    End,
}

fn is_separator(byte: u8) -> bool
    ensures { result ≡ is_separator byte }
{
    (byte == b' ') | (byte == b'\n')
}

pub fn is_digit(byte: u8) -> bool
    ensures { result ≡ is_digit byte }
{
    byte.is_ascii_digit()
}

pub fn digit_value(byte: u8) -> u32
    requires { 48 ≤ byte }
    ensures { result ≡ byte - 48 }
{
    u32::from(byte - b'0')
}

// The next position that holds no separator, or the end.
fn skip(text: &[u8], from: usize) -> usize
    ensures text_value { numbers_in (drop result text.now) ≡ numbers_in (drop from text.now) }
    ensures result_value { result < length text.now → is_separator (get_or text.now result 0) ≡ false }
{
    for at in from..text.len() {
        if !is_separator(text[at]) {
            return at;
        }
    }
    text.len()
}

// The number that starts at a position where no separator stands.
fn spelled(text: &[u8], start: usize) -> Word
    requires { start < length text.now → is_separator (get_or text.now start 0) ≡ false }
    ensures { told_as text.now result ≡ next (numbers_in (drop start text.now)) }
{
    let mut value: u32 = 0;
    for at in start..text.len() {
        let byte = text[at];
        if is_separator(byte) {
            return Word::Number { value, next: at };
        }
        if at - start == MOST_DIGITS {
            return Word::Malformed;
        }
        if !is_digit(byte) {
            return Word::Malformed;
        }
        value = value * 10 + digit_value(byte);
    }
    if text.len() <= start {
        Word::End
    } else {
        Word::Number {
            value,
            next: text.len(),
        }
    }
}

// The first number from a position on.
pub fn number(text: &[u8], from: usize) -> Word
    ensures { told_as text.now result ≡ next (numbers_in (drop from text.now)) }
{
    spelled(text, skip(text, from))
}
