// The fields of a line, and the numbers in them.
ghost use Rattle.std.specs.Prelude.{◌≡◌};
ghost use Rattle.commands.specs.Lines.{fields_of};
ghost use Rattle.commands.specs.Reading.{number_of, numbers_in};

// A number has at most this many digits.
const MOST_DIGITS: usize = 3;

// The number of 1 to 3 digits that a field says.
fn read_number(field: &[u8]) -> Option<usize>
    ensures { result ≡ number_of field.now }
{
    if field.is_empty() || field.len() > MOST_DIGITS {
        return None;
    }
    let mut number = 0;
    for byte in field {
        if !byte.is_ascii_digit() {
            return None;
        }
        number = number * 10 + usize::from(*byte - b'0');
    }
    Some(number)
}

// The two numbers of a line that has three fields of which the last two are numbers.
pub(crate) fn read_numbers(line: &[u8]) -> Option<(usize, usize)>
    ensures { result ≡ numbers_in (fields_of line.now) }
{
    let mut fields = line.split(|byte| *byte == b' ');
    let _letter = fields.next()?;
    let first = read_number(fields.next()?)?;
    let second = read_number(fields.next()?)?;
    match fields.next() {
        Some(_) => None,
        None => Some((first, second)),
    }
}
