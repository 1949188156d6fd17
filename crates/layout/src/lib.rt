// What plan files have in common: numbers, the first two questions, and the refusals.
#![tactic(auto)]

ghost use Rattle.std.specs.Prelude.{◌≡◌, ◌+◌, slice_index};
ghost use Rattle.layout.specs.Bytes.{byte_at, word_at, long_at};
ghost use Rattle.layout.specs.Lowest.{LowestMeans};
ghost use Rattle.layout.specs.Questions.{fits_length, begins_with};
ghost use Rattle.layout.specs.Refusals.{beginning_asked};

pub mod refusal;

pub use refusal::FileRefusal;

// A file longer than this is refused.
pub const LONGEST: usize = 40_000;

// The byte at this place, 0 past the end.
pub fn byte(bytes: &[u8], at: usize) -> u8
    ensures { result ≡ byte_at bytes.now at }
{
    bytes.get(at).copied().unwrap_or(0)
}

// The byte so many places further on.
fn byte_after(bytes: &[u8], at: usize, by: usize) -> u8
    ensures { result ≡ byte_at bytes.now (at + by) }
{
    byte(bytes, at.saturating_add(by))
}

// The word that begins at this place: two bytes, the low one first.
pub fn word(bytes: &[u8], at: usize) -> usize
    ensures { result ≡ word_at bytes.now at }
{
    usize::from(u16::from_le_bytes([byte(bytes, at), byte_after(bytes, at, 1)]))
}

// The long that begins at this place: four bytes, the low one first.
pub fn long(bytes: &[u8], at: usize) -> u32
    ensures { result ≡ long_at bytes.now at }
{
    u32::from_le_bytes([
        byte(bytes, at),
        byte_after(bytes, at, 1),
        byte_after(bytes, at, 2),
        byte_after(bytes, at, 3),
    ])
}

// Does the file reach its header's length, and is it not too long?
pub fn length_fits(bytes: &[u8], header: usize) -> bool
    ensures { result ≡ fits_length header bytes.now }
{
    header <= bytes.len() && bytes.len() <= LONGEST
}

// Does the file begin with these two bytes?
pub fn has_sign(bytes: &[u8], first: u8, second: u8) -> bool
    ensures { result ≡ begins_with first second bytes.now }
{
    byte(bytes, 0) == first && byte(bytes, 1) == second
}

// Puts the first two questions, which every file kind asks alike.
pub fn check_beginning(bytes: &[u8], header: usize, sign: [u8; 2]) -> Result<(), FileRefusal>
    ensures { result ≡ beginning_asked header (slice_index sign 0) (slice_index sign 1) bytes.now }
{
    if !length_fits(bytes, header) {
        return Err(FileRefusal::Length);
    }
    if !has_sign(bytes, sign[0], sign[1]) {
        return Err(FileRefusal::Sign);
    }
    Ok(())
}

// A theorem, with nothing to compute: what the questions call the lowest row at fault is at fault, and no lower row is.
pub fn lowest_is_lowest()
    ensures { LowestMeans }
{}
