//! How much room words have beside a sign and below a column, and numbers that are shortened to it.

use std::alloc::AllocError;

/// The room of words that reach into no other's: a number in it is written whole.
pub const WHOLE: u64 = u64::MAX;

/// How wide a digit is. All widths are hundredths of the letters' size.
const DIGIT: u64 = 64;

/// How wide the two dots are that stand for a number's first digits.
const DOTS: u64 = 64;

/// How wide a byte count's unit is, with the space before it.
const UNIT: u64 = 96;

/// How many digits a shortened number has at least.
const LEAST_DIGITS: u64 = 1;

/// The room of the words of this class, between their sign and that of the next column, or the captions beside them.
pub fn room_of(class: &str) -> u64 {
    match class {
        "label" | "left" | "slim" | "detail" => 436,
        "objects" | "outcome" | "refused" => 600,
        "number" => 540,
        _ => WHOLE,
    }
}

/// About how wide a character is.
fn letter_width(byte: u8) -> u64 {
    match byte {
        b' ' | b'.' | b'i' | b'l' => 32,
        b'f' | b'r' | b't' => 40,
        b'#' => 84,
        _ => DIGIT,
    }
}

/// About how wide a text is.
pub fn text_width(text: &str) -> u64 {
    let mut width = 0u64;
    for byte in text.as_bytes() {
        width = width.saturating_add(letter_width(*byte));
    }
    width
}

/// How many digits a number has.
fn digits_of(n: u64) -> u64 {
    let (mut count, mut rest) = (1u64, n / 10);
    for _ in 0..20 {
        if rest > 0 {
            count = count.saturating_add(1);
            rest /= 10;
        }
    }
    count
}

/// About how wide a number is.
pub fn number_width(n: u64) -> u64 {
    digits_of(n).saturating_mul(DIGIT)
}

/// Writes the last so many digits of a number, zeros too.
fn write_last(text: &mut String, n: u64, count: u64) -> Result<(), AllocError> {
    let mut scale = 1u64;
    for _ in 1..count {
        scale = scale.saturating_mul(10);
    }
    for _ in 0..count {
        let digit = n / scale.max(1) % 10;
        write!(text, "{digit}")?;
        scale /= 10;
    }
    Ok(())
}

/// Writes a number behind a text: whole where the room has it, else two dots and as many of its last digits as the room has.
pub fn write_number(text: &mut String, n: u64, room: u64) -> Result<(), AllocError> {
    if number_width(n) <= room {
        return write!(text, "{n}");
    }
    let digits = (room.saturating_sub(DOTS) / DIGIT).max(LEAST_DIGITS);
    text.push_str("..")?;
    write_last(text, n, digits)
}

/// Writes so many bytes behind a text: where the room hasn't the number, its whole thousands.
pub fn write_bytes(text: &mut String, count: u64, room: u64) -> Result<(), AllocError> {
    if number_width(count) <= room.saturating_sub(UNIT) {
        return write!(text, "{count} B");
    }
    let thousands = count / 1_000;
    write!(text, "{thousands} kB")
}
