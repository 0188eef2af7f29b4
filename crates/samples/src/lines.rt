// Lines: a line of text read as numbers.

// A number with a digit more. What is no digit, or too much, is left out.
fn with_digit(x: u32, b: u8) -> u32 {
    if !b.is_ascii_digit() {
        return x;
    }
    let digit = (b - b'0') as u32;
    x.checked_mul(10)
        .and_then(|y| y.checked_add(digit))
        .unwrap_or(x)
}

// Number k of a line, counted from 1: it follows space k. 0 if there is none.
pub fn number(line: &[u8], k: usize) -> u32 {
    let mut x = 0;
    if let Some(word) = line.split(|b| *b == b' ').nth(k) {
        for b in word {
            x = with_digit(x, *b);
        }
    }
    x
}
