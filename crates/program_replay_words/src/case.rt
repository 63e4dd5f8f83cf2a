// The words of a case.
ghost use Rattle.std.specs.Prelude.{◌≤◌};

// Word number k of a line, counted from 0, the letter.
pub fn nth<'a>(line: &'a [u8], k: u8) -> &'a [u8] {
    let mut at = 0;
    for _ in 0..k {
        at = base_words::next_word(line, at).end;
    }
    base_scan::text(line, base_words::next_word(line, at))
}

// The number that word k is, or 0.
pub fn number(line: &[u8], k: u8) -> u64 {
    read_numbers::position(nth(line, k)).unwrap_or(0)
}

// The value of a hex digit of the list, which has small ones; `to_digit` would take capital ones too.
fn nibble(b: u8) -> u8
    ensures { result ≤ 15 }
{
    match b {
        b'0'..=b'9' => b - b'0',
        b'a'..=b'f' => b - b'a' + 10,
        _ => 0,
    }
}

// The text that word k stands for, at the start of a buffer; its length.
pub fn unhex(line: &[u8], k: u8, out: &mut [u8]) -> usize {
    let word = nth(line, k);
    for (b, digits) in out.iter_mut().zip(word.chunks_exact(2)) {
        *b = nibble(digits[0]) * 16 + nibble(digits[1]);
    }
    out.len().min(word.len() / 2)
}

// The first n bytes of a buffer, or all of it.
pub fn front<'a>(s: &'a mut [u8], n: usize) -> &'a mut [u8] {
    let k = n.min(s.len());
    &mut s[..k]
}
