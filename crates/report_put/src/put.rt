// Bytes put at a place of the buffer, and the place behind them.
ghost use Rattle.std.specs.Prelude.{◌≡◌, [], ◌∷◌, ◌+◌, ◌≤◌, ◌<◌, ◌%◌, length, set};
ghost use Rattle.std.proofs.Math.Seq.{slice};
ghost use Rattle.meaning.specs.Bytes.{Bytes, decimal as in_decimal};
ghost use Rattle.report_pairs.specs.Laid.{Puts, Has};

use report_pairs::length::digits;

// One byte.
pub fn put(buffer: &mut [u8], at: usize, b: u8) -> usize
    requires { at < length buffer.old }
    ensures { Puts buffer.old buffer.new at result (b ∷ []) }
{
    buffer[at] = b;
    at + 1
}

// All of these bytes.
pub fn words(buffer: &mut [u8], at: usize, bytes: &[u8]) -> usize
    requires { at + length bytes.now ≤ length buffer.old }
    ensures { Puts buffer.old buffer.new at result bytes.now }
{
    let mut to = at;
    for b in bytes {
        to = put(buffer, to, *b);
    }
    to
}

// So many bytes that stand in the buffer before this place, from one on, are put again.
pub fn again(buffer: &mut [u8], at: usize, from: usize, n: usize) -> usize
    requires { (at + n ≤ length buffer.old) × (from + n ≤ at) }
    ensures { (bs : Bytes) → n ≡ length bs → Has buffer.old from bs → Puts buffer.old buffer.new at result bs }
{
    for i in 0..n {
        buffer[at + i] = buffer[from + i];
    }
    at + n
}

// So many bytes of the text from one on.
pub fn spelling(text: &[u8], buffer: &mut [u8], at: usize, from: usize, n: usize) -> usize
    requires { (at + n ≤ length buffer.old) × (from + n ≤ length text.now) }
    ensures { Puts buffer.old buffer.new at result (slice from (from + n) text.now) }
{
    words(buffer, at, &text[from..from + n])
}

// A digit's byte.
fn digit(n: u64) -> u8
    ensures { result ≡ 48 + n % 10 }
{
    b'0' + (n % 10) as u8
}

// A number in decimal, from its last digit on.
// Stays by hand: `Display` writes to a formatter of text, and its output names no place of a buffer of bytes, as `Puts` does.
pub fn decimal(buffer: &mut [u8], at: usize, n: u64) -> usize
    requires { at + length (in_decimal n) ≤ length buffer.old }
    ensures { Puts buffer.old buffer.new at result (in_decimal n) }
{
    let end = at + digits(n);
    let mut to = end;
    let mut left = n;
    while 10 <= left {
        to -= 1;
        buffer[to] = digit(left);
        left = left / 10;
    }
    buffer[at] = digit(left);
    end
}
