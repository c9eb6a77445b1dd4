// "Lines count from 1 and end at LF."
ghost use Rattle.std.specs.Prelude.{◌≡◌};
ghost use Rattle.meaning.specs.Items.{line as line_of_place};

// The line of a place; at the end of the text, of its last byte.
pub fn line(text: &[u8], place: usize) -> usize
    ensures { result ≡ line_of_place text.now place }
{
    let end = place.min(text.len().saturating_sub(1));
    let before = &text[..end];
    // Stays a loop that counts: `filter` and `count` branch at each byte, and take up to five times as long where lines are short.
    let mut n = 1;
    for c in before {
        if *c == b'\n' {
            n += 1;
        }
    }
    n
}
