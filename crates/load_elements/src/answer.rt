// How reading elements ends.
use load_openings::cursor::Cursor;

// So many elements and then the full stop at an offset, or the bar, with the cursor behind it.
#[derive(Clone, Copy)]
pub enum Elements {
    Stop(usize, usize, Cursor),
    Bar(usize, Cursor),
}
