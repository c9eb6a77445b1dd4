// What the loader reads.
ghost use Rattle.std.specs.Prelude.{◌≡◌, ◌≤◌, length, drop};

// A text, and the rest of it, which begins at an offset.
#[derive(Clone, Copy)]
pub struct Source<'a> {
    pub text: &'a [u8],
    pub rest: &'a [u8],
    pub from: usize,
    ghost part: { (from ≤ length text.now) × (rest.now ≡ drop from text.now) },
}
