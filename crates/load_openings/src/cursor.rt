// Where a reading stands, and why it ends where nothing is read.
ghost use Rattle.std.specs.Prelude.{◌≡◌};
ghost use Rattle.load_openings.specs.declared.cursor.Unread.TheVariants.{Malformed};

use load_tokens::next::Misplaced;

// Where the reading stands, and what has been counted: the text's names, the item's variables and compounds.
#[derive(Clone, Copy)]
pub struct Cursor {
    pub at: usize,
    pub names: usize,
    pub variables: usize,
    pub compounds: usize,
}

// Why nothing is read: a token that cannot stand at this place (4), or a figure that is passed (6).
#[derive(Clone, Copy)]
pub enum Unread {
    Malformed(usize),
    Exceeded,
}

impl From<Misplaced> for Unread {
    ghost from_gives = { λ m e. e ≡ Malformed m.0 };

    fn from(m: Misplaced) -> Unread {
        Unread::Malformed(m.0)
    }
}
