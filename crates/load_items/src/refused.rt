// Why an item is refused.
ghost use Rattle.std.specs.Prelude.{◌≡◌};
ghost use Rattle.load_items.specs.Refusing.{refused_as};
ghost use Rattle.load_items.specs.declared.refused.Refused.TheVariants.{Malformed};

use load_faults::faults::Fault;
use load_openings::cursor::Unread;
use load_tokens::next::Misplaced;

// A token cannot stand at this place (4), a guard is not in the table or has another variable (11), a rule of occurrences is broken (5, 9 and 10), or a
// figure is passed (6).
#[derive(Clone, Copy)]
pub enum Refused {
    Malformed(usize),
    Unknown,
    Broken(Fault),
    Exceeded,
}

impl From<Misplaced> for Refused {
    ghost from_gives = { λ m e. e ≡ Malformed m.0 };

    fn from(m: Misplaced) -> Refused {
        Refused::Malformed(m.0)
    }
}

impl From<Unread> for Refused {
    ghost from_gives = { λ u e. e ≡ refused_as u };

    fn from(u: Unread) -> Refused {
        match u {
            Unread::Malformed(a) => Refused::Malformed(a),
            Unread::Exceeded => Refused::Exceeded,
        }
    }
}
