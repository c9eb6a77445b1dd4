// What of the scratch has to be zero before a text is loaded and run. All else is written before it is read, so it may hold anything.
ghost use Rattle.std.specs.Prelude.{◌≡◌, ◌≤◌, length};
ghost use Rattle.term.specs.Layout.{need_of, figures, InRange};
ghost use Rattle.loader.specs.Loading.{prepared};

use term::clear::clear_part;
use term::layout::{ITEMS, PROCEDURES, Room};

// Zeroes the tables of procedures, the records of clauses and queries, and of the pairs values, waiters, marks and ends.
pub fn prepare(s: &mut [u64], room: Room)
    requires { InRange (figures room) × (need_of (figures room) ≤ length s.old) }
    ensures { s.new ≡ prepared (figures room) s.old }
{
    clear_part(s, PROCEDURES, ITEMS - PROCEDURES);
    clear_part(s, room.values(), 2 * room.pairs);
    clear_part(s, room.marks(), room.pairs);
    clear_part(s, room.ends(), room.pairs);
}
