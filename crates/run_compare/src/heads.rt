// A head against a goal whose arguments were followed.
ghost use Rattle.std.specs.Prelude.{ℕ};
ghost use Rattle.meaning.specs.Terms.{Functor, Terms, count as size};
ghost use Rattle.term.specs.Setting.{Setting};
ghost use Rattle.run_compare.specs.Compare.{Template, HeadAgainst, Answers, places_outcome};

use crate::compare::places;
use run_table::table::{PlaceResult, differ, table};
use term::layout::FOLLOWED;
use term::scratch::{argument, count, word_at};

// The arguments of the head at p against the goal's, "from left to right and depth first", through "all places" up to the first that fails.
pub fn head(s: &mut [u64], values: usize, links: usize, p: usize) -> Option<usize>
    requires { (x : Setting) × (y : Template) × (m : ℕ) × (g : Functor) × (us : Terms) × (lo : ℕ) × (hi : ℕ) × (ts : Terms)
        × HeadAgainst s.old x y values links m g us lo hi ts p }
    ensures { (x : Setting) (y : Template) (m : ℕ) (g : Functor) (us : Terms) (lo hi : ℕ) (ts : Terms)
        → HeadAgainst s.old x y values links m g us lo hi ts p
        → Answers s.old s.new x y 0 lo hi (size us) (places_outcome x links us ts) result }
{
    let mut noted = 0;
    'arguments: for i in 1..=count(s, p) {
        let h = argument(s, p, i);
        let w = word_at(s, FOLLOWED, i);
        let (a, b) = match table(s, h, w, noted) {
            PlaceResult::Noted(m) => {
                noted = m;
                continue 'arguments;
            }
            PlaceResult::Fails => return None,
            PlaceResult::Below(a, b) => (a, b),
        };
        if differ(s, a, b) {
            return None;
        }
        noted = places(s, values, links, a, b, noted)?;
    }
    Some(noted)
}
