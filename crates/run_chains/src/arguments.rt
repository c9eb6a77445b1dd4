// The arguments of a goal, followed once for all its trials.
ghost use Rattle.std.specs.Prelude.{ℕ};
ghost use Rattle.meaning.specs.Terms.{Functor, Terms};
ghost use Rattle.term.specs.Setting.{Setting};
ghost use Rattle.run_chains.specs.Follow.{Follows, ArgumentsFollowed};

use crate::follow::follow;
use term::layout::FOLLOWED;
use term::scratch::{argument, count, set_at};

// The arguments of the goal at a place, followed.
pub fn follow_arguments(s: &mut [u64], values: usize, links: usize, goal: usize)
    requires { (x : Setting) × (l : ℕ) × (f : Functor) × (ts : Terms) × Follows s.old x values links l f ts goal }
    ensures { (x : Setting) (l : ℕ) (f : Functor) (ts : Terms) → Follows s.old x values links l f ts goal
        → ArgumentsFollowed s.old s.new x links ts }
{
    for i in 1..=count(s, goal) {
        let a = argument(s, goal, i);
        let w = follow(s, values, links, a);
        set_at(s, FOLLOWED, i, w);
    }
}
