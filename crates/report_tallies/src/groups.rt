// The three lists of goals in the scratch, and which of their goals are a query's.
ghost use Rattle.std.specs.Prelude.{◌≡◌, ◌+◌, ◌*◌, ◌%◌, ◌≤◌, ◌<◌, length, get_or};
ghost use Rattle.term.specs.Layout.{figures, InRange};
ghost use Rattle.report_tallies.specs.Groups.{goal_in, GroupInside, own as own_word, own_from, active_group, waiting_group, failed_group};

use term::layout::Room;
use term::scratch::word_at;
use term::state::Standing;
use term::word::{TAGS, index};

// So many goals of one of the three lists: their words stand from a place on, so many words apart, in a ring of so many, from a first one on.
#[derive(Clone, Copy)]
pub struct Group {
    pub from: usize,
    pub step: usize,
    pub size: usize,
    pub first: usize,
    pub count: usize,
}

impl Group {
    // The three lists.
    pub fn active(room: Room, t: Standing) -> Group
        requires { InRange (figures room) }
        ensures { result ≡ active_group (figures room) t }
    {
        Group {
            from: room.queue(),
            step: 1,
            size: room.goals,
            first: t.front,
            count: t.active,
        }
    }

    pub fn waiting(room: Room, t: Standing) -> Group
        requires { InRange (figures room) }
        ensures { result ≡ waiting_group (figures room) t }
    {
        Group {
            from: room.waiting(),
            step: 2,
            size: t.log,
            first: 0,
            count: t.log,
        }
    }

    pub fn failed(room: Room, t: Standing) -> Group
        requires { InRange (figures room) }
        ensures { result ≡ failed_group (figures room) t }
    {
        Group {
            from: room.failed(),
            step: 1,
            size: t.failed,
            first: 0,
            count: t.failed,
        }
    }

    // The goal's word at a place of the list; 0 at an emptied place.
    pub fn goal_at(self, s: &[u64], i: usize) -> u64
        requires { GroupInside s.now self × (i < self.count) }
        ensures { result ≡ goal_in s.now self i }
    {
        let at = self.first + i;
        if at < self.size {
            return word_at(s, self.from, self.step * at);
        }
        word_at(s, self.from, self.step * (at - self.size))
    }

    // How many goals of the list are the query's.
    pub fn number(self, s: &[u64], q: usize) -> usize
        requires { GroupInside s.now self }
        ensures { result ≡ length (own_from s.now self q 0 self.count) }
    {
        let mut n = 0;
        for i in 0..self.count {
            if own(self.goal_at(s, i), q) {
                n += 1;
            }
        }
        n
    }
}

// Whether a goal is one of the query's.
pub fn own(goal: u64, q: usize) -> bool
    ensures { result ≡ own_word q goal }
{
    goal != 0 && index(goal % TAGS) == q
}
