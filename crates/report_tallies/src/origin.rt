// What stands behind a goal: the clause that made it, and its query's number of tries then.
ghost use Rattle.std.specs.Prelude.{◌≡◌, ◌+◌, ◌≤◌, length};
ghost use Rattle.report_pairs.specs.Laid.{Puts};
ghost use Rattle.report_tallies.specs.Origins.{origin_of};

use crate::header::count;
use report_pairs::length::digits;
use term::goal::{clause_of, tries_of};

// "Each active, waiting or failed line ends with ` from C at T`"
pub fn origin_length(goal: u64) -> usize
    ensures { (result ≡ length (origin_of goal)) × (result ≤ 50) }
{
    10 + digits(clause_of(goal) as u64) + digits(tries_of(goal) as u64)
}

pub fn origin(buffer: &mut [u8], at: usize, goal: u64) -> usize
    requires { at + length (origin_of goal) ≤ length buffer.old }
    ensures { Puts buffer.old buffer.new at result (origin_of goal) }
{
    let to = count(buffer, at, b" from ", clause_of(goal));
    count(buffer, to, b" at ", tries_of(goal))
}
