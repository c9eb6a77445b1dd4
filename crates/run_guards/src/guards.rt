// The guards of a clause, in order.
ghost use Rattle.std.specs.Prelude.{◌≡◌, List, ℕ, ◌<◌};
ghost use Rattle.meaning.specs.Terms.{Term, Guard, Clause, equal as equals, a_ground, count};
ghost use Rattle.meaning.specs.Compare.{Assignment};
ghost use Rattle.meaning.specs.Guards.{argument_is, answer};
ghost use Rattle.term.specs.Guards.{test_number};
ghost use Rattle.term.specs.Setting.{Setting};
ghost use Rattle.term.specs.Words.{tag_in, rest_in};
ghost use Rattle.run_compare.specs.Compare.{Template};
ghost use Rattle.run_asked.specs.Asking.{out};
ghost use Rattle.run_guards.specs.Guarding.{Guarded, Earlier, GuardsAre};
ghost use Rattle.run_guards.specs.Single.{GuardAt, GuardIs, Argument, written, IsRead, constant_tag, of_kind};

use run_asked::asking::Hindered;
use run_chains::follow::follow;
use run_equal::equal::equal;
use run_ground::seek::seek;
use run_readers::readers::meet;
use term::guards::{
    A_COMPOUND, A_CONSTANT, AN_INTEGER, ARE_EQUAL, IS_GROUND, OTHERWISE, arguments,
};
use term::layout::{CLAUSE_GUARDS, CLAUSE_STRIDE, CLAUSE_TESTS, CLAUSES, TRIAL};
use term::scratch::{argument, word_at};
use term::word::{COMPOUND, INTEGER, READER, TAGS, index, word};

// The kinds that a guard looks for. What is of any kind is known.
#[derive(Clone, Copy)]
enum Kind {
    Integer,
    Constant,
    Compound,
    Any,
}

// What the word of an argument stands for: a variable for what the head gave it, followed in the values; None where that is nothing.
fn read(s: &[u64], values: usize, links: usize, w: u64) -> Option<u64>
    requires { (x : Setting) × (y : Template) × (given : List Assignment) × (marks : ℕ) × (t : Term) × Argument s.now x y given values marks links t w }
    ensures { (x : Setting) (y : Template) (given : List Assignment) (marks : ℕ) (t : Term)
        → Argument s.now x y given values marks links t w → IsRead x (written x given t) result }
{
    if w % TAGS > READER {
        return Some(w);
    }
    let v = word_at(s, TRIAL, index(w / TAGS));
    if v == 0 {
        return None;
    }
    Some(follow(s, values, links, v))
}

// Whether a term that is no variable is of a kind, by its tag. A list cell is a compound.
fn is_kind(kind: Kind, tag: u64) -> bool
    ensures { result ≡ of_kind kind tag }
{
    match kind {
        Kind::Integer => tag == INTEGER,
        Kind::Constant => tag != COMPOUND,
        Kind::Compound => tag == COMPOUND,
        Kind::Any => true,
    }
}

// Integer, constant, compound and known look at the argument itself: "a reader waits and a writer fails".
fn look_at(
    s: &mut [u64],
    values: usize,
    marks: usize,
    links: usize,
    met: usize,
    kind: Kind,
    place: usize,
) -> Result<(), Hindered>
    requires { (x : Setting) × (y : Template) × (given : List Assignment) × (stamp : ℕ) × (g : Guard)
        × GuardAt s.old x y given values marks links met stamp g place × (0 < count g.arguments) }
    ensures { (x : Setting) (y : Template) (given : List Assignment) (stamp : ℕ) (g : Guard)
        → GuardAt s.old x y given values marks links met stamp g place → 0 < count g.arguments
        → GuardIs s.old s.new x marks links met stamp
        (argument_is (λ k. of_kind kind (constant_tag k)) (of_kind kind 6) (out x given g.arguments)) result }
{
    let Some(w) = read(s, values, links, argument(s, place, 1)) else {
        return Err(Hindered::Fails);
    };
    let tag = w % TAGS;
    if tag < READER {
        return Err(Hindered::Fails);
    }
    if tag == READER {
        return Err(Hindered::Waits(meet(s, marks + links, links, met, index(w / TAGS))));
    }
    if is_kind(kind, tag) {
        Ok(())
    } else {
        Err(Hindered::Fails)
    }
}

// "Ground fails on an unassigned writer, else waits on every unassigned reader."
fn is_ground(
    s: &mut [u64],
    values: usize,
    marks: usize,
    links: usize,
    met: usize,
    place: usize,
    stamp: u64,
) -> Result<(), Hindered>
    requires { (x : Setting) × (y : Template) × (given : List Assignment) × (g : Guard)
        × GuardAt s.old x y given values marks links met stamp g place × (g.row.test ≡ a_ground) }
    ensures { (x : Setting) (y : Template) (given : List Assignment) (g : Guard) (earlier : List ℕ)
        → GuardAt s.old x y given values marks links met stamp g place → g.row.test ≡ a_ground
        → GuardIs s.old s.new x marks links met stamp (answer a_ground earlier (out x given g.arguments)) result }
{
    let n = arguments(index(IS_GROUND));
    seek(s, values, marks, links, met, false, place, n, stamp)
}

// "`==` compares two written-out ground terms; else the first unassigned variable from the left decides."
fn are_equal(
    s: &mut [u64],
    values: usize,
    marks: usize,
    links: usize,
    met: usize,
    place: usize,
    stamp: u64,
) -> Result<(), Hindered>
    requires { (x : Setting) × (y : Template) × (given : List Assignment) × (g : Guard)
        × GuardAt s.old x y given values marks links met stamp g place × (g.row.test ≡ equals) }
    ensures { (x : Setting) (y : Template) (given : List Assignment) (g : Guard) (earlier : List ℕ)
        → GuardAt s.old x y given values marks links met stamp g place → g.row.test ≡ equals
        → GuardIs s.old s.new x marks links met stamp (answer equals earlier (out x given g.arguments)) result }
{
    let n = arguments(index(ARE_EQUAL));
    seek(s, values, marks, links, met, true, place, n, stamp)?;
    if equal(s, values, marks, links, met, place) {
        Ok(())
    } else {
        Err(Hindered::Fails)
    }
}

// The guard of a word. "Otherwise succeeds exactly if every earlier clause of the procedure failed, and else waits with the earlier ones."
fn ask(
    s: &mut [u64],
    values: usize,
    marks: usize,
    links: usize,
    met: usize,
    w: u64,
    stamp: u64,
) -> Result<(), Hindered>
    requires { (x : Setting) × (y : Template) × (given : List Assignment) × (g : Guard)
        × GuardAt s.old x y given values marks links met stamp g (rest_in w) × (tag_in w ≡ test_number g.row.test) }
    ensures { (x : Setting) (y : Template) (given : List Assignment) (g : Guard) (earlier : List ℕ)
        → GuardAt s.old x y given values marks links met stamp g (rest_in w) → tag_in w ≡ test_number g.row.test → Earlier earlier met
        → GuardIs s.old s.new x marks links met stamp (answer g.row.test earlier (out x given g.arguments)) result }
{
    let place = index(w / TAGS);
    let kind = match w % TAGS {
        AN_INTEGER => Kind::Integer,
        A_CONSTANT => Kind::Constant,
        A_COMPOUND => Kind::Compound,
        IS_GROUND => return is_ground(s, values, marks, links, met, place, stamp),
        ARE_EQUAL => return are_equal(s, values, marks, links, met, place, stamp),
        OTHERWISE => {
            if met == 0 {
                return Ok(());
            }
            return Err(Hindered::Waits(met));
        }
        _ => Kind::Any,
    };
    look_at(s, values, marks, links, met, kind, place)
}

// The guards of clause k, whose places agree without a circle, when the step has met so many readers. Stamps from this one on are unused.
pub fn guards(
    s: &mut [u64],
    values: usize,
    marks: usize,
    links: usize,
    k: usize,
    met: usize,
    stamp: u64,
) -> Result<(), Hindered>
    requires { (x : Setting) × (y : Template) × (c : Clause) × (given : List Assignment) × Guarded s.old x y c given values marks links met stamp × (k ≡ y.number) }
    ensures { (x : Setting) (y : Template) (c : Clause) (given : List Assignment) (earlier : List ℕ)
        → Guarded s.old x y c given values marks links met stamp → k ≡ y.number → Earlier earlier met
        → GuardsAre s.old s.new x c earlier given marks links met stamp result }
{
    let at = CLAUSES + CLAUSE_STRIDE * k;
    for i in 0..index(word_at(s, at, CLAUSE_GUARDS)) {
        let w = word_at(s, at, CLAUSE_TESTS + i);
        ask(s, values, marks, links, met, w, stamp + word(i))?;
    }
    Ok(())
}
