// The parts of a term that need no walk: a variable, an integer, a name, and what stands before a compound's first argument.
ghost use Rattle.std.specs.Prelude.{◌≡◌, List, [], ◌∷◌, ℕ, ◌+◌, ◌*◌, ◌≤◌, ◌<◌, ◌/◌, ◌%◌, length, get_or};
ghost use Rattle.meaning.specs.Bytes.{Bytes, decimal as in_decimal};
ghost use Rattle.meaning.specs.Terms.{Integer, Functor, Term};
ghost use Rattle.meaning.specs.Report.{alone, written, integer_bytes};
ghost use Rattle.term.specs.Cells.{bits};
ghost use Rattle.term.specs.Words.{view, tag_in, rest_in};
ghost use Rattle.term.specs.Setting.{Setting, RangedInteger};
ghost use Rattle.term.specs.Spellings.{SpelledAt};
ghost use Rattle.term.specs.Layout.{pair_facts};
ghost use Rattle.report_pairs.specs.Threaded.{full};
ghost use Rattle.report_pairs.specs.Laid.{Puts};
ghost use Rattle.report_pairs.specs.Facts.{Led};
ghost use Rattle.report_pairs.specs.Walk.{opening_bytes, Opens};
ghost use Rattle.report_pairs.specs.Pairs.{NoCompound};
ghost use Rattle.report_leaves.specs.Writes.{Writes};

use crate::source::Source;
use report_pairs::cells::functor;
use report_pairs::ends::{NUMBER, fact};
use report_put::put::{decimal, put, spelling, words};
use term::scratch::word_at;
use term::word::{View, index, look};

// An integer by its 32 bits.
fn integer(buffer: &mut [u8], at: usize, n: u64) -> usize
    requires { (i : Integer) × RangedInteger i × (n ≡ bits i) × (at + length (integer_bytes i) ≤ length buffer.old) }
    ensures { (i : Integer) → RangedInteger i → n ≡ bits i → Puts buffer.old buffer.new at result (integer_bytes i) }
{
    if n < 2147483648 {
        return decimal(buffer, at, n);
    }
    let to = put(buffer, at, b'-');
    decimal(buffer, to, 4294967296 - n)
}

impl Source<'_> {
    // "An unassigned pair is `_1`, `_2`, .."
    fn variable(&self, buffer: &mut [u8], at: usize, p: usize) -> usize
        requires { (self.now.facts + pair_facts * p + 2 < length self.now.s.now)
            × (at + 1 + length (in_decimal (get_or self.now.s.now (self.now.facts + pair_facts * p + 2) 0)) ≤ length buffer.old) }
        ensures { Puts buffer.old buffer.new at result (95 ∷ in_decimal (get_or self.now.s.now (self.now.facts + pair_facts * p + 2) 0)) }
    {
        let to = put(buffer, at, b'_');
        decimal(buffer, to, fact(self.s, self.facts, p, NUMBER))
    }

    // A name by its number.
    fn name(&self, buffer: &mut [u8], at: usize, k: usize) -> usize
        requires { (f : Bytes) × (2 * k + 1 < length self.now.s.now)
            × SpelledAt self.now.text.now (get_or self.now.s.now (2 * k) 0) (get_or self.now.s.now (2 * k + 1) 0) f
            × (at + length f ≤ length buffer.old) }
        ensures { (f : Bytes) → SpelledAt self.now.text.now (get_or self.now.s.now (2 * k) 0) (get_or self.now.s.now (2 * k + 1) 0) f
            → Puts buffer.old buffer.new at result f }
    {
        let start = index(word_at(self.s, 2 * k, 0));
        let n = index(word_at(self.s, 2 * k, 1));
        spelling(self.text, buffer, at, start, n)
    }

    // A term that is no compound, and no assigned variable.
    pub fn leaf(&self, buffer: &mut [u8], at: usize, w: u64) -> usize
        requires { (x : Setting) × (order : List ℕ) × (t : Term)
            × Writes self.now.s.now self.now.text.now x self.now.facts order t at (length buffer.old) × Led self.now.s.now x t w
            × NoCompound (view (tag_in w) (rest_in w)) }
        ensures { (x : Setting) (order : List ℕ) (t : Term) → Writes self.now.s.now self.now.text.now x self.now.facts order t at (length buffer.old)
            → Led self.now.s.now x t w → NoCompound (view (tag_in w) (rest_in w))
            → Puts buffer.old buffer.new at result (written order alone (full x.values t)) }
    {
        match look(w) {
            View::Writer(p) => self.variable(buffer, at, p),
            View::Reader(p) => {
                let to = self.variable(buffer, at, p);
                put(buffer, to, b'?')
            }
            View::Integer(bits) => integer(buffer, at, bits),
            View::Name(k) => self.name(buffer, at, k),
            View::Empty => words(buffer, at, b"[]"),
            _ => at,
        }
    }

    // What stands before a compound's first argument: its name and a parenthesis, or a bracket.
    pub fn opening(&self, buffer: &mut [u8], at: usize, p: usize) -> usize
        requires { (f : Functor) × (p < length self.now.s.now) × Opens self.now.s.now self.now.text.now (rest_in (get_or self.now.s.now p 0)) f
            × (at + length (opening_bytes f) ≤ length buffer.old) }
        ensures { (f : Functor) → Opens self.now.s.now self.now.text.now (rest_in (get_or self.now.s.now p 0)) f
            → Puts buffer.old buffer.new at result (opening_bytes f) }
    {
        match functor(self.s, p) {
            None => put(buffer, at, b'['),
            Some(k) => {
                let to = self.name(buffer, at, k);
                put(buffer, to, b'(')
            }
        }
    }
}
