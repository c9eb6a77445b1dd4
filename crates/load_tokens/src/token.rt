// Document 01, 'Job text', first paragraph, with `==` of document 02, T-02: the token in front of a part of the text, from an offset on.

ghost use Rattle.std.specs.Prelude.{◌≡◌, true, ◌+◌, ◌≤◌, ◌<◌, eqb, length, drop, get_or, Some, None};
ghost use Rattle.meaning.specs.Bytes.{byte, when◌then◌else◌, all};
ghost use Rattle.meaning.specs.Tokens.{value, next_is};
ghost use Rattle.meaning.specs.Tokens as tokens;
ghost use Rattle.load_tokens.specs.Ends.{Skipped, end_of_run, end_of_remark};
ghost use Rattle.load_tokens.specs.Fronts.{FrontIs, double_sign, second, begins_sign as begins_sign_meant, behind};

// What stands in front, with where it begins and where it ends; of a reader the `?` is not counted in its end.
#[derive(Clone, Copy)]
pub enum Token {
    End,
    Name(usize, usize),
    Writer(usize, usize),
    Reader(usize, usize),
    Integer(u64, usize, usize),
    Sign(u8, usize),
    Bad(usize),
}

// Space, tab, CR and LF.
// Stays an arm for each: `matches!` compares with one after the other, and blanks, line feeds and short remarks take up to twice as long.
#[tactic(auto, using(std::proofs::lemmas::Bool::Decides::nat_tests), unfolding(meaning::specs::Tokens::tokens_words))]
fn separates(c: u8) -> bool
    ensures { result ≡ tokens.separates c }
{
    match c {
        b' ' => true,
        b'\t' => true,
        b'\r' => true,
        b'\n' => true,
        _ => false,
    }
}

// The bytes of a name: document 02's 'one visible row of ranges in rising order'. Variables and integers share them.
#[tactic(auto, using(std::proofs::lemmas::Bool::Decides::nat_tests), unfolding(meaning::specs::Tokens::tokens_words))]
fn in_run(c: u8) -> bool
    ensures { result ≡ tokens.in_run c }
{
    matches!(c, b'0'..=b'9' | b'A'..=b'Z' | b'_' | b'a'..=b'z')
}

// The signs of a single byte.
#[tactic(auto, using(std::proofs::lemmas::Bool::Decides::nat_tests), unfolding(meaning::specs::Tokens::tokens_words))]
fn single_sign(c: u8) -> bool
    ensures { result ≡ tokens.single_sign c }
{
    matches!(c, b'(' | b')' | b'[' | b']' | b',' | b'|' | b'.')
}

// The first byte of `:-`, of `?-` and of `==`.
#[tactic(auto, using(std::proofs::lemmas::Bool::Decides::nat_tests), unfolding(meaning::specs::Tokens::tokens_words, crate::specs::Fronts::double_sign))]
fn begins_double(c: u8) -> bool
    ensures { result ≡ double_sign c }
{
    matches!(c, b':' | b'?' | b'=')
}

// The second byte of a sign of two bytes, by its first.
#[tactic(auto, using(std::proofs::lemmas::Bool::Decides::nat_tests), unfolding(meaning::specs::Tokens::tokens_words, crate::specs::Fronts::second))]
fn second_byte(c: u8) -> u8
    ensures { result ≡ second c }
{
    if c == b'=' { b'=' } else { b'-' }
}

// The end of a remark: its LF, or the end of the text.
// Stays a loop over places: `take_while` and `count` count from the remark on, which short remarks feel.
fn remark_end(rest: &[u8], at: usize) -> usize
    requires { at ≤ length rest.now }
    ensures { (result ≡ end_of_remark rest.now at) × (result ≤ length rest.now) }
{
    for i in at..rest.len() {
        if rest[i] == b'\n' {
            return i;
        }
    }
    rest.len()
}

// The first byte that is neither a separator nor in a remark, or the end of the text.
pub fn skip(rest: &[u8], at: usize) -> usize
    requires { at ≤ length rest.now }
    ensures { Skipped rest.now at result }
{
    let mut i = at;
    while i < rest.len() {
        let c = rest[i];
        if separates(c) {
            i += 1;
        } else if c == b'%' {
            i = remark_end(rest, i + 1);
        } else {
            return i;
        }
    }
    i
}

// The end of the longest run of letters, digits and `_`.
fn run_end(rest: &[u8], at: usize) -> usize
    requires { at ≤ length rest.now }
    ensures { (result ≡ end_of_run rest.now at) × (result ≤ length rest.now) }
{
    at + rest[at..].iter().take_while(|c| in_run(**c)).count()
}

// The value of decimal digits, at most ten of them; none where a byte is no digit.
fn digits_value(digits: &[u8]) -> Option<u64>
    requires { length digits.now ≤ 10 }
    ensures { result ≡ when all tokens.digit digits.now then Some (value 0 digits.now) else None }
{
    let mut v: u64 = 0;
    for c in digits {
        if !c.is_ascii_digit() {
            return None;
        }
        v = v * 10 + u64::from(*c - b'0');
    }
    Some(v)
}

// A run led by a digit: an integer without a sign, or bad.
fn unsigned(rest: &[u8], a: usize) -> Token
    requires { (a < length rest.now) × (tokens.digit (get_or rest.now a 0) ≡ true) }
    ensures { FrontIs rest.now a result }
{
    let e = run_end(rest, a + 1);
    if rest[a] == b'0' {
        if e == a + 1 {
            return Token::Integer(0, a, e);
        }
        return Token::Bad(a);
    }
    if 10 < e - a {
        return Token::Bad(a);
    }
    match digits_value(&rest[a..e]) {
        Some(v) if v <= 2_147_483_647 => Token::Integer(v, a, e),
        _ => Token::Bad(a),
    }
}

// A `-` at a, right before a digit: a negative integer, or bad.
fn negative(rest: &[u8], a: usize) -> Token
    requires { (a + 1 < length rest.now) × (get_or rest.now a 0 ≡ byte "-") × (tokens.digit (get_or rest.now (a + 1) 0) ≡ true) }
    ensures { FrontIs rest.now a result }
{
    if rest[a + 1] == b'0' {
        return Token::Bad(a);
    }
    let e = run_end(rest, a + 1);
    if 11 < e - a {
        return Token::Bad(a);
    }
    match digits_value(&rest[a + 1..e]) {
        Some(v) if v <= 2_147_483_648 => Token::Integer(4_294_967_296 - v, a, e),
        _ => Token::Bad(a),
    }
}

// A run led by a lowercase letter: a name, or bad if it is overlong.
fn name(rest: &[u8], a: usize) -> Token
    requires { (a < length rest.now) × (tokens.lowercase (get_or rest.now a 0) ≡ true) }
    ensures { FrontIs rest.now a result }
{
    let e = run_end(rest, a + 1);
    if e - a <= 31 {
        Token::Name(a, e)
    } else {
        Token::Bad(a)
    }
}

// A run led by an uppercase letter: a reader where a `?` stands directly behind it, else a writer; or bad if it is overlong.
fn variable(rest: &[u8], a: usize) -> Token
    requires { (a < length rest.now) × (tokens.uppercase (get_or rest.now a 0) ≡ true) }
    ensures { FrontIs rest.now a result }
{
    let e = run_end(rest, a + 1);
    if 31 < e - a {
        Token::Bad(a)
    } else if stands_at(rest, e, b'?') {
        Token::Reader(a, e)
    } else {
        Token::Writer(a, e)
    }
}

// Whether this byte stands at a place.
fn stands_at(rest: &[u8], at: usize, byte: u8) -> bool
    ensures { result ≡ next_is (λ c. eqb c byte) (drop at rest.now) }
{
    match rest.get(at) {
        Some(c) => *c == byte,
        None => false,
    }
}

// Whether a byte begins a sign: one of a single byte, or `:-`, `?-` or `==`.
#[tactic(auto, unfolding(crate::specs::Fronts::begins_sign))]
pub fn begins_sign(rest: &[u8], a: usize, c: u8) -> bool
    requires { a < length rest.now }
    ensures { result ≡ begins_sign_meant c (drop (a + 1) rest.now) }
{
    single_sign(c) || begins_double(c) && stands_at(rest, a + 1, second_byte(c))
}

// A `-`: an integer's where a digit stands right behind it, or bad.
fn minus(rest: &[u8], a: usize) -> Token
    requires { (a < length rest.now) × (get_or rest.now a 0 ≡ byte "-") }
    ensures { FrontIs rest.now a result }
{
    match rest.get(a + 1) {
        Some(d) if d.is_ascii_digit() => negative(rest, a),
        _ => Token::Bad(a),
    }
}

// A run, by its first byte: a name, a variable or an integer; one led by `_` is bad.
fn led(rest: &[u8], a: usize, c: u8) -> Token
    requires { (a < length rest.now) × (get_or rest.now a 0 ≡ c) × (tokens.in_run c ≡ true) }
    ensures { FrontIs rest.now a result }
{
    if c.is_ascii_lowercase() {
        name(rest, a)
    } else if c.is_ascii_uppercase() {
        variable(rest, a)
    } else if c.is_ascii_digit() {
        unsigned(rest, a)
    } else {
        Token::Bad(a)
    }
}

// The first token at or behind an offset.
pub fn front(rest: &[u8], at: usize) -> Token
    requires { at ≤ length rest.now }
    ensures { FrontIs rest.now at result }
{
    let a = skip(rest, at);
    if rest.len() <= a {
        return Token::End;
    }
    let c = rest[a];
    if begins_sign(rest, a, c) {
        Token::Sign(c, a)
    } else if in_run(c) {
        led(rest, a, c)
    } else if c == b'-' {
        minus(rest, a)
    } else {
        Token::Bad(a)
    }
}

// The first byte behind a sign.
#[tactic(auto, using(std::proofs::lemmas::Bool::Decides::nat_tests), unfolding(crate::specs::Fronts::behind, meaning::specs::Bytes::bytes_words))]
pub fn behind_sign(c: u8, a: usize) -> usize
    requires { a < 9223372036854775808 }
    ensures { result ≡ behind c a }
{
    if begins_double(c) { a + 2 } else { a + 1 }
}
