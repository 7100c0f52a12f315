//! Steps of the rules of pattern texts: keywords, names, characters and times (IEEE 1450-1999).

ghost use Rattle.std.specs.Prelude.{true, ◌≡◌, ◌≤◌, ◌<◌, ◌+◌, ◌-◌, ◌*◌, ◌||◌, ◌∷◌, [], nat_lt, length, slice_index, IfOk};
ghost use Rattle.std.specs.List.{list_any, prefix_len};
ghost use Rattle.std.specs.Str.{bytes_eq};
ghost use Rattle.std.specs.Char.{is_ascii_alphabetic, is_ascii_alphanumeric};
ghost use Rattle.dft_base.specs.Name.{IsName};
ghost use Rattle.dft_stil_tokens.specs.Steps as spec;
ghost use Rattle.dft_stil_tokens.specs.declared.text.TokenKind.TheVariants as kind;
ghost use Rattle.dft_stil_tokens.specs.Reading.{Reads, Faults};

use crate::faults::fault_at;
use crate::read_error::ReadError;
use crate::text::{Cause, TokenKind};
use crate::tokens::Tokens;

// The words that the profile leaves out, in their order.
static LEFT_OUT: [&str; 12] = [
    "Procedures",
    "MacroDefs",
    "Loop",
    "Call",
    "ScanStructures",
    "Include",
    "InOut",
    "Pseudo",
    "Stop",
    "Macro",
    "C",
    "F",
];

// Whether a word is among these.
fn is_among(words: &[&str], word: &[u8]) -> bool
    ensures { result ≡ list_any (λ known. bytes_eq known.now word.now) words.entry.now }
{
    words.iter().any(|known| known.as_bytes() == word)
}

// Whether the profile leaves out this word.
fn is_left_out(word: &[u8]) -> bool
    ensures { result ≡ spec.is_left_out word.now }
{
    is_among(&LEFT_OUT, word)
}

fn is_capital(byte: u8) -> bool
    ensures { result ≡ spec.is_capital byte }
{
    65 <= byte && byte <= 90
}

// How many letters and digits these bytes begin with.
fn run_len(bytes: &[u8]) -> usize
    ensures value { result ≡ prefix_len is_ascii_alphanumeric bytes.now }
    ensures within { result ≤ length bytes.now }
{
    bytes
        .iter()
        .take_while(|byte| byte.is_ascii_alphanumeric())
        .count()
}

// The value behind one digit more; a value that is too large stays.
fn next_value(value: u64, digit: u8) -> u64
    ensures small { value < 1000000000 → result ≡ value * 10 + (digit - 48) }
    ensures large { 1000000000 ≤ value → result ≡ value }
{
    if value < 1_000_000_000 {
        value * 10 + u64::from(digit.saturating_sub(b'0'))
    } else {
        value
    }
}

#[tactic(auto, using(crate::proofs::NumberLemmas::digits_add), unfolding(crate::specs::Steps::number_from))]
// The value of decimal digits; where it is too large, a number that is too large.
fn number(digits: &[u8]) -> u64
    ensures small { spec.number_from 0 digits.now < 1000000000 → result ≡ spec.number_from 0 digits.now }
    ensures large { 1000000000 ≤ spec.number_from 0 digits.now → 1000000000 ≤ result }
{
    let mut value = 0;
    for digit in digits {
        value = next_value(value, *digit);
    }
    value
}

impl<'a> Tokens<'a> {
    #[tactic(auto, unfolding(crate::specs::Steps::sees_word))]
    /// Whether this word comes next, without quotes.
    pub fn sees_word(&self, word: &[u8]) -> bool
        ensures { result ≡ spec.sees_word word.now self.now }
    {
        self.sees(TokenKind::Word) && self.bytes() == word
    }

    #[tactic(auto, unfolding(crate::specs::Steps::after_word))]
    /// Takes this keyword, if it comes next.
    pub fn eat_word(&mut self, word: &[u8]) -> bool
        ensures found { result ≡ spec.sees_word word.now self.old }
        ensures after { self.new ≡ spec.after_word word.now self.old }
    {
        let found = self.sees_word(word);
        if found {
            self.take();
        }
        found
    }

    #[tactic(auto, unfolding(crate::specs::Steps::sees_left_out))]
    /// Whether a word comes next that the profile leaves out, without quotes.
    pub fn sees_left_out(&self) -> bool
        ensures value { result ≡ spec.sees_left_out self.now }
        ensures name { result ≡ true → IsName (spec.bytes self.now) }
    {
        self.sees(TokenKind::Word) && is_left_out(self.bytes())
    }

    #[tactic(auto, unfolding(crate::specs::Steps::sees_capital))]
    // Whether a word comes next that begins with a capital letter, without quotes.
    fn sees_capital(&self) -> bool
        ensures value { result ≡ spec.sees_capital self.now }
        ensures name { result ≡ true → IsName (spec.bytes self.now) }
    {
        self.sees(TokenKind::Word) && is_capital(first_of(self.bytes()))
    }

    #[tactic(auto, unfolding(crate::specs::Steps::mark_refusal))]
    /// That no rule takes the next token, where a mark must come.
    pub fn mark_refusal(&self) -> ReadError
        ensures { Faults (spec.mark_refusal self.now) result }
    {
        if self.sees_left_out() {
            self.unsupported()
        } else {
            self.no_token()
        }
    }

    #[tactic(auto, unfolding(crate::specs::Steps::keyword_refusal))]
    /// That no rule takes the next token, where a keyword might come, and no name.
    pub fn keyword_refusal(&self) -> ReadError
        ensures { Faults (spec.keyword_refusal self.now) result }
    {
        if self.sees_capital() {
            self.unsupported()
        } else {
            self.no_token()
        }
    }

    #[tactic(auto, unfolding(crate::specs::Steps::expect))]
    /// Takes a token of this kind, which must come next.
    pub fn expect(&mut self, kind: TokenKind) -> Result<&'a [u8], ReadError>
        ensures { Reads (λ bytes. bytes.now) (spec.expect kind self.old) result self.new }
    {
        if self.sees(kind) {
            Ok(self.take())
        } else {
            Err(self.mark_refusal())
        }
    }

    #[tactic(auto, unfolding(crate::specs::Steps::keyword))]
    /// Takes this keyword, which must come next.
    pub fn keyword(&mut self, word: &[u8]) -> Result<&'a [u8], ReadError>
        ensures { Reads (λ bytes. bytes.now) (spec.keyword word.now self.old) result self.new }
    {
        if self.sees_word(word) {
            Ok(self.take())
        } else {
            Err(self.keyword_refusal())
        }
    }

    #[tactic(auto, unfolding(crate::specs::Steps::sees_name))]
    /// Whether a name comes next, with quotes or without.
    pub fn sees_name(&self) -> bool
        ensures value { result ≡ spec.sees_name self.now }
        ensures name { result ≡ true → IsName (spec.bytes self.now) }
    {
        self.sees(TokenKind::Word) || self.sees(TokenKind::Quoted)
    }

    #[tactic(auto, unfolding(crate::specs::Steps::name))]
    /// Takes a name, which must come next.
    pub fn name(&mut self) -> Result<&'a [u8], ReadError>
        ensures read { Reads (λ bytes. bytes.now) (spec.name self.old) result self.new }
        ensures name { IfOk result (λ bytes. IsName bytes.now) }
    {
        if self.sees_name() {
            Ok(self.take())
        } else {
            Err(self.no_token())
        }
    }

    // The letters and digits that the next token begins with.
    fn run(&self) -> &'a [u8]
        ensures { result.now ≡ spec.run self.now }
    {
        let bytes = self.bytes();
        &bytes[..run_len(bytes)]
    }

    // Whether a word or a number comes next, without quotes.
    fn sees_plain(&self) -> bool
        ensures value { result ≡ (spec.sees kind.Word self.now || spec.sees kind.Number self.now) }
        ensures name { result ≡ true → IsName (spec.bytes self.now) }
    {
        self.sees(TokenKind::Word) || self.sees(TokenKind::Number)
    }

    #[tactic(auto, unfolding(crate::specs::Steps::sees_run))]
    // Whether a run of letters and digits comes next, without quotes.
    fn sees_run(&self) -> bool
        ensures value { result ≡ spec.sees_run self.now }
        ensures name { result ≡ true → IsName (spec.run self.now) }
    {
        self.sees_plain() && 0 < self.run().len()
    }

    #[tactic(auto, using(crate::proofs::CharacterNames::characters_are_names), unfolding(crate::specs::Steps::one_character))]
    /// The one letter or digit that comes next, which is not taken yet; the profile leaves out a run of more.
    pub fn character(&self) -> Result<u8, ReadError>
        ensures read { Reads (λ b. b) (spec.one_character self.now) result self.now }
        ensures name { IfOk result (λ b. IsName (b ∷ [])) }
    {
        if !self.sees_run() {
            return Err(self.no_token());
        }
        let run = self.run();
        if run.len() == 1 {
            Ok(first_of(run))
        } else {
            Err(self.unsupported_word(run))
        }
    }

    #[tactic(auto, unfolding(crate::specs::Steps::one_letter))]
    /// The one letter that comes next, which is not taken yet; the profile leaves out a run of more letters or digits.
    pub fn letter(&self) -> Result<u8, ReadError>
        ensures read { Reads (λ b. b) (spec.one_letter self.now) result self.now }
        ensures name { IfOk result (λ b. IsName (b ∷ [])) }
    {
        if self.sees_run() && is_letter_or_long(self.run()) {
            self.character()
        } else {
            Err(self.no_token())
        }
    }

    #[tactic(auto, unfolding(crate::specs::Steps::single))]
    /// Takes the letter or digit that comes next. What follows it in its token, as `_`, `.` or `[`, fits no rule.
    pub fn single(&mut self) -> Result<&'a [u8], ReadError>
        ensures { Reads (λ bytes. bytes.now) (spec.single self.old) result self.new }
    {
        if self.bytes().len() == 1 {
            Ok(self.take())
        } else {
            Err(fault_at(Cause::Token, self.left().saturating_sub(1)))
        }
    }

    #[tactic(auto, unfolding(crate::specs::Steps::small_number))]
    /// Takes a whole number below 10 ^ 9.
    pub fn small_number(&mut self) -> Result<u64, ReadError>
        ensures read { Reads (λ n. n) (spec.small_number self.old) result self.new }
        ensures small { IfOk result (λ n. n < 1000000000) }
    {
        if !self.sees(TokenKind::Number) {
            return Err(self.mark_refusal());
        }
        let value = number(self.bytes());
        if value < 1_000_000_000 {
            self.take();
            Ok(value)
        } else {
            Err(self.no_token())
        }
    }

    #[tactic(auto, unfolding(crate::specs::Steps::unit))]
    /// Takes a unit: how many picoseconds it has.
    pub fn unit(&mut self) -> Result<u64, ReadError>
        ensures read { Reads (λ n. n) (spec.unit self.old) result self.new }
        ensures small { IfOk result (λ n. n ≤ 1000) }
    {
        if self.sees_word(b"ns") {
            self.take();
            Ok(1000)
        } else if self.sees_word(b"ps") {
            self.take();
            Ok(1)
        } else {
            Err(self.keyword_refusal())
        }
    }
}

// The first of these bytes, and 0 where there is none.
fn first_of(bytes: &[u8]) -> u8
    ensures { result ≡ slice_index bytes.now 0 }
{
    match bytes {
        [first, ..] => *first,
        [] => 0,
    }
}

// Whether these bytes begin with a letter, or are more than one.
fn is_letter_or_long(bytes: &[u8]) -> bool
    ensures { result ≡ (nat_lt 1 (length bytes.now) || is_ascii_alphabetic (slice_index bytes.now 0)) }
{
    1 < bytes.len() || first_of(bytes).is_ascii_alphabetic()
}
