//! A cursor over the tokens of a pattern text, which cuts each as it is reached.

ghost use Rattle.std.specs.Prelude.{Bool, true, ◌≡◌, ◌≤◌, ◌<◌, length, IfOk};
ghost use Rattle.dft_base.specs.Lexing.{tokens_from};
ghost use Rattle.dft_base.specs.Name.{IsName};
ghost use Rattle.dft_stil_tokens.specs.Lexemes as lexical;
ghost use Rattle.dft_stil_tokens.specs.Steps as spec;
ghost use Rattle.dft_stil_tokens.specs.declared.text.TokenKind.TheVariants as kinds;
ghost use Rattle.dft_stil_tokens.specs.declared.text.Cause.TheVariants as causes;
ghost use Rattle.dft_stil_tokens.specs.Cut.{carries_name};
ghost use Rattle.dft_stil_tokens.specs.Reading.{Reads, Faults};

use crate::blanks::{MAX_TEXT, blank_len};
use crate::faults::unsupported_at;
use crate::lexeme::{Lexeme, cut};
use crate::read_error::ReadError;
use crate::text::{Cause, Fault, TokenKind};
use std::alloc::Global;
use std::marker::Model;

/// The tokens that are left of a pattern text (IEEE 1450-1999). A clause sees them as a list.
#[derive(Drop)]
pub struct Tokens<'a> {
    // The text from the next token on.
    ahead: &'a [u8],
    // Whether single quotes are open, so that a number has digits alone.
    quoted: bool,
    // The next token.
    front: Lexeme,
    // Where a fault puts its names.
    alloc: Global,
}

impl<'a> Model for Tokens<'a> {
    ghost use Rattle.std.specs.Prelude.{List};
    ghost use Rattle.dft_stil_tokens.specs.Lexemes.{Token};

    ghost Value = { List Token };

    ghost use Rattle.dft_stil_tokens.specs.TokensAhead.{tokens_ahead, IsReady};

    ghost view = { tokens_ahead };

    ghost invariant = { IsReady };
}

#[tactic(auto, using(crate::proofs::FrontLemmas::blanks_in_front))]
// The text without the blanks that it begins with.
fn skip_blanks(text: &[u8]) -> &[u8]
    requires { length text.now ≤ MAX_TEXT }
    ensures rest { (mode : Bool) → tokens_from lexical.front mode 0 result.now ≡ tokens_from lexical.front mode 0 text.now }
    ensures begins { lexical.blank_len result.now ≡ 0 }
    ensures within { length result.now ≤ length text.now }
{
    let mut rest = text;
    let mut blank = blank_len(rest);
    while 0 < blank {
        (_, rest) = rest.split_at(blank);
        blank = blank_len(rest);
    }
    rest
}

// Whether single quotes are open behind a token of this kind.
fn quoted_behind(kind: TokenKind, quoted: bool) -> bool
    ensures { result ≡ lexical.quoted_behind kind quoted }
{
    match kind {
        TokenKind::Quote => !quoted,
        TokenKind::Semicolon | TokenKind::OpenBrace | TokenKind::CloseBrace => false,
        _ => quoted,
    }
}

impl<'a> Tokens<'a> {
    /// The tokens of a text.
    pub fn new(alloc: Global, text: &'a [u8]) -> Tokens<'a>
        requires { length text.now ≤ MAX_TEXT }
        ensures { result ≡ lexical.tokens text.now }
    {
        Tokens::ahead(alloc, text, false)
    }

    // The tokens of a text, between single quotes or not.
    fn ahead(alloc: Global, text: &'a [u8], quoted: bool) -> Tokens<'a>
        requires { length text.now ≤ MAX_TEXT }
        ensures value { result ≡ tokens_from lexical.front quoted 0 text.now }
        ensures few { spec.left result ≤ length text.now }
    {
        let ahead = skip_blanks(text);
        let front = cut(quoted, ahead);
        Tokens {
            ahead,
            quoted,
            front,
            alloc,
        }
    }

    #[tactic(auto, using(crate::proofs::FrontLemmas::front_of_text))]
    /// What the next token is; at the end of the text, the end.
    pub fn kind(&self) -> TokenKind
        ensures value { result ≡ spec.kind_of self.now }
        ensures name { carries_name result ≡ true → IsName (spec.bytes self.now) }
    {
        self.front.kind
    }

    /// The bytes of the next token, without double quotes; none at the end.
    pub fn bytes(&self) -> &'a [u8]
        ensures { result.now ≡ spec.bytes self.now }
    {
        &self.ahead[self.front.prefix..self.front.end]
    }

    /// How many bytes there are from the next token's place on; 0 at the end.
    pub fn left(&self) -> usize
        ensures value { result ≡ spec.left self.now }
        ensures few { result ≤ MAX_TEXT }
    {
        self.ahead.len() - self.front.at
    }

    /// Takes the next token.
    pub fn take(&mut self) -> &'a [u8]
        ensures bytes { result.now ≡ spec.bytes self.old }
        ensures next { self.new ≡ spec.next self.old }
        ensures moves { 0 < spec.left self.old → spec.left self.new < spec.left self.old }
    {
        let bytes = self.bytes();
        let (_, rest) = self.ahead.split_at(self.front.len);
        *self = Tokens::ahead(
            self.alloc,
            rest,
            quoted_behind(self.front.kind, self.quoted),
        );
        bytes
    }

    #[tactic(auto, unfolding(crate::specs::Steps::sees))]
    /// Whether a token of this kind comes next.
    pub fn sees(&self, kind: TokenKind) -> bool
        ensures value { result ≡ spec.sees kind self.now }
        ensures name { result ≡ true → carries_name kind ≡ true → IsName (spec.bytes self.now) }
    {
        self.kind() == kind
    }

    #[tactic(auto, unfolding(crate::specs::Steps::after))]
    /// Takes a token of this kind, if it comes next.
    pub fn eat(&mut self, kind: TokenKind) -> bool
        ensures found { result ≡ spec.sees kind self.old }
        ensures after { self.new ≡ spec.after kind self.old }
    {
        let found = self.sees(kind);
        if found {
            self.take();
        }
        found
    }

    /// That the next token is refused for this.
    pub fn fault(&self, cause: Cause) -> ReadError
        ensures { Faults (spec.fault cause (spec.left self.now)) result }
    {
        ReadError::Fault(Fault {
            cause,
            left: self.left(),
        })
    }

    /// That the next token fits no rule.
    pub fn no_token(&self) -> ReadError
        ensures { Faults (spec.no_token self.now) result }
    {
        self.fault(Cause::Token)
    }

    /// That the profile leaves out this word, with which the next token begins.
    pub fn unsupported_word(&self, word: &[u8]) -> ReadError
        requires { IsName word.now }
        ensures { Faults (spec.fault (causes.Unsupported word.now) (spec.left self.now)) result }
    {
        unsupported_at(self.alloc, word, self.left())
    }

    /// That the profile leaves out the next token.
    pub fn unsupported(&self) -> ReadError
        requires { IsName (spec.bytes self.now) }
        ensures { Faults (spec.unsupported self.now) result }
    {
        self.unsupported_word(self.bytes())
    }
}
