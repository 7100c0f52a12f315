//! A cursor over the tokens of a netlist text, which cuts each as it is reached.

ghost use Rattle.std.specs.Prelude.{Bool, true, ◌≡◌, ◌≤◌, ◌<◌, length, IfOk};
ghost use Rattle.dft_base.specs.Lexing.{tokens_from};
ghost use Rattle.dft_base.specs.Name.{IsName};
ghost use Rattle.dft_netlist_text.specs.Lexemes as lexical;
ghost use Rattle.dft_netlist_text.specs.Steps as spec;
ghost use Rattle.dft_netlist_text.specs.declared.text.TokenKind.TheVariants as kinds;
ghost use Rattle.dft_verilog_tokens.specs.Cut.{carries_name};
ghost use Rattle.dft_verilog_tokens.specs.Reading.{Reads, Faults};

use crate::blanks::{MAX_TEXT, blank_len};
use crate::lexeme::{Lexeme, cut};
use crate::read_error::ReadError;
use dft_base::Name;
use dft_netlist_text::{Cause, Fault, TokenKind};
use std::alloc::{AllocError, Global};
use std::marker::Model;

/// The tokens that are left of a netlist text (IEEE 1364). A clause sees them as a list.
#[derive(Drop)]
pub struct Tokens<'a> {
    // The text from the next token on.
    ahead: &'a [u8],
    // Whether the token before it is a base, so that digits are read as one token.
    behind_base: bool,
    // The next token.
    front: Lexeme,
    // Where a fault puts its names.
    alloc: Global,
}

impl<'a> Model for Tokens<'a> {
    ghost use Rattle.std.specs.Prelude.{List};
    ghost use Rattle.dft_netlist_text.specs.Lexemes.{Token};

    ghost Value = { List Token };

    ghost use Rattle.dft_verilog_tokens.specs.TokensAhead.{tokens_ahead, IsReady};

    ghost view = { tokens_ahead };

    ghost invariant = { IsReady };
}

#[tactic(auto, using(crate::proofs::FrontLemmas::blanks_in_front))]
// The text without the blanks that it begins with.
#[inline(always)]
fn skip_blanks(text: &[u8]) -> &[u8]
    requires { length text.now ≤ MAX_TEXT }
    ensures rest { (mode : Bool) → tokens_from lexical.front mode 0 result.now ≡ tokens_from lexical.front mode 0 text.now }
    ensures begins { lexical.blank_len result.now ≡ 0 }
    ensures within { length result.now ≤ length text.now }
{
    let mut rest = text;
    let mut blank = blank_len(rest);
    while 0 < blank {
        (_, rest) = rest.split_at(blank);
        blank = blank_len(rest);
    }
    rest
}

// Whether digits behind such a token are read as one token.
fn is_base_kind(kind: TokenKind) -> bool
    ensures { result ≡ lexical.is_base_kind kind }
{
    matches!(kind, TokenKind::Base)
}

impl<'a> Tokens<'a> {
    /// The tokens of a text.
    pub fn new(alloc: Global, text: &'a [u8]) -> Tokens<'a>
        requires { length text.now ≤ MAX_TEXT }
        ensures { result ≡ lexical.tokens text.now }
    {
        let ahead = skip_blanks(text);
        let front = cut(false, ahead);
        Tokens {
            ahead,
            behind_base: false,
            front,
            alloc,
        }
    }

    #[tactic(auto, using(crate::proofs::FrontLemmas::front_of_text))]
    /// What the next token is; at the end of the text, the end.
    pub fn kind(&self) -> TokenKind
        ensures value { result ≡ spec.kind_of self.now }
        ensures word { carries_name result ≡ true → IsName (spec.bytes self.now) }
        ensures name { result ≡ kinds.Name → IsName (spec.bytes self.now) }
    {
        self.front.kind
    }

    /// The bytes of the next token, without the backslash of a name; none at the end.
    pub fn bytes(&self) -> &'a [u8]
        ensures { result.now ≡ spec.bytes self.now }
    {
        &self.ahead[self.front.prefix..self.front.len]
    }

    /// How many bytes there are from the next token's place on; 0 at the end.
    pub fn left(&self) -> usize
        ensures value { result ≡ spec.left self.now }
        ensures few { result ≤ MAX_TEXT }
    {
        self.ahead.len() - self.front.at
    }

    /// Takes the next token.
    #[inline(never)]
    pub fn take(&mut self) -> &'a [u8]
        ensures bytes { result.now ≡ spec.bytes self.old }
        ensures next { self.new ≡ spec.next self.old }
        ensures moves { 0 < spec.left self.old → spec.left self.new < spec.left self.old }
    {
        let bytes = self.bytes();
        let (_, rest) = self.ahead.split_at(self.front.len);
        let behind_base = is_base_kind(self.front.kind);
        let ahead = skip_blanks(rest);
        let front = cut(behind_base, ahead);
        self.behind_base = behind_base;
        self.ahead = ahead;
        self.front.kind = front.kind;
        self.front.len = front.len;
        self.front.prefix = front.prefix;
        self.front.at = front.at;
        bytes
    }

    #[tactic(auto, unfolding(dft_netlist_text::specs::Steps::sees, dft_netlist_text::specs::Steps::same_kind))]
    /// Whether a token of this kind comes next.
    pub fn sees(&self, kind: TokenKind) -> bool
        ensures value { result ≡ spec.sees kind self.now }
        ensures name { result ≡ true → kind ≡ kinds.Name → IsName (spec.bytes self.now) }
    {
        self.kind() == kind
    }

    #[tactic(auto, unfolding(dft_netlist_text::specs::Steps::after))]
    /// Takes a token of this kind, if it comes next.
    pub fn eat(&mut self, kind: TokenKind) -> bool
        ensures found { result ≡ spec.sees kind self.old }
        ensures after { self.new ≡ spec.after kind self.old }
    {
        let found = self.sees(kind);
        if found {
            self.take();
        }
        found
    }

    #[tactic(auto, unfolding(dft_netlist_text::specs::Steps::expect))]
    /// Takes a token of this kind, which must come next; else the next token is refused.
    #[inline(always)]
    pub fn expect(&mut self, kind: TokenKind) -> Result<&'a [u8], ReadError>
        ensures read { Reads (λ bytes. bytes.now) (spec.expect kind self.old) result self.new }
        ensures name { kind ≡ kinds.Name → IfOk result (λ bytes. IsName bytes.now) }
    {
        if self.sees(kind) {
            Ok(self.take())
        } else {
            Err(self.refusal())
        }
    }

    #[tactic(auto, unfolding(dft_netlist_text::specs::Steps::refusal))]
    /// That no rule takes the next token.
    #[cold]
    pub fn refusal(&self) -> ReadError
        ensures { Faults (spec.refusal self.now) result }
    {
        match self.cause() {
            Ok(cause) => ReadError::Fault(Fault {
                cause,
                left: self.left(),
            }),
            Err(error) => ReadError::Memory(error),
        }
    }

    // Why no rule takes the next token.
    fn cause(&self) -> Result<Cause, AllocError>
        ensures { IfOk result (λ cause. cause ≡ spec.cause_of (spec.kind_of self.now) (spec.bytes self.now)) }
    {
        match self.kind() {
            TokenKind::Illegal => Ok(Cause::Byte),
            TokenKind::Unclosed | TokenKind::End => Ok(Cause::Ended),
            TokenKind::Inout => Ok(Cause::Inout),
            TokenKind::Module
            | TokenKind::Endmodule
            | TokenKind::Input
            | TokenKind::Output
            | TokenKind::Wire
            | TokenKind::Assign
            | TokenKind::And
            | TokenKind::Nand
            | TokenKind::Or
            | TokenKind::Nor
            | TokenKind::Xor
            | TokenKind::Xnor
            | TokenKind::Buf
            | TokenKind::Not
            | TokenKind::Reserved
            | TokenKind::Directive => {
                let word = Name::from_slice(self.alloc, self.bytes())?;
                Ok(Cause::Unsupported(word))
            }
            _ => Ok(Cause::Token),
        }
    }
}
