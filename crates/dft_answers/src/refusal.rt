//! Refusals by their parts.

ghost use Rattle.std.specs.Prelude.{◌≡◌};
ghost use Rattle.dft_answers.specs.Refusals as spec;

use crate::answer::{Code, Refusal};
use dft_base::{Name, Place};

impl Refusal {
    // A refusal without parts.
    pub(crate) fn plain(code: Code) -> Refusal
        ensures { result ≡ spec.plain code }
    {
        Refusal {
            code,
            place: None,
            name: None,
            first: None,
            second: None,
        }
    }

    /// A refusal with a name.
    pub fn named(code: Code, name: Name) -> Refusal
        ensures { result ≡ spec.named code name }
    {
        let mut refusal = Refusal::plain(code);
        refusal.name = Some(name);
        refusal
    }

    // A refusal with a name and a number.
    pub(crate) fn numbered(code: Code, name: Name, number: i64) -> Refusal
        ensures { result ≡ spec.numbered code name number }
    {
        let mut refusal = Refusal::named(code, name);
        refusal.first = Some(number);
        refusal
    }

    // A refusal with a number.
    pub(crate) fn measured(code: Code, number: i64) -> Refusal
        ensures { result ≡ spec.measured code number }
    {
        let mut refusal = Refusal::plain(code);
        refusal.first = Some(number);
        refusal
    }

    // A refusal with two numbers.
    pub(crate) fn paired(code: Code, first: i64, second: i64) -> Refusal
        ensures { result ≡ spec.paired code first second }
    {
        let mut refusal = Refusal::measured(code, first);
        refusal.second = Some(second);
        refusal
    }

    // A refusal with a place.
    pub(crate) fn placed(code: Code, place: Place) -> Refusal
        ensures { result ≡ spec.placed code place }
    {
        let mut refusal = Refusal::plain(code);
        refusal.place = Some(place);
        refusal
    }

    // A refusal with a place and a word.
    pub(crate) fn worded(code: Code, place: Place, word: Name) -> Refusal
        ensures { result ≡ spec.worded code place word }
    {
        let mut refusal = Refusal::placed(code, place);
        refusal.name = Some(word);
        refusal
    }
}
