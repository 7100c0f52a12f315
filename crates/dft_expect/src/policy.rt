//! Which chains are masked.

ghost use Rattle.std.specs.Prelude.{◌≡◌, ◌<◌, ◌||◌, Bool, length};
ghost use Rattle.dft_base.specs.Solutions.{bit_at};
ghost use Rattle.dft_expect.specs.Policies.{MasksLike};

/// Which chains are masked: a closure from chains, and whether something in them is unknown, beside the list of the chains
/// that always are.
#[derive(Drop)]
pub struct MaskPolicy<'a, F: Fn(u32, bool) -> bool> {
    answer: F,
    always: &'a [bool],
}

impl<'a, F: Fn(u32, bool) -> bool> MaskPolicy<'a, F> {
    /// The policy by a closure that may be asked about each chain of the list, and masks it where something in it is unknown or
    /// the list says so.
    pub fn new(answer: F, always: &'a [bool]) -> MaskPolicy<'a, F>
        requires { MasksLike (F.pre answer) (F.post answer) always.now }
        ensures always { result.always.now ≡ always.entry.now }
        ensures answers { MasksLike (F.pre result.answer) (F.post result.answer) result.always.now }
    {
        MaskPolicy { answer, always }
    }

    /// The mask bit of a chain, by the closure.
    pub fn mask(&self, chain: u32, unknown: bool) -> bool
        requires answers { MasksLike (F.pre self.now.answer) (F.post self.now.answer) self.now.always.now }
        requires within { chain < length self.now.always.now }
        ensures { result ≡ (unknown || bit_at self.now.always.now chain) }
    {
        (self.answer)(chain, unknown)
    }
}
