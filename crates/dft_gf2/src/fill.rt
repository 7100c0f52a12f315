ghost use Rattle.std.specs.Prelude.{◌≡◌, ◌<◌, Bool, length};
ghost use Rattle.dft_base.specs.Solutions.{bit_at};
ghost use Rattle.dft_gf2.specs.Like.{AnswersLike};

/// The bits that free columns take: a closure from columns to bits, beside the list of its answers.
#[derive(Drop)]
pub struct Fill<'a, F: Fn(u32) -> bool> {
    answer: F,
    like: &'a [bool],
}

impl<'a, F: Fn(u32) -> bool> Fill<'a, F> {
    /// The fill by a closure that may be asked at each place of the list, and answers the list's bit there.
    pub fn new(answer: F, like: &'a [bool]) -> Fill<'a, F>
        requires { AnswersLike (F.pre answer) (F.post answer) like.now }
        ensures like { result.like.now ≡ like.entry.now }
        ensures answers { AnswersLike (F.pre result.answer) (F.post result.answer) result.like.now }
    {
        Fill { answer, like }
    }

    /// The bit of a column, by the closure.
    pub fn bit(&self, column: u32) -> bool
        requires answers { AnswersLike (F.pre self.now.answer) (F.post self.now.answer) self.now.like.now }
        requires within { column < length self.now.like.now }
        ensures { result ≡ bit_at self.now.like.now column }
    {
        (self.answer)(column)
    }
}
