ghost use Rattle.std.specs.Prelude.{◌≡◌, ◌==◌};
ghost use Rattle.dft_files.specs.Store.{kept_at};

/// A call that is to fail.
#[derive(Clone, Copy, Debug)]
pub struct Failing {
    /// Its number, counted from 0.
    pub call: u32,
    /// How many of the first bytes it keeps, or all of them where there are fewer.
    pub kept: u32,
}

// How many bytes the call of this number keeps, where it is to fail.
pub(crate) fn kept_at(failing: &[Failing], call: u64) -> Option<u32>
    ensures { result ≡ kept_at failing.now call }
{
    failing
        .iter()
        .find(|f| u64::from(f.call) == call)
        .map(|f| f.kept)
}
