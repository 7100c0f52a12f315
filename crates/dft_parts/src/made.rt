/// How many made names were given: the next made net is `dft_n` with this number behind it, the next made instance `dft_i`.
#[derive(Clone, Copy, Debug, PartialEq, Eq)]
pub struct Made {
    pub nets: u32,
    pub instances: u32,
}
