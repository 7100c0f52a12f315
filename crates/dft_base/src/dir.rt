/// Which way a port goes (IEEE 1364 `input` and `output`).
#[derive(Clone, Copy, Debug, PartialEq, Eq)]
pub enum Dir {
    Input,
    Output,
}
