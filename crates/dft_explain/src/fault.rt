//! Faults of words.

// The first thing that is wrong with words.
#[derive(Clone, Copy)]
pub(crate) enum Fault<'a> {
    NoCommand,
    NoSuchCommand(&'a [u8]),
    Unexpected(&'a [u8]),
    NoOption(&'a [u8]),
    Twice(&'a [u8]),
    NoValue(&'a [u8]),
    EmptyValue(&'a [u8]),
    Missing(&'static str),
    NotOne(Pair),
    NoNumber(&'static str, &'static str, &'a [u8]),
    OneFile(&'static [u8], &'static str, &'a [u8]),
}

// Two options of which a command needs just one.
#[derive(Clone, Copy)]
pub(crate) struct Pair {
    pub(crate) first: &'static str,
    pub(crate) second: &'static str,
}

// An option whose value is a number: how many digits it may have, its least and its greatest, and how a person is told.
#[derive(Clone, Copy)]
pub(crate) struct Range {
    pub(crate) option: &'static str,
    pub(crate) digits: usize,
    pub(crate) least: u64,
    pub(crate) most: u64,
    pub(crate) text: &'static str,
}
