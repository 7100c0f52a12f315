//! Words that ask for help or for the version.

ghost use Rattle.std.specs.Prelude.{◌≡◌, map, string_bytes};
ghost use Rattle.dft_explain.specs.Asked as spec;

/// A command that help is told of.
#[derive(Clone, Copy, Debug, PartialEq, Eq)]
pub enum Topic {
    Replay,
    Scan,
    Compile,
    Certify,
    Generate,
    Grade,
    Configure,
    Seek,
}

/// What words ask for in place of a command's work.
#[derive(Clone, Copy, Debug, PartialEq, Eq)]
pub enum Request {
    /// `--help`: the commands.
    Help,
    /// `COMMAND --help`: the options of a command, what it prints, and an example.
    HelpOf(Topic),
    /// `--version`: the version.
    Version,
}

/// What words ask for, if they are one of three lists: `--help`, a command and `--help`, `--version`.
pub fn asked(words: &[String]) -> Option<Request>
    ensures { result ≡ spec.asked_by (map string_bytes words.now) }
{
    match words {
        [word] => asked_alone(word.as_str()),
        [name, word] => asked_of(name.as_str(), word.as_str()),
        _ => None,
    }
}

fn asked_alone(word: &str) -> Option<Request>
    ensures { result ≡ spec.asked_alone word.now }
{
    if word == "--help" {
        Some(Request::Help)
    } else if word == "--version" {
        Some(Request::Version)
    } else {
        None
    }
}

fn asked_of(name: &str, word: &str) -> Option<Request>
    ensures { result ≡ spec.asked_of name.now word.now }
{
    if word == "--help" {
        topic_of(name).map(Request::HelpOf)
    } else {
        None
    }
}

// The command of this name.
fn topic_of(name: &str) -> Option<Topic>
    ensures { result ≡ spec.topic_of name.now }
{
    if name == "replay" {
        Some(Topic::Replay)
    } else if name == "scan" {
        Some(Topic::Scan)
    } else if name == "compile" {
        Some(Topic::Compile)
    } else if name == "certify" {
        Some(Topic::Certify)
    } else {
        further_topic(name)
    }
}

// The commands that are told by none of the names before.
fn further_topic(name: &str) -> Option<Topic>
    ensures { result ≡ spec.further_topic name.now }
{
    if name == "generate" {
        Some(Topic::Generate)
    } else if name == "grade" {
        Some(Topic::Grade)
    } else if name == "configure" {
        Some(Topic::Configure)
    } else if name == "seek" {
        Some(Topic::Seek)
    } else {
        None
    }
}
