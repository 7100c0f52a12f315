use dft_base::{Name, is_simple_name, needs_escape};
use dft_files::{
    Failing, Files, HostFiles, LoadError, MemoryFiles, MemorySink, NeverFails, OutSink, PutError,
    SaveError, Sink,
};
use std::alloc::{AllocError, Global};
use std::test::Fail;

// A file of this name and text.
fn file(alloc: Global, name: &str, text: &str) -> Result<(String, Vec<u8>), AllocError> {
    let name = String::from_str(alloc, name)?;
    let bytes = text.as_bytes().to_vec(alloc)?;
    Ok((name, bytes))
}

// Files that hold `n.v`, where two calls fail.
fn files_of(alloc: Global) -> Result<MemoryFiles, AllocError> {
    let entries = vec![in alloc; file(alloc, "n.v", "module m; endmodule")?]?;
    let failing = vec![in alloc; Failing { call: 3, kept: 4 }, Failing { call: 6, kept: 0 }]?;
    Ok(MemoryFiles::new(alloc, entries, failing))
}

// A word for what a load of at most so many bytes gives.
fn loaded<F: Files>(alloc: Global, files: &mut F, name: &str, limit: u32) -> &'static str {
    match files.load(alloc, name, limit) {
        Ok(bytes) => if bytes.is_empty() { "empty" } else { "loaded" },
        Err(error) => not_loaded(&error),
    }
}

fn not_loaded(error: &LoadError) -> &'static str {
    match error {
        LoadError::TooLong => "too long",
        LoadError::Failed => "failed",
        LoadError::Memory(_) => "no memory",
    }
}

// A word for what saving these bytes gives.
fn saved<F: Files>(alloc: Global, files: &mut F, name: &str, text: &str) -> &'static str {
    match files.save(alloc, name, text.as_bytes()) {
        Ok(()) => "saved",
        Err(SaveError::Failed) => "failed",
        Err(SaveError::Memory(_)) => "no memory",
    }
}

// A load of at most so many bytes, or the saving of a text.
enum Call {
    Load(u32),
    Save(&'static str),
}

fn word_of<F: Files>(alloc: Global, files: &mut F, name: &str, call: &Call) -> &'static str {
    match call {
        Call::Load(limit) => loaded(alloc, files, name, *limit),
        Call::Save(text) => saved(alloc, files, name, *text),
    }
}

// Whether files have this text at a name, or no file.
fn holds(files: &MemoryFiles, name: &str, text: Option<&str>) -> bool {
    match (files.file(name), text) {
        (Some(bytes), Some(text)) => *bytes == *text.as_bytes(),
        (None, None) => true,
        _ => false,
    }
}

// A file, a call on it, a word for what the call gives, and the text of `out` behind it.
static CALLS: [(&str, Call, &str, Option<&str>); 7] = [
    ("p.stil", Call::Save("STIL 1.0;"), "saved", None),
    ("n.v", Call::Load(19), "loaded", None),
    ("n.v", Call::Load(18), "too long", None),
    ("out", Call::Save("abcdef"), "failed", Some("abcd")),
    ("out", Call::Save("abcdef"), "saved", Some("abcdef")),
    ("none", Call::Load(18), "failed", Some("abcdef")),
    ("p.stil", Call::Load(18), "failed", Some("abcdef")),
];

#[test]
fn files_in_memory_are_read_back(rt: HostRuntime) -> Result<(), Fail> {
    let mut files = files_of(rt.alloc())?;
    for (name, call, word, out) in &CALLS {
        assert_eq!(rt;
            word_of(rt.alloc(), &mut files, *name, call),
            *word,
            "{name}"
        );
        assert!(rt; holds(&files, "out", *out), "out behind {name}");
    }
    assert!(rt; holds(&files, "none", None));
    Ok(())
}

#[test]
fn a_sink_in_memory_keeps_what_was_put(rt: HostRuntime) -> Result<(), Fail> {
    let alloc = rt.alloc();
    let mut sink = MemorySink::new(alloc, vec![in alloc; Failing { call: 1, kept: 2 }]?);
    assert!(rt; sink.put(b"DONE ").is_ok());
    assert!(rt; matches!(sink.put(b"scan"), Err(PutError::Failed)));
    assert_eq!(rt; sink.bytes(), b"DONE sc".as_slice());
    Ok(())
}

#[test]
fn a_sink_that_never_fails_keeps_all_that_was_put(rt: HostRuntime) {
    let mut sink = NeverFails::new(rt.alloc());
    assert!(rt; sink.put(b"DONE ").is_ok() && sink.put(b"scan").is_ok());
    assert_eq!(rt; sink.bytes(), b"DONE scan".as_slice());
}

// A file of the host, a call on it, and a word for what the call gives.
static HOST_CALLS: [(&str, Call, &str); 5] = [
    ("/dev/null", Call::Load(0), "empty"),
    ("/dev/zero", Call::Load(9), "too long"),
    ("no/such/file", Call::Load(9), "failed"),
    ("/dev/null", Call::Save("abc"), "saved"),
    ("/dev/full", Call::Save("abc"), "failed"),
];

#[test]
fn the_host_reads_and_writes(rt: HostRuntime) {
    let mut files = HostFiles::new(&rt, rt.alloc());
    for (name, call, word) in &HOST_CALLS {
        assert_eq!(rt;
            word_of(rt.alloc(), &mut files, *name, call),
            *word,
            "{name}"
        );
    }
    assert!(rt; OutSink::new(&rt).put(b"").is_ok());
}

// A name as it is read, whether it is simple, and whether it is written behind a backslash.
static NAMES: [(&str, bool, bool); 8] = [
    ("n1", true, false),
    ("_a$9", true, false),
    ("Module", true, false),
    ("module", false, true),
    ("cell", true, true),
    ("9n", false, true),
    ("a[3]", false, true),
    ("", false, true),
];

#[test]
fn words_are_told_apart(rt: HostRuntime) {
    for (name, simple, escaped) in NAMES.iter() {
        assert_eq!(rt; is_simple_name(name.as_bytes()), *simple);
        assert_eq!(rt; needs_escape(name.as_bytes()), *escaped);
    }
}

#[test]
fn a_name_keeps_its_bytes(rt: HostRuntime) -> Result<(), Fail> {
    let name = Name::from_slice(rt.alloc(), b"u1/q[3]")?;
    assert_eq!(rt; name.as_slice(), b"u1/q[3]".as_slice());
    Ok(())
}
