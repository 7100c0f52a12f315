use dft_base::printable;
use dft_toml::{
    TableError, has_key, has_only, integer_at, name_at, names_at, read_table, table_at, text_at,
};
use std::alloc::{AllocError, Global};
use std::test::Fail;
use toml::Table;

static TEXT: &str = "kind = 'and'\nwarm = 3\nports = ['a', 'b c']\n[ring]\nx = 1\n";

// Whether a table has the text's texts and its integer.
fn has_its_values(table: &Table) -> bool {
    text_at(table, "kind") == Some("and")
        && text_at(table, "warm").is_none()
        && integer_at(table, "warm") == Some(3)
}

// Whether a table has the text's keys.
fn has_its_keys(table: &Table) -> bool {
    table_at(table, "ring").is_some()
        && has_key(table, "ring")
        && !has_only(table, &["kind", "warm", "ports"])
        && has_only(table, &["ring", "kind", "warm", "ports"])
}

// Whether a table has the text's name, and no list of names.
fn has_its_name(alloc: Global, table: &Table) -> Result<bool, AllocError> {
    if name_at(alloc, table, "kind")?.is_none() {
        return Ok(false);
    }
    Ok(names_at(alloc, table, "ports")?.is_none())
}

#[test]
fn keys_hold_what_the_text_says(rt: HostRuntime) -> Result<(), Fail> {
    let table = read_table(rt.alloc(), TEXT.as_bytes())?;
    assert!(rt; has_its_values(&table), "values");
    assert!(rt; has_its_keys(&table), "keys");
    assert!(rt; has_its_name(rt.alloc(), &table)?, "names");
    Ok(())
}

#[test]
fn a_text_that_is_no_table_is_refused(rt: HostRuntime) {
    for text in [b"a = ".as_slice(), b"a = 1\na = 2\n", b"\xff"] {
        match read_table(rt.alloc(), text) {
            Ok(_) => assert!(rt; false, "it is no table"),
            Err(error) => assert_eq!(rt; error, TableError::NotToml),
        }
    }
}

#[test]
fn bytes_are_shown(rt: HostRuntime) -> Result<(), Fail> {
    let alloc = rt.alloc();
    assert_eq!(rt; printable(alloc, b"")?.as_slice(), b"?".as_slice());
    assert_eq!(rt;
        printable(alloc, "a é".as_bytes())?.as_slice(),
        b"a???".as_slice()
    );
    Ok(())
}
