//! Configurations of a netlist whose clocks and resets have names of megabytes, near the most bytes of a configuration file.

ghost use Rattle.std.specs.Prelude.{◌≤◌, length};
ghost use Rattle.dft_configuring.specs.Wanted.{IsWanted};

use dft_cells::Library;
use dft_configuring::{ConfigureError, Configured, Wanted, configure};
use dft_netlist::Design;
use std::alloc::{AllocError, Global};
use std::test::Fail;

// The letters of the name of a port of 31 bits: fifteen clocks and sixteen resets.
const LONG: usize = 2_160_000;

// How many letters the name of the last clock has, and what comes of the netlist in one chain on one channel. The plain configuration, which
// asks for the scan rules, has 66,960,682 bytes and these letters; the made one has 58 more.
static CASES: [(usize, &str); 4] = [
    (148_183, "K6 67108865"),
    (148_182, "K6 67108922"),
    (148_125, "K6 67108865"),
    (148_124, "67108864 bytes"),
];

// Adds a letter so many times.
fn push_name(text: &mut String, letter: &str, count: usize) -> Result<(), AllocError> {
    for _letter in 0..count {
        text.push_str(letter)?;
    }
    Ok(())
}

// Adds the name of the port of 31 bits.
fn push_long(text: &mut String) -> Result<(), AllocError> {
    push_name(text, "n", LONG)
}

// Adds a flip-flop for each of fifteen clocks, with a reset.
fn push_flops(alloc: Global, text: &mut String) -> Result<(), AllocError> {
    for flop in 0..15 {
        let line = format!(in alloc;
            "DFFR f{flop} (.CK(w[{flop}]), .D(d), .RN(v[{flop}]), .Q()); "
        )?;
        text.push_str(&line)?;
    }
    Ok(())
}

// Adds the ports and what names their bits shortly.
fn push_ports(text: &mut String, letters: usize) -> Result<(), AllocError> {
    text.push_str("module m (")?;
    push_long(text)?;
    text.push_str(", ")?;
    push_name(text, "x", letters)?;
    text.push_str(", d); input [30:0] ")?;
    push_long(text)?;
    text.push_str("; input ")?;
    push_name(text, "x", letters)?;
    text.push_str(", d; wire [15:0] v; wire [14:0] w; assign {v, w} = ")?;
    push_long(text)
}

// The netlist.
fn netlist(alloc: Global, letters: usize) -> Result<String, AllocError> {
    let mut text = String::new(alloc);
    push_ports(&mut text, letters)?;
    text.push_str("; ")?;
    push_flops(alloc, &mut text)?;
    text.push_str("DFFR f15 (.CK(")?;
    push_name(&mut text, "x", letters)?;
    text.push_str("), .D(d), .RN(v[15]), .Q()); endmodule")?;
    Ok(text)
}

// The bytes of a configuration.
fn bytes_of(alloc: Global, configured: &Configured) -> Result<String, AllocError> {
    format!(in alloc; "{} bytes", configured.text.len())
}

// A refusal for its length.
fn refused(alloc: Global, error: &ConfigureError) -> Result<String, AllocError> {
    match error {
        ConfigureError::LongText { first } => format!(in alloc; "K6 {first}"),
        _ => Ok(String::new(alloc)),
    }
}

// What comes of a wish.
fn told(alloc: Global, design: &Design, wanted: &Wanted) -> Result<String, AllocError>
    requires { IsWanted wanted.now }
{
    match configure(alloc, design, wanted) {
        Ok(configured) => bytes_of(alloc, &configured),
        Err(error) => refused(alloc, &error),
    }
}

// The design of a text.
fn design_of(alloc: Global, bytes: &[u8]) -> Result<Design, Fail>
    requires { length bytes.now ≤ 67108864 }
{
    Ok(dft_netlist_reader::read(alloc, bytes, Library::standard(alloc)?)?)
}

// One chain on one channel.
fn wish() -> Wanted
    ensures { IsWanted result }
{
    Wanted {
        chains: Some(1),
        length: None,
        channels: 1,
        outputs: None,
        masks: None,
    }
}

// What comes of the netlist.
fn outcome(alloc: Global, letters: usize) -> Result<String, Fail> {
    let text = netlist(alloc, letters)?;
    let bytes = text.as_bytes();
    if bytes.len() > 67_108_864 {
        return Ok(String::new(alloc));
    }
    let design = design_of(alloc, bytes)?;
    Ok(told(alloc, &design, &wish())?)
}

#[test]
fn configurations_of_the_most_bytes_are_made_and_longer_ones_are_refused(
    rt: HostRuntime,
) -> Result<(), Fail> {
    for (letters, wanted) in &CASES {
        let text = outcome(rt.alloc(), *letters)?;
        assert_eq!(rt; text.as_str(), *wanted, "{letters}");
    }
    Ok(())
}
