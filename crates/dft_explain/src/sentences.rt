//! Refusals in words: what is wrong, and what to do. `docs/refusals` holds them and the tables of `docs/FORMATS.md` together.

ghost use Rattle.std.specs.Prelude.{◌≡◌, IfSome, option_map};
ghost use Rattle.dft_explain.specs.Rows.{is_of_netlist, row_of};

/// A refusal in words, and the row that it stands in.
#[derive(Clone, Copy, Debug)]
pub struct Said {
    pub code: &'static str,
    pub sentence: &'static str,
    pub advice: &'static str,
}

// Of netlists, libraries and patterns.
static OF_TEXTS: [Said; 36] = [
    Said {
        code: "F1",
        sentence: "the option's file has more bytes than its limit: 67,108,864, of patterns and reports 268,435,456",
        advice: "cut the file",
    },
    Said {
        code: "V1",
        sentence: "a byte that no netlist text may have there",
        advice: "write names in ASCII, others than letters, digits, _ and $ behind a backslash; comments may have any byte",
    },
    Said {
        code: "V2",
        sentence: "a token that stands where none such may, or a constant that is driven",
        advice: "map operators to gates or cells",
    },
    Said {
        code: "V3",
        sentence: "a word or directive that the structural part leaves out",
        advice: "synthesize; drop directives but `timescale and the like",
    },
    Said {
        code: "V5",
        sentence: "a pin that the cell has not",
        advice: "name the pins as the library does",
    },
    Said {
        code: "V6",
        sentence: "widths, numbers of terminals, bits or sizes that do not fit",
        advice: "give both sides one width, and bits that the range has",
    },
    Said {
        code: "V7",
        sentence: "an inout port",
        advice: "split the port, or leave pads out",
    },
    Said {
        code: "V9",
        sentence: "the text ends too early",
        advice: "look for a comment or a brace that is not closed",
    },
    Said {
        code: "V10",
        sentence: "a number that is too large",
        advice: "ranges go up to 65,535, constants have up to 128 bits",
    },
    Said {
        code: "V11",
        sentence: "a name that was not declared",
        advice: "declare it; pins and terminals alone imply a wire",
    },
    Said {
        code: "V12",
        sentence: "a pin that was connected before",
        advice: "connect each pin once",
    },
    Said {
        code: "H1",
        sentence: "a module has the name of a module before it, or of a cell of the library",
        advice: "rename the module",
    },
    Said {
        code: "H2",
        sentence: "an instance of what is no cell of the library and no module of the text",
        advice: "add the cell to the library, map to its cells, or add the module to the text",
    },
    Said {
        code: "H3",
        sentence: "a module has an instance of itself, or below one of its instances",
        advice: "break the circle",
    },
    Said {
        code: "H4",
        sentence: "the modules that no module has an instance of are not one",
        advice: "leave out what the top does not reach, in yosys by synth -top",
    },
    Said {
        code: "H5",
        sentence: "a connection that fits no port of its module: the module has none of this name, it has another width, or it is an output and joined to a constant",
        advice: "name the module's ports, and give each its width",
    },
    Said {
        code: "N3",
        sentence: "a printed name is taken",
        advice: "rename one of the two",
    },
    Said {
        code: "N4",
        sentence: "more than 32,768 ports, 524,288 nets or 262,144 instances",
        advice: "cut the design into blocks, and test each by itself",
    },
    Said {
        code: "N1",
        sentence: "a net has two drivers",
        advice: "drive each net once; buses with tri-states are outside",
    },
    Said {
        code: "N2",
        sentence: "the nets have no order: this one lies on a loop",
        advice: "break the loop by a flip-flop",
    },
    Said {
        code: "L6",
        sentence: "the bytes are no TOML text",
        advice: "look for a quote or a bracket that is not closed, or a key or table that stands twice; any TOML checker tells the line",
    },
    Said {
        code: "L1",
        sentence: "a kind that is not known",
        advice: "take buf, inv, and, nand, or, nor, xor, xnor, mux2, table, tie0, tie1, dff, dffr, dffs, sdff, sdffr, sdffs or lockup, and opaque where none of them fits",
    },
    Said {
        code: "L7",
        sentence: "a key is missing, unknown, or holds another kind of value or a name with other bytes; or cells is missing, is no table, has another key beside it, or more than 4,096 cells",
        advice: "give each key of the kind, and no other; a library is one table, cells",
    },
    Said {
        code: "L2",
        sentence: "a wrong number of inputs, a pin twice, a table of another length or character",
        advice: "name each pin once, as many inputs as the kind has, and of a table 0 or 1 for each row of its inputs",
    },
    Said {
        code: "L3",
        sentence: "a name that IEEE 1364 reserves",
        advice: "rename the cell",
    },
    Said {
        code: "L5",
        sentence: "its scan names no scan cell that fits it",
        advice: "name a scan cell with the same reset or set and the same pins",
    },
    Said {
        code: "L4",
        sentence: "no dff or no lockup is there",
        advice: "add one; insertion needs both",
    },
    Said {
        code: "P1",
        sentence: "a token that stands where none such may, or the text ends too early; where one character or an event's letter must stand, what follows it in its token",
        advice: "write what the grammar has there, and look at the token before it: a ; behind an annotation goes with it",
    },
    Said {
        code: "P2",
        sentence: "a word, a letter or a waveform that is left out of the subset (Procedures, MacroDefs, Loop, Call, ScanStructures, InOut ..), or a run of letters and digits where one must stand",
        advice: "have plain vectors written: no loops, macros or procedures, one character for each waveform of the list",
    },
    Said {
        code: "P3",
        sentence: "a name that is not given before",
        advice: "give it before its first use; capitals count, quotes are no part of it",
    },
    Said {
        code: "P4",
        sentence: "a number or a length that does not fit; vector 4,194,305",
        advice: "a character for each signal, in the group's order; cut long patterns in two",
    },
    Said {
        code: "P5",
        sentence: "a character or an act that its signal has not, or no W yet",
        advice: "give the waveform in that table, or name the right table",
    },
    Said {
        code: "P8",
        sentence: "times that do not fit, at the last brace of their table",
        advice: "within the period inputs are set first, then outputs are compared, then clocks rise, then they fall",
    },
    Said {
        code: "P9",
        sentence: "a name that is given twice, a second waveform of a character, a signal twice in a vector",
        advice: "drop one of the two",
    },
    Said {
        code: "P10",
        sentence: "a signal that pulses in a vector is high or unset in another",
        advice: "set a clock low in each vector in which it does not pulse, from the first on",
    },
    Said {
        code: "P7",
        sentence: "a signal that is no bit of a port of the netlist with its direction",
        advice: "use the netlist's names: p[3] for a bit of a vector",
    },
];

// Of configurations, designs, cubes and reports.
static OF_DESIGNS: [Said; 34] = [
    Said {
        code: "C1",
        sentence: "the bytes are no TOML text",
        advice: "look for a quote or a bracket that is not closed, or a key or table that stands twice; any TOML checker tells the line",
    },
    Said {
        code: "C2",
        sentence: "a key is missing, holds another kind of value or a list of another form, or is unknown",
        advice: "give the key, in the form that docs/FORMATS.md has for it",
    },
    Said {
        code: "C3",
        sentence: "a number, or the count of a list, is outside of its range",
        advice: "keep the range that docs/FORMATS.md has for the key; stages, channels and chains count from 0",
    },
    Said {
        code: "C6",
        sentence: "something stands twice",
        advice: "name it once; a reset is no domain, and ports have different names",
    },
    Said {
        code: "C4",
        sentence: "a list in the list is empty",
        advice: "leave it out",
    },
    Said {
        code: "C5",
        sentence: "a chain stands in no group",
        advice: "put each chain into a group",
    },
    Said {
        code: "G4",
        sentence: "a configured domain or reset is no input bit, or a kept name no flip-flop without scan",
        advice: "name bits of inputs, and flip-flops as the netlist does",
    },
    Said {
        code: "G2",
        sentence: "a scan cell is there already",
        advice: "insert scan once, into a netlist without it",
    },
    Said {
        code: "G5",
        sentence: "a lock-up is there already",
        advice: "insert scan once, into a netlist without it",
    },
    Said {
        code: "G1",
        sentence: "a clock is used as data",
        advice: "take data from a flip-flop, or leave the clock out of domains",
    },
    Said {
        code: "G7",
        sentence: "a port's name has a double quote, which patterns cannot name",
        advice: "rename the port",
    },
    Said {
        code: "G3",
        sentence: "there are fewer scanned cells than chains",
        advice: "configure as many chains as there are scanned cells, the first number, or fewer",
    },
    Said {
        code: "N4 of a plan",
        sentence: "more than 65,536 cells, 4,096 cycles of a load, 16,384 variables of its channels or 65,536 sought cubes",
        advice: "more chains shorten a load; fewer channels or cycles have fewer variables",
    },
    Said {
        code: "G6",
        sentence: "a name that insertion adds is taken",
        advice: "choose other names in [names]",
    },
    Said {
        code: "P6",
        sentence: "the patterns of a compilation would be longer than a file may be",
        advice: "fewer cubes at a time",
    },
    Said {
        code: "K6",
        sentence: "the report, the cube file of a search, or a made configuration would be longer than a file may be",
        advice: "cut the design; of a compilation, fewer cubes at a time; of a made configuration, shorter names of clock and reset ports",
    },
    Said {
        code: "X1",
        sentence: "the clock is no domain of the configuration",
        advice: "name one of its domains",
    },
    Said {
        code: "X2",
        sentence: "there is no scan clock: no flip-flop that could be scanned has a clock port whose nets are clocks alone",
        advice: "map flip-flops to cells that have a scan cell, and keep a clock apart from data",
    },
    Said {
        code: "X3",
        sentence: "there would be more than this: chains than 1,024, or outputs or masks than chains",
        advice: "give a greater length, or fewer outputs or masks",
    },
    Said {
        code: "X4",
        sentence: "no ring that is known fits so many chains and channels",
        advice: "fewer chains or channels",
    },
    Said {
        code: "Q1",
        sentence: "a line that is none of these in its place, as a second clock in version 1, or has a byte outside of 33 to 126 in a word before its comment",
        advice: "write cube NAME CLOCK, then lines cell NAME BIT and port NAME BIT, then end",
    },
    Said {
        code: "Q2",
        sentence: "the cell is no flip-flop without scan pins",
        advice: "name the instance as the netlist does",
    },
    Said {
        code: "Q3",
        sentence: "the port is no bit of an input",
        advice: "name bits of inputs",
    },
    Said {
        code: "Q4",
        sentence: "the clock is no domain of the configuration",
        advice: "name one of the configuration's domains",
    },
    Said {
        code: "Q5",
        sentence: "a cube before has this name",
        advice: "rename one of the two cubes",
    },
    Said {
        code: "Q6",
        sentence: "the cube gave this cell or port before",
        advice: "give each cell and port once in a cube",
    },
    Said {
        code: "Q7",
        sentence: "the text ends inside of a cube",
        advice: "write end behind the last line of the cube",
    },
    Said {
        code: "Q8",
        sentence: "the port is a domain or a reset",
        advice: "leave it out: patterns set it",
    },
    Said {
        code: "Q9",
        sentence: "the first line of cube number 65,537",
        advice: "cut the file in two",
    },
    Said {
        code: "K1",
        sentence: "a line that is not of a report's form",
        advice: "certify the report as it was written",
    },
    Said {
        code: "K5",
        sentence: "no cube has the name of a cube that is reported unsolvable",
        advice: "give the cubes that were compiled",
    },
    Said {
        code: "K4",
        sentence: "a sum names no scanned cell",
        advice: "give the netlist and the configuration that were compiled",
    },
    Said {
        code: "K2",
        sentence: "the cell and the bit are no care bit of the cube, the cell stands twice, or the listed pairs are not those that the cell sums",
        advice: "give the netlist and the configuration that were compiled",
    },
    Said {
        code: "K3",
        sentence: "the pairs do not cancel, or the bits do not sum to 1",
        advice: "the report does not show that the cube is unsolvable: do not trust it",
    },
];

/// What a code says, where it is known. N4 has a row for what a netlist counts, and one for what a plan counts.
pub fn said_of(code: &str, name: Option<&[u8]>) -> Option<&'static Said>
    ensures { IfSome result (λ said. said.now.code.now ≡ row_of code.now (option_map (λ name. name.now) name.entry)) }
{
    if code == "N4" && !is_of_netlist(name) {
        said_at("N4 of a plan")
    } else {
        said_at(code)
    }
}

// The row of this code.
fn said_at(code: &str) -> Option<&'static Said>
    ensures { IfSome result (λ said. said.now.code.now ≡ code.now) }
{
    match said_of_text(code) {
        Some(said) => Some(said),
        None => said_of_design(code),
    }
}

fn said_of_text(code: &str) -> Option<&'static Said>
    ensures { IfSome result (λ said. said.now.code.now ≡ code.now) }
{
    said_in(&OF_TEXTS, code)
}

fn said_of_design(code: &str) -> Option<&'static Said>
    ensures { IfSome result (λ said. said.now.code.now ≡ code.now) }
{
    said_in(&OF_DESIGNS, code)
}

// The row of this code among these.
fn said_in(rows: &'static [Said], code: &str) -> Option<&'static Said>
    ensures { IfSome result (λ said. said.now.code.now ≡ code.now) }
{
    for said in rows {
        if said.code == code {
            return Some(said);
        }
    }
    None
}

// Whether a netlist has a limit on this.
fn is_of_netlist(name: Option<&[u8]>) -> bool
    ensures { result ≡ is_of_netlist (option_map (λ name. name.now) name.entry) }
{
    match name {
        Some(name) => {
            name == b"ports".as_slice()
                || name == b"nets".as_slice()
                || name == b"instances".as_slice()
        }
        None => false,
    }
}
