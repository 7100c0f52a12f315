//! The words that IEEE 1364 reserves.

ghost use Rattle.std.specs.Prelude.{◌≡◌, ◌∷◌};
ghost use Rattle.dft_base.specs.Words as words;

use crate::words::is_among;

// The words that begin with each letter, without it, in their order.
static BEHIND_A: [&str; 4] = ["lways", "nd", "ssign", "utomatic"];

static BEHIND_B: [&str; 4] = ["egin", "uf", "ufif0", "ufif1"];

static BEHIND_C: [&str; 4] = ["ase", "asex", "asez", "mos"];

static BEHIND_D: [&str; 4] = ["eassign", "efault", "efparam", "isable"];

static BEHIND_E: [&str; 12] = [
    "dge",
    "lse",
    "nd",
    "ndcase",
    "ndfunction",
    "ndgenerate",
    "ndmodule",
    "ndprimitive",
    "ndspecify",
    "ndtable",
    "ndtask",
    "vent",
];

static BEHIND_F: [&str; 5] = ["or", "orce", "orever", "ork", "unction"];

static BEHIND_G: [&str; 2] = ["enerate", "envar"];

static BEHIND_H: [&str; 2] = ["ighz0", "ighz1"];

static BEHIND_I: [&str; 6] = ["f", "fnone", "nitial", "nout", "nput", "nteger"];

static BEHIND_J: [&str; 1] = ["oin"];

static BEHIND_L: [&str; 2] = ["arge", "ocalparam"];

static BEHIND_M: [&str; 3] = ["acromodule", "edium", "odule"];

static BEHIND_N: [&str; 7] = ["and", "egedge", "mos", "or", "ot", "otif0", "otif1"];

static BEHIND_O: [&str; 2] = ["r", "utput"];

static BEHIND_P: [&str; 8] = [
    "arameter", "mos", "osedge", "rimitive", "ull0", "ull1", "ulldown", "ullup",
];

static BEHIND_R: [&str; 11] = [
    "cmos", "eal", "ealtime", "eg", "elease", "epeat", "nmos", "pmos", "tran", "tranif0", "tranif1",
];

static BEHIND_S: [&str; 9] = [
    "calared", "igned", "mall", "pecify", "pecparam", "trong0", "trong1", "upply0", "upply1",
];

static BEHIND_T: [&str; 12] = [
    "able", "ask", "ime", "ran", "ranif0", "ranif1", "ri", "ri0", "ri1", "riand", "rior", "rireg",
];

static BEHIND_U: [&str; 2] = ["nsigned", "wire"];

static BEHIND_V: [&str; 1] = ["ectored"];

static BEHIND_W: [&str; 7] = ["ait", "and", "eak0", "eak1", "hile", "ire", "or"];

static BEHIND_X: [&str; 2] = ["nor", "or"];

/// Whether these bytes are a word that IEEE 1364 reserves, which a netlist may not have for a name.
#[tactic(auto, using(crate::proofs::ReservedLemmas::by_first_byte))]
pub fn is_reserved(bytes: &[u8]) -> bool
    ensures { result ≡ words.is_reserved bytes.now }
{
    match bytes {
        [first, behind @ ..] => is_reserved_behind(*first, behind),
        [] => false,
    }
}

// Whether this byte and those behind it are a reserved word.
fn is_reserved_behind(first: u8, behind: &[u8]) -> bool
    ensures { result ≡ words.is_reserved (first ∷ behind.now) }
{
    match first {
        b'a' => is_among(&BEHIND_A, behind),
        b'b' => is_among(&BEHIND_B, behind),
        b'c' => is_among(&BEHIND_C, behind),
        b'd' => is_among(&BEHIND_D, behind),
        b'e' => is_among(&BEHIND_E, behind),
        b'f' => is_among(&BEHIND_F, behind),
        b'g' => is_among(&BEHIND_G, behind),
        b'h' => is_among(&BEHIND_H, behind),
        b'i' => is_among(&BEHIND_I, behind),
        b'j' => is_among(&BEHIND_J, behind),
        b'l' => is_among(&BEHIND_L, behind),
        b'm' => is_among(&BEHIND_M, behind),
        b'n' => is_among(&BEHIND_N, behind),
        b'o' => is_among(&BEHIND_O, behind),
        b'p' => is_among(&BEHIND_P, behind),
        b'r' => is_among(&BEHIND_R, behind),
        b's' => is_among(&BEHIND_S, behind),
        b't' => is_among(&BEHIND_T, behind),
        b'u' => is_among(&BEHIND_U, behind),
        b'v' => is_among(&BEHIND_V, behind),
        b'w' => is_among(&BEHIND_W, behind),
        b'x' => is_among(&BEHIND_X, behind),
        _ => false,
    }
}
