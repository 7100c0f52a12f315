//! Texts of several modules that are cut off.

use dft_test_support::{Unlike, ran, shelf};
use std::alloc::Global;
use std::test::Fail;

// Three modules, the top first.
static THREE: &str =
    "module m (c, d, q); input c, d; output q; k u (.a(d), .y(w)); DFF f (.CK(c), .D(w), .Q(q)); endmodule module k (a, y); input a; output y; l u (.a(a), .y(y)); endmodule module l (a, y); input a; output y; INV i (.A(a), .Y(n)); not (y, n); endmodule";

// Patterns for its ports.
static PATTERNS: &str =
    "STIL 1.0;Signals{c In;d In;q Out;}Timing{WaveformTable w{Period'100ns';Waveforms{c{0{'0ns'D;}P{'0ns'D;'50ns'U;'80ns'D;}}d{0{'0ns'D;}1{'0ns'U;}}q{H{'40ns'H;}X{'0ns'X;}}}}}PatternBurst b{PatList{p;}}PatternExec{PatternBurst b;}Pattern p{W w;V{c=P;d=1;q=X;}V{c=0;d=0;q=H;}}";

// Whether a replay of the front of a text is refused.
fn is_cut(alloc: Global, front: &str) -> Result<bool, Unlike> {
    let held = [("n", front, ""), ("p", PATTERNS, "")];
    let mut files = shelf(alloc, &held, None)?;
    Ok(ran(alloc, "replay --netlist n --patterns p", &mut files, None)?.is_refused())
}

// The front of a text, of so many bytes.
fn front(text: &str, len: usize) -> &str {
    match text.split_at_checked(len) {
        Some((front, _)) => front,
        None => text,
    }
}

#[test]
fn every_front_of_three_modules_is_refused(rt: HostRuntime) -> Result<(), Fail> {
    for len in 0..THREE.len() {
        assert!(rt; is_cut(rt.alloc(), front(THREE, len))?, "{len} bytes");
    }
    Ok(())
}
