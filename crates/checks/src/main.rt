// `check`: takes in one evidence file from standard input and prints one line, what the check says of it.
#![tactic(auto)]

use sets::States;
use std::io::Write;

fn main(rt: HostRuntime) {
    // One byte more than the longest file: what comes after it changes nothing.
    let mut bytes = [0u8; 40995];
    let mut rows = [0u64; 2048];
    let mut lefts = [0u64; States::MAX_ROOM];
    let mut rights = [0u64; States::MAX_ROOM];
    let mut out = [0u8; 50];
    let mut stdin = rt.stdin();
    let count = input::take_in(&mut stdin, &mut bytes);
    let length = checking::report(
        &bytes[..count],
        &mut rows,
        &mut lefts,
        &mut rights,
        &mut out,
    );
    let mut output = rt.stdout();
    let written = output.write_all(&out[..length]);
    drop(written);
}
