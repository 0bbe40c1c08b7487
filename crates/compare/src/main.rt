// `compare`: takes in one pattern file from standard input and prints what the report says of it in the default room.
#![tactic(auto)]

use comparison::Tables;
use sets::States;
use std::io::Write;

fn main(rt: HostRuntime) {
    // One byte more than the longest file: what comes after it changes nothing.
    let mut bytes = [0u8; 20513];
    let mut rows = [0u64; 2048];
    let mut tables = Tables {
        lefts: &mut [0; States::DEFAULT_ROOM],
        rights: &mut [0; States::DEFAULT_ROOM],
        parents: &mut [0; States::DEFAULT_ROOM],
        taken: &mut [0; States::DEFAULT_ROOM],
        sequence: &mut [0; States::DEFAULT_ROOM],
    };
    let mut out = [0u8; 74 + 42 * States::DEFAULT_ROOM];
    let mut stdin = rt.stdin();
    let count = input::take_in(&mut stdin, &mut bytes);
    let length = report::report(
        &bytes[..count],
        States::DEFAULT_ROOM,
        &mut rows,
        &mut tables,
        &mut out,
    );
    let mut output = rt.stdout();
    let written = output.write_all(&out[..length]);
    drop(written);
}
