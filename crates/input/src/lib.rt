// What a program takes in: standard input, as far as a buffer goes.
#![tactic(auto)]

ghost use Rattle.std.specs.Prelude.{◌≤◌, length};

use std::io::Read;

// Fills the buffer as far as the input goes, and gives how many bytes came. A read that fails ends the input.
// By `while`: each read says how many bytes came.
pub fn take_in<R: Read>(input: &mut R, bytes: &mut [u8]) -> usize
    ensures { result ≤ length bytes.new }
{
    let mut count = 0;
    while count < bytes.len() {
        let Ok(more) = input.read(&mut bytes[count..]) else {
            return count;
        };
        if more == 0 {
            return count;
        }
        count += more;
    }
    count
}
