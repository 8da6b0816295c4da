// Reads a sheet of at most 65,536 bytes on standard input, or one byte more of a longer input, and prints what it comes to.
#![tactic(auto)]

ghost use Rattle.std.specs.Prelude.{◌≤◌, length, IfOk};

use std::io;
use std::io::{Read, Stdin};

// Reads until the buffer is full or the input ends, and answers how many bytes there are. By hand: `read_to_end` puts them on the
// heap, and could fail for want of memory.
fn read_full(mut from: Stdin, buf: &mut [u8]) -> io::Result<usize>
    ensures { IfOk result (λ n. n ≤ length buf.new) }
{
    let mut done = 0;
    while done < buf.len() {
        let n = from.read(&mut buf[done..])?;
        if n == 0 {
            break;
        }
        done += n;
    }
    Ok(done)
}

fn main(rt: HostRuntime) -> io::Result<()> {
    let mut input = [0; 65537];
    let n = read_full(rt.stdin(), &mut input)?;
    let printed = printout::replay(&input[..n]);
    rt.write_all(printed.bytes.as_slice())
}
