// Reads an order from standard input and writes its answer.
#![tactic(auto)]

ghost use Rattle.std.specs.Prelude.{◌≤◌, IfOk, length};

use order::answer::answer;
use std::io;
use std::io::Read;

// Reads until the buffer is full or the input ends, and tells how many bytes it put at the buffer's start.
fn read_full<R: Read>(reader: &mut R, buffer: &mut [u8]) -> io::Result<usize>
    ensures { IfOk result (λ n. n ≤ length buffer.new) }
{
    let mut done = 0;
    while done < buffer.len() {
        let n = reader.read(&mut buffer[done..])?;
        if n == 0 {
            break;
        }
        done += n;
    }
    Ok(done)
}

fn main(rt: HostRuntime) -> io::Result<()> {
    // One byte more than the longest order has: an order that fills it is too long, and so malformed.
    let mut order = [0; 3733];
    let n = read_full(&mut rt.reader(), &mut order)?;
    let mut text = [0u8; 2506];
    let answered = answer(&order[..n], &mut text);
    let Ok(long) = answered else {
        // The longest text fits, so there is always one.
        unreachable!()
    };
    rt.write_all(&text[..long])
}
