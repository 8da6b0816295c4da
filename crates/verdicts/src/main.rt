// Reads lists of components, one on a line, and writes the verdict on each: number, place and other place.
//
// A line is the length and then five numbers for each entry: id, kind (0 Active, 1 Passive), policy (0 Required,
// 1 Isolable, 2 Cascading), region, dependency (256 for none). Any byte that is no digit ends a number.
#![tactic(auto)]

use components::{Answer, ComponentList};
use std::io;
use std::io::{Read, Stdout};

// The line so far: its entries, the numbers of the entry at hand behind the length, and the number at hand. The numbers are
// in an array: they are six and never more, and what is counted is the place of the next, which begins at 1 again with each
// entry. A list with a length of its own would have a second count.
#[derive(Clone, Copy)]
struct Line {
    list: ComponentList,
    fields: [u64; 6],
    field: usize,
    number: u64,
}

fn new_line() -> Line {
    Line {
        list: ComponentList::new(),
        fields: [0; 6],
        field: 0,
        number: 0,
    }
}

fn write_answer(out: Stdout, mut list: ComponentList, len: u64) -> io::Result<()> {
    list.len = len as usize; // as wide as the number
    let a = Answer::from(list.verdict());
    println!(out; "{} {} {}", a.number, a.place, a.other)
}

// A number has ended: it is kept, and with an entry's last number the entry is.
fn end_number(line: &mut Line) {
    let at = line.field % 6;
    line.fields[at] = line.number;
    line.number = 0;
    if at < 5 {
        line.field = at + 1;
        return;
    }
    let [_, id, kind, policy, region, dependency] = line.fields;
    line.list = line
        .list
        .push(cases::component_of(id, kind, policy, region, dependency));
    line.field = 1;
}

// The bytes of a chunk, one after the other.
fn feed(out: Stdout, line: &mut Line, chunk: &[u8]) -> io::Result<()> {
    for &b in chunk {
        if let Some(digit) = char::from(b).to_digit(10) {
            line.number = cases::with_digit(line.number, u64::from(digit));
        } else {
            end_number(line);
        }
        if b == b'\n' {
            write_answer(out, line.list, line.fields[0])?;
            *line = new_line();
        }
    }
    Ok(())
}

// At most 4 GiB are read, so that the program ends whatever it is fed.
const MOST: u64 = 4_294_967_296;

// `steps` reads its input by the same six lines: what each feeds is its own, and a closure over the output and the line would
// say more than they do.
fn main(rt: HostRuntime) -> io::Result<()> {
    let mut input = rt.stdin().take(MOST);
    let mut line = new_line();
    let mut chunk = [0u8; 65536];
    // A loop that waits on input is a count here, since each loop has to end. `lines` of std would refuse bytes that are no
    // text, and `split` would allocate each line; both would answer a line that is not ended.
    for _ in 0..u64::MAX {
        let n = input.read(&mut chunk)?;
        if n == 0 {
            break;
        }
        feed(rt.stdout(), &mut line, &chunk[..n])?;
    }
    Ok(())
}
