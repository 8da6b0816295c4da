// What the program `replay` prints: all of it stands here, so that the program only reads, calls and writes.
#![tactic(auto)]

ghost use Rattle.text.specs.Lines.{text_of, Built};
ghost use Rattle.printout.specs.Program.{refusal_line, printed_of, Prints, Lengthened};

use bounded::Bounded;
use sheet::Answer;
use text::Line;

// What is printed: a transcript of up to 65,536 bytes, and room for one line behind it.
#[derive(Clone, Copy)]
pub struct Printout {
    pub bytes: Bounded<u8, 65600>,
}

// The answer to an input of more than 65,536 bytes, which is not run: question 1, at no line. `sheet` gives the numbers of the
// questions as C reads them, and this is its number for question 1.
const TOO_LONG: Answer = Answer {
    number: 1,
    place: 0,
    other: 0,
    written: 0,
    settled: 0,
};

// The line of a refusal. By hand in fixed memory, as text's lines are: no `Display` promises its text there.
pub fn refusal_line(l: &mut Line, number: u64, place: u64, other: u64)
    ensures { Built (refusal_line number place other) l.new }
{
    text::clear(l);
    text::push(l, b'F');
    text::push_number(l, number);
    text::push_number(l, place);
    text::push_number(l, other);
    text::push(l, b'\n');
}

impl Printout {
    // A line behind what is printed.
    fn lengthen(&mut self, l: &Line)
        ensures { Lengthened self.old (text_of l.now) self.new }
    {
        if let Some(end) = text::append(&mut self.bytes.items, self.bytes.len, l) {
            self.bytes.len = end;
        }
    }
}

// What `replay` prints of its input.
pub fn replay(input: &[u8]) -> Printout
    ensures { Prints (printed_of input.now) result }
{
    let mut bytes = [0; 65600];
    let answer = if input.len() <= 65536 {
        sheet::run(input, &mut bytes[..65536], 65536)
    } else {
        TOO_LONG
    };
    // The cast loses nothing: at most the 65,536 bytes that are lent to `run` are written.
    let mut printed = Printout {
        bytes: Bounded {
            items: bytes,
            len: answer.written as usize,
        },
    };
    if answer.number != 0 {
        let mut line = text::empty();
        refusal_line(&mut line, answer.number, answer.place, answer.other);
        printed.lengthen(&line);
    }
    printed
}
