// Whole sheets: line by line from the bytes, the first bad line, max_retry and the components.
#![tactic(auto)]

ghost use Rattle.std.specs.Prelude.{◌≡◌, ◌<◌, length};
ghost use Rattle.reader.specs.Read.{part_after, no_lines, Reads, ReadAs};

use components::ComponentList;
use lines::Row;

// Which lines may come: the B line, then C lines, then E and R lines. After a bad line none may: `Wrong` is a state too, in which
// the definitions read on, so that an Option would have to be made one again.
#[derive(Clone, Copy, Debug, PartialEq, Eq)]
pub enum Part {
    Opening,
    Cards,
    Script,
    Wrong,
}

// What a line says, and the place of the line after it.
#[derive(Clone, Copy)]
pub struct Next {
    pub row: Option<Row>,
    pub after: usize,
}

// What the B line and the C lines say.
#[derive(Clone, Copy)]
pub struct Sheet {
    pub max_retry: u8,
    pub list: ComponentList,
}

impl Sheet {
    // What is known before a line is read.
    pub fn new() -> Self
        ensures { result ≡ no_lines }
    {
        Sheet {
            max_retry: 0,
            list: ComponentList::new(),
        }
    }
}

// The first line that is bad, counted from 1.
#[derive(Clone, Copy)]
pub struct BadSheet {
    pub line: usize,
}

// The line at a place of the sheet. A line that is not ended is bad. Nearly all lines are told by their first bytes
// (`lines::first_line`), and only of the others the end is looked for.
pub fn next_line(sheet: &[u8], at: usize) -> Next
    requires { at < length sheet.now }
    ensures { Reads sheet.now at result }
{
    let m = &sheet[at..];
    if let Some((row, rest)) = lines::first_line(m) {
        return Next {
            row: Some(row),
            after: sheet.len() - rest.len(),
        };
    }
    let n = fields::place(m, 10);
    if n == m.len() {
        return Next {
            row: None,
            after: sheet.len(),
        };
    }
    Next {
        row: lines::read_line(&m[..n]),
        after: at + n + 1,
    }
}

fn part_after(part: Part, row: Option<Row>) -> Part
    ensures { result ≡ part_after part row }
{
    match (part, row) {
        (Part::Opening, Some(Row::Retry(_))) => Part::Cards,
        (Part::Cards, Some(Row::Card(_))) => Part::Cards,
        (Part::Cards | Part::Script, Some(Row::Begin(_) | Row::Answer(_))) => Part::Script,
        _ => Part::Wrong,
    }
}

// Question 1 is put to every line, and what the B and C lines say is added to what is lent: by value the list would be copied on
// its way out. Where a line is bad, what the lines before it say has been added.
pub fn read_sheet(sheet: &[u8], read: &mut Sheet) -> Result<(), BadSheet>
    ensures { ReadAs sheet.now read.old result read.new }
{
    let mut at = 0;
    let mut line = 1;
    let mut part = Part::Opening;
    // From place to place: a step is as long as its line, so that no range counts it. The line's number goes along.
    while at < sheet.len() {
        let next = next_line(sheet, at);
        part = part_after(part, next.row);
        if part == Part::Wrong {
            return Err(BadSheet { line });
        }
        match next.row {
            Some(Row::Retry(n)) => read.max_retry = n,
            Some(Row::Card(c)) => read.list.put(c),
            _ => {}
        }
        at = next.after;
        line += 1;
    }
    if part == Part::Opening {
        return Err(BadSheet { line });
    }
    Ok(())
}
