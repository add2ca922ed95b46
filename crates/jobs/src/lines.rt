// The lines of a sheet. A sheet is the terms of a job as bytes, one term a line.
ghost use Rattle.std.specs.Iterator.{YieldsFirstRef, item_count};
ghost use Rattle.std.specs.Prelude.{◌≡◌, [], MatchOption, ◌==◌, position};
ghost use Rattle.jobs.specs.Sheets.{lines_of, FirstLine, LinesOfSheet};
ghost use Rattle.jobs.specs.Left.{left};

// The byte that ends a line.
const LINE_END: u8 = b'\n';

// Where the first byte stands that ends a line, if there is one.
fn line_end(sheet: &[u8]) -> Option<usize>
    ensures { result ≡ position (λ b. b == 10) sheet.now }
{
    sheet.iter().position(|b| *b == LINE_END)
}

// The first line of a sheet and the sheet behind it, or nothing where there is no line. The last line may lack its end.
pub fn first_line(sheet: &[u8]) -> Option<(&[u8], &[u8])>
    ensures { MatchOption result (lines_of sheet.now ≡ []) (λ x. FirstLine sheet.now x.0.now x.1.now) }
{
    if sheet.is_empty() {
        return None;
    }
    match line_end(sheet) {
        Some(end) => Some((&sheet[..end], &sheet[end + 1..])),
        None => Some((sheet, &[])),
    }
}

// The lines of a sheet, the first one first.
#[derive(Drop)]
pub struct Lines<'s> {
    rest: &'s [u8],
}

impl<'s> Lines<'s> {
    pub fn of(sheet: &'s [u8]) -> Lines<'s>
        ensures { left result ≡ lines_of sheet.now }
    {
        Lines { rest: sheet }
    }
}

impl<'s> Iterator for Lines<'s> {
    type Item = &'s [u8];

    ghost next_gives = { YieldsFirstRef left };

    ghost remaining = { item_count left };

    fn next(&mut self) -> Option<&'s [u8]> {
        let (line, behind) = first_line(self.rest)?;
        self.rest = behind;
        Some(line)
    }
}

// What the lines of a sheet are: byte 10 ends them, and what follows the last end is a line too, unless it is empty.
pub fn lines_of_sheet()
    ensures { LinesOfSheet 10 }
{}
