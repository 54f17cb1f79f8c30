// What the leaf crates answer to rows of data, in numbers: which of its kind's answers, the numbers of that answer, and last how long
// the text is that goes with it.
#![tactic(auto)]

mod case_rows;
mod name_rows;
mod strict_rows;

pub type Told = [usize; 14];

// An answer with three numbers at most.
pub fn told(answer: usize, a: usize, b: usize, c: usize) -> Told {
    [answer, a, b, c, 0, 0, 0, 0, 0, 0, 0, 0, 0, 0]
}

// An answer with a text of so many bytes and three numbers at most.
pub fn told_with(text: usize, answer: usize, a: usize, b: usize, c: usize) -> Told {
    [answer, a, b, c, 0, 0, 0, 0, 0, 0, 0, 0, 0, text]
}

// No answer: the row can't be read.
pub fn nothing() -> Told {
    told(9, 0, 0, 0)
}

// What the library answers to the fields of a row of one of the first twelve kinds in the list of `replay`, where a kind's place is its
// number.
pub fn tell(out: &mut [u8], kind: usize, x: &[u8], y: &[u8], a: usize, b: usize, c: usize) -> Told {
    if kind < 3 {
        return strict_rows::tell(out, kind, x, a, b);
    }
    if kind < 7 {
        return case_rows::tell(out, kind, x, a, b, c);
    }
    name_rows::tell(out, kind, x, y, a, b, c)
}
