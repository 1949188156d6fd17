// A printed line: a letter and the five numbers of an answer.
ghost use Rattle.std.specs.Prelude.{Some};
ghost use Rattle.session.specs.Shown.{shown_line};

use plan::Answer;
use std::fmt;

#[derive(Clone, Copy)]
pub struct Line {
    pub letter: char,
    pub answer: Answer,
}

impl fmt::Display for Line {
    ghost output = { λ l. Some (shown_line l.letter l.answer) };

    fn fmt<W: fmt::Write>(&self, f: &mut fmt::Formatter<W>) -> fmt::Result {
        let letter = self.letter;
        let answer = self.answer;
        write!(f, "{letter} {answer}")
    }
}
