// The five numbers of an answer, in the order in which they are printed.
ghost use Rattle.std.specs.Prelude.{◌≡◌, Some};
ghost use Rattle.plan.specs.Answers.{numbers, success, side_number};
ghost use Rattle.plan.specs.Shown.{shown_answer};

use std::fmt;

// `number` is 0 for success, else it says which question was answered no. `side` is the plan at fault,
// 1 or 2. What p, q and r tell depends on the number. Those that an answer does not name are 0. By a rule of the project these are
// numbers here, and in nothing else: they are what is printed. Refusals and findings are enums, which tell their numbers (`Outcome`).
#[derive(Clone, Copy, PartialEq, Eq, Debug)]
pub struct Answer {
    pub number: usize,
    pub side: usize,
    pub p: usize,
    pub q: usize,
    pub r: usize,
}

impl Answer {
    // Success, with what it tells in p and q.
    pub fn success(p: usize, q: usize) -> Answer
        ensures { result ≡ success p q }
    {
        Answer::refusal(0, 0, p, q)
    }

    // The refusal of this number, with its side, p and q.
    pub fn refusal(number: usize, side: usize, p: usize, q: usize) -> Answer
        ensures { result ≡ numbers number side p q 0 }
    {
        Answer {
            number,
            side,
            p,
            q,
            r: 0,
        }
    }
}

// Which of the two plans.
#[derive(Clone, Copy, PartialEq, Eq, Debug)]
pub enum Side {
    First,
    Second,
}

impl Side {
    // 1 or 2.
    pub fn number(self) -> usize
        ensures { result ≡ side_number self }
    {
        match self {
            Side::First => 1,
            Side::Second => 2,
        }
    }
}

// A lent slice is too short for what is to be written into it.
#[derive(Clone, Copy, PartialEq, Eq, Debug)]
pub struct TooShort {
    // How many places there have to be.
    pub needed: usize,
}

// The five numbers in decimal, single spaces between.
impl fmt::Display for Answer {
    ghost output = { λ a. Some (shown_answer a.number a.side a.p a.q a.r) };

    fn fmt<W: fmt::Write>(&self, f: &mut fmt::Formatter<W>) -> fmt::Result {
        let number = self.number;
        let side = self.side;
        let p = self.p;
        let q = self.q;
        let r = self.r;
        write!(f, "{number} {side} {p} {q} {r}")
    }
}
