//! The answers and refusals of the product.

ghost use Rattle.std.specs.Prelude.{◌≡◌, Some};
ghost use Rattle.form.specs.Numbers.{answer_of, decline_number, fault_text, numbers};

use std::fmt;

/// Every refusal of the product, by name and number.
#[derive(Clone, Copy, PartialEq, Eq, Debug)]
pub enum Decline {
    CountOutsideLimit = 1,
    RunPastTable = 2,
    NamesNothing = 3,
    StandsTwice = 4,
    TermMisfit = 5,
    TextTooLong = 6,
    MalformedLine = 7,
    UnknownName = 8,
    NoSuchPlace = 9,
    PlanFull = 10,
    NoSuchOperator = 11,
    ArgumentCount = 12,
    ArgumentMisfit = 13,
    PreconditionFails = 14,
    JournalFull = 15,
    BufferTooShort = 16,
}

/// A refusal with where it arose: line of the text, place (a table or a step's place) and item, each 0 where nothing else is said.
#[derive(Clone, Copy, PartialEq, Eq, Debug)]
pub struct Fault {
    pub decline: Decline,
    pub line: u32,
    pub place: u32,
    pub item: u32,
}

/// What a call answers.
#[derive(Clone, Copy, PartialEq, Eq, Debug)]
pub enum Answer {
    /// The edit or the reading was carried out.
    Granted,
    /// The standing steps lead to the goal.
    Plan,
    /// They do not: the first unmet item of the goal, from 1.
    Open(u32),
    Refused(Fault),
}

impl From<Decline> for u32 {
    ghost from_gives = { λ decline number. number ≡ decline_number decline };

    /// The refusal's number.
    fn from(decline: Decline) -> u32 {
        decline as u32
    }
}

/// As reports and programs print it: `fault 14 line 3 step 2 item 1`.
impl fmt::Display for Fault {
    ghost output = { λ fault. Some (fault_text fault) };

    fn fmt<W: fmt::Write>(&self, f: &mut fmt::Formatter<W>) -> fmt::Result {
        let number = u32::from(self.decline);
        let Fault {
            decline: _,
            line,
            place,
            item,
        } = self;
        write!(f, "fault {number} line {line} step {place} item {item}")
    }
}

impl From<Result<(), Fault>> for Answer {
    ghost from_gives = { λ result answer. answer ≡ answer_of result };

    /// The answer to an edit that was tried.
    fn from(tried: Result<(), Fault>) -> Answer {
        match tried {
            Ok(()) => Answer::Granted,
            Err(fault) => Answer::Refused(fault),
        }
    }
}

impl From<Answer> for [u32; 4] {
    ghost from_gives = { λ answer four. four ≡ numbers answer };

    /// The answer as four numbers: its own (0 granted, 101 plan, 102 open, or the refusal's), line, place and item.
    fn from(answer: Answer) -> [u32; 4] {
        match answer {
            Answer::Granted => [0, 0, 0, 0],
            Answer::Plan => [101, 0, 0, 0],
            Answer::Open(item) => [102, 0, 0, item],
            Answer::Refused(fault) => [fault.decline.into(), fault.line, fault.place, fault.item],
        }
    }
}
