//! Operations on a board by their lines, and the lines of their answers.

ghost use Rattle.std.specs.Prelude.{◌≡◌, ◌+◌, ◌<◌, ◌^◌, ◌++◌, List, ℕ, length, OnOk, IfOk};
ghost use Rattle.cache_board.specs.Desks.{AreOfTickets};
ghost use Rattle.v_drive.specs.Lines.{answers_text, IsDone, IsTaken};

use cache_board::{Answer, Board, Desk, Op, drive};
use drive_text::{Line, put_answer, read_line};
use std::alloc::{AllocError, Global};

/// A board by hand: the board, what lies on its desk, and the lines of all answers so far.
#[derive(Drop)]
pub(crate) struct Hand {
    pub alloc: Global,
    pub board: Board,
    pub desk: Desk,
    pub text: Vec<u8>,
}

// Adds the lines of answers.
fn put_answers(alloc: Global, out: &mut Vec<u8>, answers: &[Answer]) -> Result<(), AllocError>
    ensures { OnOk result (out.new.items ≡ out.old.items ++ answers_text answers.now) }
{
    for answer in answers {
        put_answer(alloc, out, answer)?;
    }
    Ok(())
}

impl Hand {
    // Makes an operation, and adds the line of its answer.
    fn operate(&mut self, op: Op) -> Result<(), AllocError>
        requires { AreOfTickets self.old.board.journal.entries self.old.desk }
        ensures done { OnOk result ((text : List ℕ) × (self.new.text.items ≡ self.old.text.items ++ text) × IsDone (Line.Operation op) self.old.board self.old.desk text self.new.board self.new.desk) }
        ensures views { OnOk result (AreOfTickets self.new.board.journal.entries self.new.desk) }
    {
        let mut answers = Vec::new(self.alloc);
        drive(&mut self.board, &mut self.desk, &[op], &mut answers)?;
        put_answers(self.alloc, &mut self.text, &answers)
    }

    // Adds the journal so far.
    fn show_journal(&mut self) -> Result<(), AllocError>
        requires { AreOfTickets self.old.board.journal.entries self.old.desk }
        ensures done { OnOk result ((text : List ℕ) × (self.new.text.items ≡ self.old.text.items ++ text) × IsDone Line.Journal self.old.board self.old.desk text self.new.board self.new.desk) }
        ensures views { OnOk result (AreOfTickets self.new.board.journal.entries self.new.desk) }
    {
        let text = journal_text::print(self.alloc, self.board.journal())?;
        self.text.extend_from_slice(&text)
    }

    // Does what a line asks for.
    fn take(&mut self, line: Line) -> Result<(), AllocError>
        requires { AreOfTickets self.old.board.journal.entries self.old.desk }
        ensures done { OnOk result ((text : List ℕ) × (self.new.text.items ≡ self.old.text.items ++ text) × IsDone line self.old.board self.old.desk text self.new.board self.new.desk) }
        ensures views { OnOk result (AreOfTickets self.new.board.journal.entries self.new.desk) }
    {
        match line {
            Line::Operation(op) => self.operate(op),
            Line::Journal => self.show_journal(),
        }
    }

    /// Does what each line asks for, up to the end or to the first that is no operation's, and answers that line's number, if
    /// there is one. `number` is the first line's.
    pub(crate) fn take_lines(
        &mut self,
        lines: &[u8],
        number: u64,
    ) -> Result<Option<u64>, AllocError>
        requires views { AreOfTickets self.old.board.journal.entries self.old.desk }
        requires numbers { number + length lines.now < 2 ^ 64 }
        ensures { IfOk result (λ fault. (text : List ℕ) × (self.new.text.items ≡ self.old.text.items ++ text)
            × IsTaken lines.now number fault self.old.board self.old.desk text self.new.board self.new.desk) }
    {
        let mut at = number;
        let mut rest = lines;
        while !rest.is_empty() {
            let found = read_line(self.alloc, rest)?;
            let Some(read) = found else {
                return Ok(Some(at));
            };
            self.take(read.line)?;
            rest = read.rest;
            at += 1;
        }
        Ok(None)
    }
}
