// Lists of calls, drawn.
ghost use Rattle.std.specs.Prelude.{◌<◌, ◌≤◌};

use crate::random::Random;
use dds::Piece;
use loans::{Call, Painting};
use std::alloc::{AllocError, Global};

// How long a stroke is, how many there are, and after how many a loan is handed in; 0 is never.
#[derive(Clone, Copy)]
pub(crate) struct Plan {
    pub(crate) length: u32,
    pub(crate) strokes: u32,
    pub(crate) every: u32,
    ghost short: { length ≤ 4096 },
}

// A list of calls, and what it needs to go on. Each of 32 borrowers has one loan out, of the element of the borrower's number.
#[derive(Drop)]
struct Script<'a> {
    random: Random,
    ink: &'a [u8; 8192],
    plan: Plan,
    granted: u32,
    numbers: [u32; 32],
    calls: Vec<Call<'a>>,
}

// So much of the ink, from a byte on.
fn dip(ink: &[u8; 8192], from: u32, length: u32) -> &[u8]
    requires begins { from < 4096 }
    requires short { length ≤ 4096 }
{
    &ink[from as usize..(from + length) as usize]
}

impl<'a> Script<'a> {
    fn push(&mut self, call: Call<'a>) -> Result<(), AllocError> {
        Ok(self.calls.push(call)?)
    }

    fn ask_for(&mut self, element: u32, borrower: u32) -> Result<(), AllocError> {
        let piece = Piece {
            element,
            level: 0,
            slice: 0,
        };
        self.push(Call::Loan { piece, borrower })
    }

    fn lend(&mut self, borrower: u32) -> Result<(), AllocError>
        requires { borrower < 32 }
    {
        self.granted = self.granted.saturating_add(1);
        self.numbers[borrower as usize] = self.granted;
        self.ask_for(borrower, borrower)
    }

    fn undo(&mut self, borrower: u32) -> Result<(), AllocError>
        requires { borrower < 32 }
    {
        let loan = self.numbers[borrower as usize];
        self.push(Call::Undo { loan, borrower })
    }

    // All 32 loans, one more, and one of no piece.
    fn begin(&mut self) -> Result<(), AllocError> {
        for borrower in 0..32 {
            self.lend(borrower)?;
        }
        self.ask_for(32, 32)?;
        self.ask_for(40, 40)
    }

    // One stroke in sixteen is another borrower's, and one in twenty-five lies in a ninth row, which no piece has.
    fn paint(&mut self, borrower: u32) -> Result<(), AllocError>
        requires { borrower < 32 }
    {
        let length = self.plan.length;
        let loan = self.numbers[borrower as usize];
        let stranger = self.random.below(16) == 0;
        let borrower = if stranger { 99 } else { borrower };
        let row = self.random.below(100) / 12;
        let first = self.random.below(4_097 - length);
        let from = self.random.below(4_096);
        let bytes = dip(self.ink, from, length);
        self.push(Call::Paint(Painting {
            loan,
            borrower,
            row,
            first,
            bytes,
        }))
    }

    // A stroke, and in half of the cases an undo, mostly of the same borrower.
    fn stroke(&mut self) -> Result<(), AllocError> {
        let borrower = self.random.below(32);
        self.paint(borrower)?;
        match self.random.below(16) {
            0..7 => self.undo(borrower),
            7 => {
                let other = self.random.below(32);
                self.undo(other)
            }
            _ => Ok(()),
        }
    }

    // Hands a loan in, kept or cancelled in turn, and lends the piece again; each is tried once more.
    fn hand_in(&mut self, turn: u32) -> Result<(), AllocError> {
        let borrower = turn % 32;
        let loan = self.numbers[borrower as usize];
        self.push(if turn % 2 == 0 {
            Call::Keep { loan }
        } else {
            Call::Cancel { loan }
        })?;
        self.undo(borrower)?;
        self.lend(borrower)?;
        self.ask_for(borrower, borrower)
    }

    fn go_on(&mut self) -> Result<(), AllocError> {
        let every = self.plan.every;
        for stroke in 1..=self.plan.strokes {
            self.stroke()?;
            if every != 0 && stroke % every == 0 {
                self.hand_in(stroke / every)?;
            }
        }
        Ok(())
    }
}

// The calls of a plan.
pub(crate) fn calls(
    heap: Global,
    plan: Plan,
    ink: &[u8; 8192],
) -> Result<Vec<Call<'_>>, AllocError> {
    let mut script = Script {
        random: Random::new(),
        ink,
        plan,
        granted: 0,
        numbers: [0u32; 32],
        calls: Vec::new(heap),
    };
    script.begin()?;
    script.go_on()?;
    Ok(script.calls)
}
