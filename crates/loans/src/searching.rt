// Finding a loan by its number.
ghost use Rattle.std.specs.Prelude.{◌≡◌};
ghost use Rattle.loans.specs.steps.Finding.{Found};

use crate::loan::Loan;

// The position of the loan with that number among the loans.
pub(crate) fn position_of(loans: &[Loan], number: u32) -> Option<usize>
    ensures { Found loans.now number result }
{
    loans.iter().position(|loan| loan.number == number)
}
