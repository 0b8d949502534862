//! S2, S4.5 to S5.7, S7.4, S9.7: what is promised of every task set and of every sheet, as the contracts of functions
//! that do nothing.
ghost use Rattle.allocation.specs.Promise.{BestChoice, NoOption, KeptChoice, HeldTotals, SheetLawful, SheetRounded};
ghost use Rattle.allocation.specs.Wide.{SheetRead, SheetAgain, WideRead, WideAllocated};

/// S5.1 to S5.3: the choice is the best of all ways that fit. S9.7: a task without an option may take nothing.
#[tactic(auto, using(crate::proofs::Promises::best_choice, crate::proofs::Promises::no_option))]
pub fn best_choice()
    ensures best { BestChoice }
    ensures nothing { NoOption }
{}

/// S5.4, S5.6 and S7.4: which low tasks are kept beside the choice, what becomes of the shares, and how the blocks lie.
#[tactic(auto, using(crate::proofs::Promises::kept_choice))]
pub fn kept_choice()
    ensures { KeptChoice }
{}

/// S5.7: each share and each total that is held is the smaller of the true one and m + 1.
#[tactic(auto, using(crate::proofs::Promises::held_totals))]
pub fn held_totals()
    ensures { HeldTotals }
{}

/// S2 and S2.14: what a sheet that is accepted keeps, that it is what is written of its task set, and that its wide
/// form is read and planned alike.
#[tactic(auto, using(crate::proofs::Promises::lawful_sheet, crate::proofs::Sheets::sheet_read, crate::proofs::Again::sheet_again, crate::proofs::Sheets::wide_read, crate::proofs::Wide::wide_allocated))]
pub fn sheets()
    ensures lawful { SheetLawful }
    ensures read { SheetRead }
    ensures again { SheetAgain }
    ensures wide_read { WideRead }
    ensures wide_allocated { WideAllocated }
{}

/// S4.5 and S4.6: V and the remainder of each task of a sheet that is planned.
#[tactic(auto, using(crate::proofs::Promises::rounded_sheet))]
pub fn rounded_sheet()
    ensures { SheetRounded }
{}
