//! S6.3: what is promised of numbers in decimal, as the contract of a function that does nothing.
ghost use Rattle.plan_text.specs.Decimal.{DecimalReads};

/// S6.3: the digits of a number say it, each is a digit, and none in front is a zero.
#[tactic(auto, using(crate::proofs::Promises::decimal_reads))]
pub fn decimals()
    ensures { DecimalReads }
{}
