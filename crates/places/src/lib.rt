// What every room cites and what knows no sheet: the refusals that a call may answer, as code; and in specs/ and proofs/ the places below a count, a search along the numbers, refusals in the order they are tried, what a call answers that may be refused, and what tests tell.
#![tactic(auto)]

pub mod refusal;
