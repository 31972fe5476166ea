// Tests of refusals, totals, chances and bounds.
#![tactic(auto)]

#[cfg(test)]
mod bound_numbers;
#[cfg(test)]
mod refusals;
#[cfg(test)]
mod scratch;
