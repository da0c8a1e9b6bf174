//! Tests of the meaning and of plain evaluation.
#![tactic(auto)]

#[cfg(test)]
mod growths;
#[cfg(test)]
mod meaning;
#[cfg(test)]
mod outcomes;
#[cfg(test)]
mod plain;
#[cfg(test)]
mod sleeps;
#[cfg(test)]
mod worlds;
