//! Tests of what `acpicheck` prints and answers, over the public calls of its library.
#![tactic(auto)]

#[cfg(test)]
mod tests;
