// Tests of the sheet, in a crate of their own so that proving the sheet stays quick.
#![tactic(auto)]

#[cfg(test)]
mod tests;
