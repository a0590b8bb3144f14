// Tests of the table: each call through its causes of refusal, in a crate of their own so that proving the table stays quick.
#![tactic(auto)]

#[cfg(test)]
mod tests;
