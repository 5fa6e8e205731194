// Tests of `starts` on texts, cut into tokens by `lexer`.
#![tactic(auto)]

#[cfg(test)]
mod tests;
