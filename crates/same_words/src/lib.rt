//! Forms of text take the same words at other places, with the same values. Statements alone,
//! without code.
#![tactic(auto)]
