//! The tokens of the routed DEF are those of DEF and of the wiring that is put in. Statements
//! alone, without code.
#![tactic(auto)]
