//! Written words are read as the wiring that they were written of. Statements alone, without
//! code.
#![tactic(auto)]
