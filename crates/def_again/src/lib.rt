//! A DEF text with further wiring of nets, read again. Statements alone, without code.
#![tactic(auto)]
