//! The routed DEF, read again, says what DEF said and states exactly the final wires. Statements
//! alone, without code.
#![tactic(auto)]
