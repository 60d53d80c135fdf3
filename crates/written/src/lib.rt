//! What is written of wires: their words, the wiring that these say, and the points that it
//! covers. Statements alone, without code: what a text that the router wrote says, read again.
#![tactic(auto)]
