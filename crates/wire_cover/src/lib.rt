//! Written wiring covers the points of the wires' shapes. Statements alone, without code.
#![tactic(auto)]
