// The library for C: the functions of `sounder` under their C names, each with the clauses of the function that it calls.
// A slice crosses as a pointer and a length, a struct by value, and a voice either way. include/sounder.h declares the same for C.
// Functions that look alike, as those that play and play in place, are names of that header each, and each only calls its own.
#![tactic(auto)]

pub mod images;
pub mod in_place;
pub mod merges;
pub mod plans;
pub mod voices;
