// The calls for C and Rust to link (`tools/library`, include/galdnyrr.h). Each is a call of `index` with its contract;
// what is an enum or a struct there goes as numbers (`specs/Told.antt`, `specs/Asked.antt`).
#![tactic(auto)]

mod all;
mod answers;
mod asked;
mod calls;
mod cleaned;
mod fetches;
mod keys;
mod numbers;
mod rows;
