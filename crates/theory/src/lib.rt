#![tactic(auto)]

// Definitions and theorems of least and hyper tables. No function here is called: each is there for its contract.
mod examples;
mod theorems;
