#![tactic(auto)]

// Examples of the library in use, each refusal among them: tests, and functions that are proved and not run.
mod alike;
#[cfg(test)]
mod arcs;
#[cfg(test)]
mod books;
#[cfg(test)]
mod compiled;
mod copies;
mod drafts_proved;
#[cfg(test)]
mod files;
#[cfg(test)]
mod listed;
#[cfg(test)]
mod lists;
mod owner;
#[cfg(test)]
mod piles;
mod reading;
#[cfg(test)]
mod sheets;
#[cfg(test)]
mod viewed;
#[cfg(test)]
mod written;
