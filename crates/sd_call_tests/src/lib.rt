//! Tests by calls, of what no whole run of the program shows: moves with their journals, free numbers and runs in
//! order, small arenas, and public calls that the program does without. What a run shows is a case of `sd_cases`.
#![tactic(auto)]

#[cfg(test)]
mod arena;
#[cfg(test)]
mod cache;
#[cfg(test)]
mod cases;
#[cfg(test)]
mod compiling;
#[cfg(test)]
mod expect;
#[cfg(test)]
mod joining;
#[cfg(test)]
mod moves;
#[cfg(test)]
mod nodes;
#[cfg(test)]
mod plain;
#[cfg(test)]
mod plan;
#[cfg(test)]
mod readers;
#[cfg(test)]
mod seen;
#[cfg(test)]
mod surviving;
#[cfg(test)]
mod tests;
