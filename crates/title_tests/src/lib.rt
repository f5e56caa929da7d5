//! Tests of shares, land, instruments, stores, locks, chains, desks and reports' pages, through their public calls: what no report shows,
//! many calls with ample memory, and where pages end. What a script shows stands with the vectors.
#![tactic(auto)]

#[cfg(test)]
mod aliquot;
#[cfg(test)]
mod chain;
#[cfg(test)]
mod checks;
#[cfg(test)]
mod desk;
#[cfg(test)]
mod images;
#[cfg(test)]
mod instrument;
#[cfg(test)]
mod land;
#[cfg(test)]
mod lock;
#[cfg(test)]
mod pages;
#[cfg(test)]
mod share;
#[cfg(test)]
mod survey;
#[cfg(test)]
mod tree;
