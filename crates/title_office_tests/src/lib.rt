//! Tests of the office through its public calls: what no contract says of seats, slips, viewers, settling and threads.
#![tactic(auto)]

#[cfg(test)]
mod answers;
#[cfg(test)]
mod asked;
#[cfg(test)]
mod checks;
#[cfg(test)]
mod days;
#[cfg(test)]
mod endings;
#[cfg(test)]
mod gone;
#[cfg(test)]
mod records;
#[cfg(test)]
mod settling;
#[cfg(test)]
mod slips;
#[cfg(test)]
mod tries;
#[cfg(test)]
mod turns;
#[cfg(test)]
mod viewers;
#[cfg(test)]
mod watching;
