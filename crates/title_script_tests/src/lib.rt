//! Tests of devices, rows, whole scripts and a desk, through public calls: limits that take long scripts from both sides, failing
//! devices, cut scripts, and the lines of faults.
#![tactic(auto)]

#[cfg(test)]
mod checks;
#[cfg(test)]
mod command;
#[cfg(test)]
mod desk;
#[cfg(test)]
mod device;
#[cfg(test)]
mod fake;
#[cfg(test)]
mod lone;
#[cfg(test)]
mod office;
#[cfg(test)]
mod row;
#[cfg(test)]
mod scripts;
