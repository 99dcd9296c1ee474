//! Tests that the gate proves and runs: worked runs of both top calls over files in memory (`rows`), and what no case shows: parts
//! alone (`parts`), lines of a report (`reports`), texts that are cut off or too long (`broken`), files and outputs that fail
//! (`faults`), a load beside its text (`loads`), and calls of threads under the lock, and an image that is given back and a getter
//! without it (`lock`).
#![tactic(auto)]

#[cfg(test)]
mod broken;
#[cfg(test)]
mod ends;
#[cfg(test)]
mod faults;
#[cfg(test)]
mod files;
#[cfg(test)]
mod loads;
#[cfg(test)]
mod lock;
#[cfg(test)]
mod meeting;
#[cfg(test)]
mod parts;
#[cfg(test)]
mod reports;
#[cfg(test)]
mod rows;
#[cfg(test)]
mod slow;
