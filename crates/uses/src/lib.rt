//! The libraries as their users call them, vectors of the RFCs, and runs over devices in memory.
#![tactic(auto)]

#[cfg(test)]
mod audits;
#[cfg(test)]
mod authorities;
#[cfg(test)]
mod bases;
#[cfg(test)]
mod bodies;
#[cfg(test)]
mod books;
#[cfg(test)]
mod components;
#[cfg(test)]
mod configurations;
#[cfg(test)]
mod devices;
#[cfg(test)]
mod digests;
#[cfg(test)]
mod explanations;
#[cfg(test)]
mod given;
#[cfg(test)]
mod heads;
#[cfg(test)]
mod identifiers;
#[cfg(test)]
mod macs;
#[cfg(test)]
mod outcomes;
#[cfg(test)]
mod readers;
#[cfg(test)]
mod recordings;
#[cfg(test)]
mod rewritings;
#[cfg(test)]
mod runs;
#[cfg(test)]
mod scripts;
#[cfg(test)]
mod signings;
#[cfg(test)]
mod turned_lists;
#[cfg(test)]
mod values;
#[cfg(test)]
mod verdict_labels;
