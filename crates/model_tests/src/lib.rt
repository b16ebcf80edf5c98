//! Tests of ss_report, ss_journal, ss_links, ss_events, ss_console and ss_serve, a module each, in
//! one crate of their own: calls that no caller makes, and what no answer shows. The gate proves a
//! crate once more with its tests.
#![tactic(auto)]

#[cfg(test)]
mod compare;
#[cfg(test)]
mod console;
#[cfg(test)]
mod entries;
#[cfg(test)]
mod events;
#[cfg(test)]
mod journal;
#[cfg(test)]
mod links;
#[cfg(test)]
mod report;
#[cfg(test)]
mod serve;
