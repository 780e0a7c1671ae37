//! Parallel DEVS, the discrete event formalism of Chow and Zeigler: behaviour, reaction, network,
//! instant and run.
//!
//! The definitions are in `specs/`, once for both uses: the resultant of a text, and what one
//! process runs alone. Three pages are the meaning, in this order: `Behaviour`, an atomic model and
//! what happens to one component at one instant; `Network`, components that react together, their
//! run over all instants and its trace; `Parts`, what of a trace belongs to a set of components.
//! The other pages have definitions for laws, and worked rows.
//!
//! Nothing here runs: each function of `laws` states a law of the definitions. `dv_react` has the
//! code of a reaction, `dv_plain` makes a network of a text, and `dv_conservative` divides a
//! network among processes. Nothing here speaks of rules, texts or processes.
#![tactic(auto)]

/// Laws of networks, runs and traces.
pub mod laws;
