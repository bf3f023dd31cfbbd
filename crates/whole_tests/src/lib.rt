//! Tests of the top call, of the module of a host and an agent, stepped, and of the routes of a plan.
#![tactic(auto)]

#[cfg(test)]
mod answers;
#[cfg(test)]
mod routes;
#[cfg(test)]
mod steps;
