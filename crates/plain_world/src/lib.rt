//! The plain program of the world of actors: calls of several actors that take their atomic steps between each other's
//! steps, over the plain table. Its contract is the definition of a step, and faster programs are compared with it.
#![tactic(auto)]

mod begin;
mod happen;
mod holds;
mod made;
mod step;
mod world;

pub use begin::BeginRefused;
pub use step::StepAnswer;
pub use world::{AnyCommit, PlainWorld, begin_world};
