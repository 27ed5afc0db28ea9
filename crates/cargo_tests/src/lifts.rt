mod arrivals;
mod equality;
mod exchanging;
mod faults;
mod fillings;
mod laws;
mod operations;
mod orders;
mod reweighing;
mod sequences;
mod ships;
mod singles;

pub(crate) use orders::{mass, short};
