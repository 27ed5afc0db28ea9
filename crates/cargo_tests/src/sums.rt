mod bodies;
mod limits;
mod shares;
mod ships;
mod steps;
mod tables;
