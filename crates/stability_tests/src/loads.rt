mod cargo;
mod conditions;
mod limits;
