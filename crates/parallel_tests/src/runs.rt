mod gates;
mod jobs;
mod scouts;
mod waits;
