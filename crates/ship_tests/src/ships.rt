mod equality;
mod files;
mod keys;
mod profiles;
mod values;
