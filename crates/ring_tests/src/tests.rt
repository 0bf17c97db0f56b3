mod common;
mod duals;
mod fifteens;
mod wholes;
mod words;
