mod adding;
mod call;
mod figures;
mod refusing;
mod setting;
mod showing;
