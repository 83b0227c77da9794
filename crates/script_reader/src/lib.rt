//! Reads scripts: the language in which users write the runs of a job and what happens between them.
#![tactic(auto)]

mod form;
mod laws;
mod line;
mod number;
mod reader;
mod reading;
mod reason;
mod routes;
mod run;
mod script;
mod settings;
mod stage;
mod step_form;
mod values;
mod words;

pub use laws::{
    lines_are_read_back, numbers_are_decimal, pieces_make_the_text, scripts_are_read_back,
    steps_are_read_as_spelled,
};
pub use reading::{ScriptError, read_script};
pub use script::{Item, RunItem, Script, TurnLine};
