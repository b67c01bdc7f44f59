//! The lines that the program prints of what happens in a world: one for each happening.
//!
//! `specs/Lines.antt` says what each line is, `Verdicts` what is said of a client's judgement, and `Held` what the types keep
//! of a happening. `laws` says that no two
//! happenings print one line.
//!
//! Its tests: `examples/`, and `call_tests`, module `report_text_tests`.
#![tactic(auto)]

pub use happening::{Code, CodeValue, Happening, Kind, Said, Target, Unlearnt, Values, What};
pub use printing::print;
pub use said::say;
pub use verdicts::said_of;

mod happening;
pub mod laws;
mod printing;
mod said;
mod verdicts;
mod words;
