//! Problems from text, in the general form of the input of Knuth's program DLX1, and answers to text and from it.
#![tactic(auto)]

mod answer;
mod answer_fault;
mod answer_head;
mod answer_laws;
mod buffer;
mod cover_text;
mod devices;
mod fault;
mod laws;
mod lines;
mod names;
mod option_index;
mod options;
mod reading;
mod short_name;
mod text_fault;
mod words;
mod writing;

pub use answer::read_answer;
pub use answer_fault::AnswerFault;
pub use answer_laws::{each_text_gives_one_read, written_answers_are_read};
pub use devices::{CountedReader, CountedWriter, DeviceFault, Sink, Source};
pub use fault::ReadFault;
pub use laws::one_problem_or_first_fault;
pub use reading::{Read, read_problem, read_text};
pub use short_name::ShortName;
pub use text_fault::{TextFault, UnknownName};
pub use writing::{WriteFault, write_answer, write_bytes};
