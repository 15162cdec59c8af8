//! The commands: their words, files and messages, and the call that runs them, with the theorem on
//! it.
//!
//! All that the program does behind `main` stands here. The words are read as a command; its files
//! are loaded, each read in its notation and accepted or refused; and what they say is put to work:
//! a stream through a row of stages, lines that are listed, a dictionary that is compiled or
//! trimmed and stored, or the made workload. `ap_tool` above it has the public call of the program
//! and the worked rows that test it.
//!
//! # Calls
//!
//! - `run_words`: runs the command that the words are, on the files, the source and the sink that
//!   it is handed, and writes the message of its status.
//! - `read_words`: the `Command` that the words are, with its `Mode` where it is `lt-proc`;
//!   `UsageFault` where they are none.
//! - `Status`: how a command ended, with its number; `message`: writes what is told of it.
//! - `WorkSource`, `WORK_MAX`: the text that `work` translates, made as it is taken, and its most
//!   sentences.
//! - `FILE_MAX`: the most bytes of a file.
//!
//! # What is promised
//!
//! - The theorem `Account` on `run_words`, a field for each promise: where all that the command
//!   reads is told, exactly the bytes, the status and the stored file of its meaning, unless a call
//!   failed or memory ran out; the first file with a fault is answered, and then nothing is taken,
//!   written or stored; each answer comes only for its reason; of a stream that went through,
//!   superblanks come out once, in order and whole. docs/PROVED.md tells it field by field. Beside
//!   it, `Tells`: the message was put, or a front of it where a put failed.
//! - A text says one thing at most in a notation, or has one first fault, and not both
//!   (`one_reading`).
//! - What is given by a dictionary exists (`some_meaning`) and is one (`one_meaning`,
//!   `one_outcome`); what `lt-comp` and `trim` store is one outcome (`one_stored_outcome`,
//!   `one_trimmed_outcome`), and so is what `work` writes (`one_work_outcome`).
//! - The lexicon of a compiled dictionary is that of what its entries relate
//!   (`dictionary_has_its_lexicon`).
//! - Each mode of `lt-proc` keeps superblanks, and what it writes is read on
//!   (`modes_keep_superblanks`, `modes_are_read`).
//!
//! # How a command runs
//!
//! `read_words` (words.rt) and `files_of` (reading.rt) say what is run over which files; `open_all`
//! (opening.rt) loads and reads these; `give` (top.rt) has one case for each command; stages.rt
//! makes the stages and rows.rt the rows; `send` (stream.rt) hands a row to `ap_pipe`, listing.rt
//! lists, compiling.rt stores, working.rt does the workload; messages.rt writes the message.
//!
//! # Definitions to read first
//!
//! - `specs/Account.antt`: `Account`, `Reason`: the promise, and the reason of each answer.
//! - `specs/Words.antt`: `command_of`, `files_of`, `out_of`: which words are which command, and its
//!   files.
//! - `specs/Gives.antt`: `gives_of`: what a command gives for what its files say.
//! - `specs/Rows.antt`: `Stage`, `IsMeaning`: the stages of a row, and what each gives for a text.
//! - `specs/Reading.antt`: `IsAccepted`, `IsFlawOf`: how a file is read, and refused.
//! - `specs/Answer.antt`: `IsAnswer`, `IsRun`: what the code is proved to keep, of which `Account`
//!   follows.
//! - `specs/Messages.antt`: `message_of`, and `specs/Statuses.antt`: `status_number`.
#![tactic(auto)]

mod built_in;
mod compiling;
mod content;
mod kept_sink;
mod laws;
mod listing;
mod made;
mod messages;
mod opening;
mod reading;
mod rows;
mod stages;
mod status;
mod stream;
mod top;
mod translating;
mod words;
mod working;

pub use laws::{
    dictionary_has_its_lexicon, modes_are_read, modes_keep_superblanks, one_meaning, one_outcome,
    one_reading, one_stored_outcome, one_trimmed_outcome, one_work_outcome, some_meaning,
};
pub use made::{WORK_MAX, WorkSource};
pub use messages::message;
pub use opening::FILE_MAX;
pub use status::Status;
pub use top::run_words;
pub use words::{Command, Mode, UsageFault, read_words};
