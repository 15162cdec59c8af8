ghost use Rattle.std.specs.Prelude.{◌≡◌, ◌+◌, ◌<◌, ◌≤◌, ◌==◌, ◌&&◌, not, length, slice_index, IfOk, IfSome, None};
ghost use Rattle.std.specs.List.{list_all};
ghost use Rattle.ap_command.specs.Words.{command_of, alone, by_file, transfer_of, comp_of, trim_of, options_of, mode_of_lem, proc_of, compound_of, text_of, work_of, format_of, step_of, run_of, run_from, number_to, in_range_lem, files_of, out_of, texts, is_file_name_lem, AreWithin, HasRoom};

use crate::made::WORK_MAX;
use crate::stream::ROOM;
use ap_dix::Direction;
use ap_stream::ROOM_MAX;
use thiserror::Error;

/// The words are no command.
#[derive(Clone, Copy, Debug, PartialEq, Eq, Error)]
#[error("usage")]
pub struct UsageFault;

/// What `lt-proc` does: analysis (`-a`), bilingual lookup (`-b`), generation (`-g`, `-n`, `-d`) or
/// post-generation (`-p`).
#[derive(Clone, Copy, Debug, PartialEq, Eq)]
pub enum Mode {
    A,
    B,
    G,
    N,
    D,
    P,
}

/// A command. Its files go by their places among the words, counted from 0.
#[derive(Clone, Copy, Debug, PartialEq, Eq)]
pub enum Command {
    /// `lt-proc`, options, FILE: the stream goes through a dictionary. In any order there may be
    /// one option of a mode, which is `-a` where there is none, and `-c`, which makes case count.
    Proc {
        mode: Mode,
        sensitive: bool,
        file: usize,
    },
    /// `lt-expand DIX`: the lines of a dictionary.
    Expand {
        dix: usize,
    },
    /// `lt-comp lr DIX OUT` or `lt-comp rl DIX OUT`: a dictionary is compiled in that direction and
    /// stored under the name OUT.
    Comp {
        way: Direction,
        dix: usize,
        out: usize,
    },
    /// `trim MONO BI OUT`: what of an analyser a bilingual dictionary can translate is stored under
    /// the name OUT.
    Trim {
        mono: usize,
        bi: usize,
        out: usize,
    },
    /// `first`: the first reading of each unit of the stream.
    First,
    /// `pretransfer`: the words of the stream taken apart.
    Pretransfer,
    /// `choose PAIRS`: one reading of each unit of the stream, by forbidden pairs of tags.
    Choose {
        pairs: usize,
    },
    /// `transfer -b T1X`: rules of transfer, over units with their translations.
    TransferAlone {
        t1x: usize,
    },
    /// `transfer T1X BIDIX`: a bilingual dictionary, and behind it rules of transfer.
    Transfer {
        t1x: usize,
        bidix: usize,
    },
    /// `interchunk T2X`: rules of interchunk.
    Interchunk {
        t2x: usize,
    },
    /// `postchunk T3X`: rules of postchunk.
    Postchunk {
        t3x: usize,
    },
    /// `destxt`: a plain text made a text of the stream.
    Destxt,
    /// `retxt`: a generated text made a plain text.
    Retxt,
    /// `compound FILE` or `compound -c FILE`: analysis by a dictionary, whose unknown words are
    /// explained as compounds; `-c` makes case count.
    Compound {
        sensitive: bool,
        file: usize,
    },
    /// `run MONO BI T1X T2X T3X GEN POST`: the stream is translated, by seven files of which the
    /// first is at the place `mono` and the others follow. `-B N` before them says the room of a
    /// pipe between stages in bytes, from 1 to `ROOM_MAX`; without it that is 65,536.
    Run {
        room: usize,
        mono: usize,
    },
    /// `text MONO BI T1X T2X T3X GEN POST`, or with `-B N` as for `run`: a plain text is
    /// translated.
    Text {
        room: usize,
        mono: usize,
    },
    /// `work N`: so many made sentences, from 1 to `WORK_MAX`, are translated by built-in files, and
    /// the translation is counted.
    Work {
        sentences: u64,
    },
}

/// A file's name is not empty and does not begin with `-`.
fn is_file_name(word: &str) -> bool
    ensures { result ≡ is_file_name_lem word.now }
{
    match word.as_bytes().first() {
        None => false,
        Some(b) => *b != b'-',
    }
}

/// The words behind a command of one file, which is the word at place 1, and stores nothing.
fn read_by_file(command: Command, words: &[String]) -> Result<Command, UsageFault>
    requires named { AreWithin 2 (files_of command) }
    requires stored { out_of command ≡ None }
    requires room { HasRoom command }
    ensures command { result ≡ by_file command (texts words.now) }
    ensures named { IfOk result (λ c. AreWithin (length words.now + 1) (files_of c)) }
    ensures stored { IfOk result (λ c. IfSome (out_of c) (λ out. out < length words.now + 1)) }
    ensures room { IfOk result (λ c. HasRoom c) }
{
    if words.len() == 1 && is_file_name(words[0].as_str()) {
        return Ok(command);
    }
    Err(UsageFault)
}

/// The words behind `transfer`.
fn read_transfer(words: &[String]) -> Result<Command, UsageFault>
    ensures command { result ≡ transfer_of (texts words.now) }
    ensures named { IfOk result (λ c. AreWithin (length words.now + 1) (files_of c)) }
    ensures stored { IfOk result (λ c. IfSome (out_of c) (λ out. out < length words.now + 1)) }
    ensures room { IfOk result (λ c. HasRoom c) }
{
    if words.len() == 2 && is_file_name(words[1].as_str()) {
        if words[0].as_str() == "-b" {
            return Ok(Command::TransferAlone { t1x: 2 });
        }
        if is_file_name(words[0].as_str()) {
            return Ok(Command::Transfer { t1x: 1, bidix: 2 });
        }
    }
    Err(UsageFault)
}

/// The words behind `lt-comp`.
fn read_comp(words: &[String]) -> Result<Command, UsageFault>
    ensures command { result ≡ comp_of (texts words.now) }
    ensures named { IfOk result (λ c. AreWithin (length words.now + 1) (files_of c)) }
    ensures stored { IfOk result (λ c. IfSome (out_of c) (λ out. out < length words.now + 1)) }
    ensures room { IfOk result (λ c. HasRoom c) }
{
    if words.len() == 3 && is_file_name(words[1].as_str()) && is_file_name(words[2].as_str()) {
        if words[0].as_str() == "lr" {
            return Ok(Command::Comp {
                way: Direction::Lr,
                dix: 2,
                out: 3,
            });
        }
        if words[0].as_str() == "rl" {
            return Ok(Command::Comp {
                way: Direction::Rl,
                dix: 2,
                out: 3,
            });
        }
    }
    Err(UsageFault)
}

/// The words behind `trim`.
fn read_trim(words: &[String]) -> Result<Command, UsageFault>
    ensures command { result ≡ trim_of (texts words.now) }
    ensures named { IfOk result (λ c. AreWithin (length words.now + 1) (files_of c)) }
    ensures stored { IfOk result (λ c. IfSome (out_of c) (λ out. out < length words.now + 1)) }
    ensures room { IfOk result (λ c. HasRoom c) }
{
    if words.len() == 3
        && is_file_name(words[0].as_str())
        && is_file_name(words[1].as_str())
        && is_file_name(words[2].as_str())
    {
        return Ok(Command::Trim {
            mono: 1,
            bi: 2,
            out: 3,
        });
    }
    Err(UsageFault)
}

/// The mode that an option of `lt-proc` names; None where it names none.
fn mode_of(option: &str) -> Option<Mode>
    ensures { result ≡ mode_of_lem option.now }
{
    match option {
        "-a" => Some(Mode::A),
        "-b" => Some(Mode::B),
        "-g" => Some(Mode::G),
        "-n" => Some(Mode::N),
        "-d" => Some(Mode::D),
        "-p" => Some(Mode::P),
        _ => None,
    }
}

/// What options of `lt-proc` choose.
#[derive(Clone, Copy, Debug, PartialEq, Eq)]
pub(crate) struct Chosen {
    pub(crate) mode: Mode,
    pub(crate) sensitive: bool,
}

/// Each option is a listed one, at most one names a mode, and at most one is `-c`.
fn read_options(options: &[String]) -> Result<Chosen, UsageFault>
    ensures { result ≡ options_of (texts options.now) }
{
    let mut mode = None;
    let mut sensitive = false;
    for option in options {
        if option.as_str() == "-c" {
            if sensitive {
                return Err(UsageFault);
            }
            sensitive = true;
        } else {
            match mode_of(option.as_str()) {
                None => return Err(UsageFault),
                Some(named) => {
                    if mode.is_some() {
                        return Err(UsageFault);
                    }
                    mode = Some(named);
                }
            }
        }
    }
    Ok(Chosen {
        mode: mode.unwrap_or(Mode::A),
        sensitive,
    })
}

/// The words behind `lt-proc`: options, and then the file.
fn read_proc(words: &[String]) -> Result<Command, UsageFault>
    ensures command { result ≡ proc_of (texts words.now) }
    ensures named { IfOk result (λ c. AreWithin (length words.now + 1) (files_of c)) }
    ensures stored { IfOk result (λ c. IfSome (out_of c) (λ out. out < length words.now + 1)) }
    ensures room { IfOk result (λ c. HasRoom c) }
{
    if words.is_empty() {
        return Err(UsageFault);
    }
    let last = words.len() - 1;
    match read_options(&words[..last]) {
        Err(fault) => Err(fault),
        Ok(chosen) => {
            if is_file_name(words[last].as_str()) {
                Ok(Command::Proc {
                    mode: chosen.mode,
                    sensitive: chosen.sensitive,
                    file: words.len(),
                })
            } else {
                Err(UsageFault)
            }
        }
    }
}

/// A command whose word stands alone.
fn read_alone(command: Command, words: &[String]) -> Result<Command, UsageFault>
    ensures { result ≡ alone command (texts words.now) }
{
    if words.is_empty() {
        return Ok(command);
    }
    Err(UsageFault)
}

/// The words behind `compound`.
fn read_compound(words: &[String]) -> Result<Command, UsageFault>
    ensures command { result ≡ compound_of (texts words.now) }
    ensures named { IfOk result (λ c. AreWithin (length words.now + 1) (files_of c)) }
    ensures stored { IfOk result (λ c. IfSome (out_of c) (λ out. out < length words.now + 1)) }
    ensures room { IfOk result (λ c. HasRoom c) }
{
    if words.len() == 1 && is_file_name(words[0].as_str()) {
        return Ok(Command::Compound {
            sensitive: false,
            file: 1,
        });
    }
    if words.len() == 2 && is_file_name(words[1].as_str()) && words[0].as_str() == "-c" {
        return Ok(Command::Compound {
            sensitive: true,
            file: 2,
        });
    }
    Err(UsageFault)
}

/// The words behind `work`.
fn read_work(words: &[String]) -> Result<Command, UsageFault>
    ensures command { result ≡ work_of (texts words.now) }
    ensures named { IfOk result (λ c. AreWithin (length words.now + 1) (files_of c)) }
    ensures stored { IfOk result (λ c. out_of c ≡ None) }
    ensures room { IfOk result (λ c. HasRoom c) }
{
    if words.len() != 1 {
        return Err(UsageFault);
    }
    match number_to(words[0].as_str(), WORK_MAX as usize) {
        None => Err(UsageFault),
        Some(sentences) => Ok(Command::Work {
            sentences: sentences as u64,
        }),
    }
}

/// The words of `destxt`, `retxt`, `compound`, `text` and `work`.
fn read_format(tool: &str, words: &[String]) -> Result<Command, UsageFault>
    ensures command { result ≡ format_of tool.now (texts words.now) }
    ensures named { IfOk result (λ c. AreWithin (length words.now + 1) (files_of c)) }
    ensures stored { IfOk result (λ c. IfSome (out_of c) (λ out. out < length words.now + 1)) }
    ensures room { IfOk result (λ c. HasRoom c) }
{
    match tool {
        "destxt" => read_alone(Command::Destxt, words),
        "retxt" => read_alone(Command::Retxt, words),
        "compound" => read_compound(words),
        "text" => read_text(words),
        "work" => read_work(words),
        _ => Err(UsageFault),
    }
}

/// The words of a step between analysis and generation.
fn read_step(tool: &str, words: &[String]) -> Result<Command, UsageFault>
    ensures command { result ≡ step_of tool.now (texts words.now) }
    ensures named { IfOk result (λ c. AreWithin (length words.now + 1) (files_of c)) }
    ensures stored { IfOk result (λ c. IfSome (out_of c) (λ out. out < length words.now + 1)) }
    ensures room { IfOk result (λ c. HasRoom c) }
{
    match tool {
        "first" => read_alone(Command::First, words),
        "pretransfer" => read_alone(Command::Pretransfer, words),
        "choose" => read_by_file(Command::Choose { pairs: 1 }, words),
        "transfer" => read_transfer(words),
        "interchunk" => read_by_file(Command::Interchunk { t2x: 1 }, words),
        "postchunk" => read_by_file(Command::Postchunk { t3x: 1 }, words),
        _ => read_format(tool, words),
    }
}

/// A number begins with no zero and no sign.
fn begins_bare(word: &str) -> bool
    ensures { result ≡ (not (slice_index word.now 0 == 48) && not (slice_index word.now 0 == 43)) }
{
    match word.as_bytes().first() {
        None => true,
        Some(b) => *b != b'0' && *b != b'+',
    }
}

/// The number, where it is from 1 to `most`.
fn in_range(number: usize, most: usize) -> Option<usize>
    ensures { result ≡ in_range_lem most number }
{
    if 0 < number && number <= most {
        return Some(number);
    }
    None
}

/// A number from 1 to `most`, in decimal digits without a sign or a leading zero; None for every
/// other word.
fn number_to(word: &str, most: usize) -> Option<usize>
    ensures { result ≡ number_to most word.now }
{
    if !begins_bare(word) {
        return None;
    }
    match word.parse::<usize>() {
        Err(_) => None,
        Ok(number) => in_range(number, most),
    }
}

fn are_file_names(words: &[String]) -> bool
    ensures { result ≡ list_all is_file_name_lem (texts words.now) }
{
    for word in words {
        if !is_file_name(word.as_str()) {
            return false;
        }
    }
    true
}

/// The files of `run`, of which the first is at the place `mono`.
fn read_files(room: usize, mono: usize, files: &[String]) -> Result<Command, UsageFault>
    requires some { 1 ≤ room }
    requires most { room ≤ ROOM_MAX }
    ensures command { result ≡ run_from room mono (texts files.now) }
    ensures named { IfOk result (λ c. AreWithin (length files.now + mono) (files_of c)) }
    ensures stored { IfOk result (λ c. out_of c ≡ None) }
    ensures room { IfOk result (λ c. HasRoom c) }
{
    if files.len() == 7 && are_file_names(files) {
        return Ok(Command::Run { room, mono });
    }
    Err(UsageFault)
}

/// The words behind `run`.
fn read_run(words: &[String]) -> Result<Command, UsageFault>
    ensures command { result ≡ run_of (texts words.now) }
    ensures named { IfOk result (λ c. AreWithin (length words.now + 1) (files_of c)) }
    ensures stored { IfOk result (λ c. out_of c ≡ None) }
    ensures room { IfOk result (λ c. HasRoom c) }
{
    match words {
        [] => Err(UsageFault),
        [_] => Err(UsageFault),
        [option, number, files @ ..] => {
            if option.as_str() == "-B" {
                return match number_to(number.as_str(), ROOM_MAX) {
                    None => Err(UsageFault),
                    Some(room) => read_files(room, 3, files),
                };
            }
            read_files(ROOM, 1, words)
        }
    }
}

/// The words behind `text`, which are those behind `run`.
fn read_text(words: &[String]) -> Result<Command, UsageFault>
    ensures command { result ≡ text_of (texts words.now) }
    ensures named { IfOk result (λ c. AreWithin (length words.now + 1) (files_of c)) }
    ensures stored { IfOk result (λ c. out_of c ≡ None) }
    ensures room { IfOk result (λ c. HasRoom c) }
{
    match read_run(words) {
        Ok(Command::Run { room, mono }) => Ok(Command::Text { room, mono }),
        _ => Err(UsageFault),
    }
}

/// The command that the words are, the program's own name left out; UsageFault exactly where they
/// are none. It takes no memory.
pub fn read_words(words: &[String]) -> Result<Command, UsageFault>
    ensures command { result ≡ command_of (texts words.now) }
    ensures some { IfOk result (λ _. 0 < length words.now) }
    ensures named { IfOk result (λ c. AreWithin (length words.now) (files_of c)) }
    ensures stored { IfOk result (λ c. IfSome (out_of c) (λ out. out < length words.now)) }
    ensures room { IfOk result (λ c. HasRoom c) }
{
    match words {
        [] => Err(UsageFault),
        [tool, rest @ ..] => {
            if tool.as_str() == "lt-expand" {
                return read_by_file(Command::Expand { dix: 1 }, rest);
            }
            if tool.as_str() == "lt-comp" {
                return read_comp(rest);
            }
            if tool.as_str() == "trim" {
                return read_trim(rest);
            }
            if tool.as_str() == "lt-proc" {
                return read_proc(rest);
            }
            if tool.as_str() == "run" {
                return read_run(rest);
            }
            read_step(tool.as_str(), rest)
        }
    }
}
