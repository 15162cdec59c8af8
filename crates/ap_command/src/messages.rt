ghost use Rattle.std.specs.Prelude.{◌≡◌, OnOk, OnErr, map, length, ◌<◌, codes, []};
ghost use Rattle.ap_outside.specs.Told.{Puts, PutsFront};
ghost use Rattle.ap_outside.specs.Causes.{HasCause};
ghost use Rattle.ap_command.specs.Messages.{message_of, IsTold, IsLimitTold, name_at, joined, Says, file_text, fault_text, stage_text, limit_text, dictionary_fault_name_lem, rule_fault_name_lem, compiled_fault_name_lem, malformed_name_lem, limit_name_lem};
ghost use Rattle.ap_pipe.specs.Standing.{standing};
ghost use Rattle.ap_command.specs.Words.{texts};

use crate::status::Status;
use ap_outside::{Failed, Sink};
use itoa::Buffer;

/// The name of a fault of a dictionary.
fn dictionary_fault_name(fault: u8) -> &'static str
    ensures { result.now ≡ dictionary_fault_name_lem fault }
{
    match fault {
        1 => "NotUtf8",
        2 => "Syntax",
        3 => "UnknownElement",
        4 => "UnknownAttribute",
        5 => "MissingAttribute",
        6 => "Misplaced",
        7 => "DuplicateName",
        8 => "UndeclaredSymbol",
        9 => "UndefinedParadigm",
        10 => "BadRegex",
        11 => "Weighted",
        12 => "Unsupported",
        _ => "EmptySide",
    }
}

/// The name of a fault of a rule file.
fn rule_fault_name(fault: u8) -> &'static str
    ensures { result.now ≡ rule_fault_name_lem fault }
{
    match fault {
        1 => "NotUtf8",
        2 => "Syntax",
        3 => "UnknownElement",
        4 => "UnknownAttribute",
        5 => "MissingAttribute",
        6 => "Misplaced",
        7 => "DuplicateName",
        8 => "UndefinedName",
        9 => "BadPosition",
        10 => "BadTags",
        11 => "PatternLength",
        12 => "Misused",
        13 => "Unsupported",
        _ => "BadPair",
    }
}

/// The name of a fault of a compiled file.
fn compiled_fault_name(fault: u8) -> &'static str
    ensures { result.now ≡ compiled_fault_name_lem fault }
{
    match fault {
        1 => "BadHeader",
        2 => "BadLine",
        3 => "OutOfRange",
        4 => "EmptyCycle",
        5 => "EmptySide",
        _ => "WrongWay",
    }
}

/// The name of a kind of malformed item.
fn malformed_name(kind: u8) -> &'static str
    ensures { result.now ≡ malformed_name_lem kind }
{
    match kind {
        1 => "NotUtf8",
        2 => "Stray",
        3 => "Unfinished",
        4 => "BadTag",
        _ => "EmptyWord",
    }
}

/// The name of a limit.
fn limit_name(kind: u8) -> &'static str
    ensures { result.now ≡ limit_name_lem kind }
{
    match kind {
        1 => "ItemTooLong",
        2 => "SpanTooLong",
        3 => "UnitTooLong",
        4 => "ValueTooLong",
        5 => "OutputTooLong",
        6 => "FileTooLong",
        _ => "InputTooLong",
    }
}

/// Puts the pieces one after another.
fn put_all<K: Sink>(sink: &mut K, pieces: &[&[u8]]) -> Result<(), Failed>
    ensures ok { OnOk result
        (Puts (K.written sink.old) (K.written sink.new) (joined (map (λ p. p.now) pieces.now))) }
    ensures failed { OnErr result
        (PutsFront (K.written sink.old) (K.written sink.new)
        (joined (map (λ p. p.now) pieces.now))) }
    ensures cause { HasCause (K.faults sink.old) (K.faults sink.new) result }
{
    for piece in pieces {
        if sink.put(piece).is_err() {
            return Err(Failed);
        }
    }
    Ok(())
}

fn say_nothing<E: Sink>(err: &mut E) -> Result<(), Failed>
    ensures { Says (standing (E.written err.old) (E.faults err.old))
        (standing (E.written err.new) (E.faults err.new)) result (joined []) }
{
    put_all(err, &[])
}

fn say<E: Sink>(err: &mut E, text: &str) -> Result<(), Failed>
    ensures { Says (standing (E.written err.old) (E.faults err.old))
        (standing (E.written err.new) (E.faults err.new)) result text.now }
{
    err.put(text.as_bytes())
}

fn say_file<E: Sink>(err: &mut E, name: &str, what: &str) -> Result<(), Failed>
    ensures { Says (standing (E.written err.old) (E.faults err.old))
        (standing (E.written err.new) (E.faults err.new)) result (file_text name.now what.now) }
{
    put_all(
        err,
        &["apertium: ".as_bytes(), name.as_bytes(), what.as_bytes()],
    )
}

fn say_fault<'a, E: Sink>(
    err: &mut E,
    name: &'a str,
    line: u64,
    what: &'a str,
    fault: u8,
    fault_name: &'a str,
) -> Result<(), Failed>
    ensures { Says (standing (E.written err.old) (E.faults err.old))
        (standing (E.written err.new) (E.faults err.new)) result
        (fault_text name.now line what.now fault fault_name.now) }
{
    put_all(
        err,
        &[
            "apertium: ".as_bytes(),
            name.as_bytes(),
            ": line ".as_bytes(),
            Buffer::new().format(line).as_bytes(),
            what.as_bytes(),
            Buffer::new().format(fault).as_bytes(),
            " ".as_bytes(),
            fault_name.as_bytes(),
            "\n".as_bytes(),
        ],
    )
}

fn say_stage<E: Sink>(
    err: &mut E,
    stage: u8,
    place: u64,
    what: &str,
    kind: u8,
    name: &str,
) -> Result<(), Failed>
    ensures { Says (standing (E.written err.old) (E.faults err.old))
        (standing (E.written err.new) (E.faults err.new)) result
        (stage_text stage place what.now kind name.now) }
{
    put_all(
        err,
        &[
            "apertium: stage ".as_bytes(),
            Buffer::new().format(stage).as_bytes(),
            ": byte ".as_bytes(),
            Buffer::new().format(place).as_bytes(),
            what.as_bytes(),
            Buffer::new().format(kind).as_bytes(),
            " ".as_bytes(),
            name.as_bytes(),
            "\n".as_bytes(),
        ],
    )
}

fn say_malformed<E: Sink>(err: &mut E, stage: u8, kind: u8, place: u64) -> Result<(), Failed>
    ensures { Says (standing (E.written err.old) (E.faults err.old))
        (standing (E.written err.new) (E.faults err.new)) result
        (stage_text stage place (codes ": malformed ") kind (malformed_name_lem kind)) }
{
    say_stage(
        err,
        stage,
        place,
        ": malformed ",
        kind,
        malformed_name(kind),
    )
}

fn say_limit<E: Sink>(
    err: &mut E,
    words: &[String],
    stage: u8,
    kind: u8,
    place: u64,
) -> Result<(), Failed>
    requires { IsLimitTold stage kind place (length words.now) }
    ensures { Says (standing (E.written err.old) (E.faults err.old))
        (standing (E.written err.new) (E.faults err.new)) result
        (limit_text (texts words.now) stage kind place) }
{
    if stage != 0 {
        return say_stage(err, stage, place, ": limit ", kind, limit_name(kind));
    }
    if kind == 6 {
        return say_file(err, name(words, place as usize), ": limit 6 FileTooLong\n");
    }
    say(err, "apertium: limit 7 InputTooLong\n")
}

/// The word of a file.
pub(crate) fn name(words: &[String], file: usize) -> &str
    requires { file < length words.now }
    ensures { result.now ≡ name_at (texts words.now) file }
{
    words[file].as_str()
}

/// Writes the message of a status, a line with its line feed; nothing for Done. It takes no
/// memory. The status names files among the words and faults, kinds and limits by their numbers.
/// `Failed` comes only where the sink's count of faults rose, and then a front of the message was
/// written.
#[tactic(auto, unfolding(crate::specs::Messages::message_of))]
pub fn message<E: Sink>(status: &Status, words: &[String], err: &mut E) -> Result<(), Failed>
    requires { IsTold status.now (length words.now) }
    ensures { Says (standing (E.written err.old) (E.faults err.old))
        (standing (E.written err.new) (E.faults err.new)) result
        (message_of status.now (texts words.now)) }
{
    match *status {
        Status::Done => say_nothing(err),
        Status::Usage => say(err, "apertium: usage\n"),
        Status::FileFault { file } => say_file(err, name(words, file), ": file fault\n"),
        Status::ReadFault => say(err, "apertium: read fault\n"),
        Status::WriteFault => say(err, "apertium: write fault\n"),
        Status::BadDictionary { file, fault, line } => say_fault(
            err,
            name(words, file),
            line,
            ": dictionary fault ",
            fault,
            dictionary_fault_name(fault),
        ),
        Status::BadRules { file, fault, line } => say_fault(
            err,
            name(words, file),
            line,
            ": rule fault ",
            fault,
            rule_fault_name(fault),
        ),
        Status::BadCompiled { file, fault, line } => say_fault(
            err,
            name(words, file),
            line,
            ": compiled fault ",
            fault,
            compiled_fault_name(fault),
        ),
        Status::Malformed { stage, kind, place } => say_malformed(err, stage, kind, place),
        Status::Limit { stage, kind, place } => say_limit(err, words, stage, kind, place),
        Status::Memory => say(err, "apertium: out of memory\n"),
    }
}
