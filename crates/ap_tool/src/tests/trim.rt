use crate::tests::rows::{NONE, Row, bad_compiled, case, check_kept, done, file_fault, files_of};
use std::test::Fail;

/// What is counted of MONO and of the full stop alone.
const MONO: &str = "standard 19 23\ninconditional 3 2\npostblank 1 0\npreblank 1 0\n";

const POINT: &str = "standard 1 0\ninconditional 3 2\npostblank 1 0\npreblank 1 0\n";

/// Each row goes on with the files of the one before it.
const ROWS: &[Row] = &[
    done!("trim M BI OUT", "not taken", POINT),
    done!("lt-proc -a OUT", "house.", "^house/*house$^./.<sent>$"),
    done!("trim MONO BI OUT", "", MONO),
    done!("lt-comp lr MONO OUT2", "", MONO),
    case!(
        "trim NOPE BI OUT3",
        "",
        NONE,
        file_fault!(1),
        "",
        "apertium: NOPE: file fault\n",
    ),
    done!(
        "lt-comp rl BI OUT3",
        "",
        "standard 22 26\ninconditional 1 0\npostblank 1 0\npreblank 1 0\n",
    ),
    case!(
        "trim OUT3 BI OUT4",
        "",
        NONE,
        bad_compiled!(1, 6, 2),
        "",
        "apertium: OUT3: line 2: compiled fault 6 WrongWay\n",
    ),
    done!("trim M OUT3 OUT4", "", POINT),
];

#[test]
fn trim_leaves_what_can_be_translated(rt: HostRuntime) -> Result<(), Fail> {
    let alloc = rt.alloc();
    let mut files = files_of(alloc, 0)?;
    check_kept(&rt, alloc, &mut files, ROWS)?;
    assert!(rt; files.get("OUT").is_some());
    assert!(rt; files.get("OUT") == files.get("OUT2"));
    Ok(())
}
