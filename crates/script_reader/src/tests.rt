use crate::{ScriptEnd, read_script};
use std::alloc::Global;
use std::process::Abort;
use std::test::Fail;

/// Reads a script of which this line is the first bad one.
fn is_bad(rt: &impl Abort, alloc: Global, script: &[u8], line: u64) {
    match read_script(alloc, script) {
        Ok(_) => assert!(rt; false, "read {script:?}"),
        Err(end) => assert_eq!(rt; end, ScriptEnd::BadLine { line }, "at {script:?}"),
    }
}

/// Reads a script of so many edits, of which the first binds so many names.
fn is_read(rt: &impl Abort, alloc: Global, script: &[u8], edits: usize, names: usize) {
    match read_script(alloc, script) {
        Ok(lines) => {
            let bound = match lines.first() {
                Some(line) => line.names().len(),
                None => 0,
            };
            assert_eq!(rt; lines.len(), edits, "at {script:?}");
            assert_eq!(rt; bound, names, "at {script:?}");
        }
        Err(end) => assert!(rt; false, "{end:?} at {script:?}"),
    }
}

#[test]
fn bad_lines_are_named(rt: HostRuntime) -> Result<(), Fail> {
    let rows = [
        ("addisonode - 0 0\naddisonode - 1099511627777 0\n", 2),
        ("# a comment\n\naddisonode - +1 0\n", 3),
        ("addisonode - 0 0\n \t\r\n\raddisonode - 0 0\n", 3),
        ("addisonode - 0 0\r", 1),
        ("a = b = addisonode - 0 0\n", 1),
    ];
    for (script, line) in rows {
        is_bad(&rt, rt.alloc(), script.as_bytes(), line);
    }
    Ok(())
}

#[test]
fn scripts_are_read(rt: HostRuntime) -> Result<(), Fail> {
    let rows = [
        ("", 0, 0),
        ("\n \t\n\r\n", 0, 0),
        ("# the corners\n  #addisonode\n", 0, 0),
        ("addisonode - 0 0", 1, 0),
        (
            "addisonode - 0 -1\r\naddisonode 0 1099511627776 1\r\n",
            2,
            0,
        ),
        (
            "\tnorth,n_2 =\taddisonode  $yard 1 2 \n#\n addisonode 4294967295 3 4",
            2,
            2,
        ),
        (
            "a2345678901234567890123456789012345678901234567890123456789_123 = addisonode - 0 0",
            1,
            1,
        ),
    ];
    for (script, edits, names) in rows {
        is_read(&rt, rt.alloc(), script.as_bytes(), edits, names);
    }
    Ok(())
}
