//! Tables of cases: each line or pair has what is given and what is wanted.

use std::alloc::{AllocError, Global};
use std::test::Fail;

/// Asks for the answer that each line of a table has behind ` = `.
pub fn each_line<F: Fn(Global, &str) -> Result<String, Fail>>(
    alloc: Global,
    table: &str,
    answer: F,
) -> Result<(), Fail>
    requires { F.IsAlwaysCallable answer }
{
    for line in table.lines() {
        let (given, wanted) = line.rsplit_once(" = ").ok_or("a line without answer")?;
        let found = answer(alloc, given)?;
        let found = found.as_str().trim();
        if found != wanted {
            return Err(Fail::new(format_args!("{found} in place of {wanted}, of {given}")));
        }
    }
    Ok(())
}

/// Asks for the second text of each pair as the answer to the first.
pub fn each_pair<F: Fn(Global, &str) -> Result<String, Fail>>(
    alloc: Global,
    table: &[(&str, &str)],
    answer: F,
) -> Result<(), Fail>
    requires { F.IsAlwaysCallable answer }
{
    for (given, wanted) in table {
        let found = answer(alloc, given)?;
        if found.as_str() != *wanted {
            return Err(Fail::new(format_args!("{found} in place of {wanted}, of {given}")));
        }
    }
    Ok(())
}

/// What is given in a line: the fields with ` ¦ ` between them.
pub fn fields(alloc: Global, given: &str) -> Result<Vec<&str>, AllocError> {
    given.split('¦').map(|field| field.trim()).collect(alloc)
}

/// What is said of a line that has other fields than its table.
pub fn no_row() -> Fail {
    Fail::new("other fields than the table has")
}
