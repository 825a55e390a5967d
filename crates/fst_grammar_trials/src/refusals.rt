//! The texts of refusals.

use fst_print::{Phrase, Refusal, refusal_text};
use fst_tables::each_line;
use fst_types::{Kind, Prekind, Use};
use std::alloc::Global;
use std::test::Fail;

fn phrase_of(name: &str) -> Phrase {
    let (once, many) = (Use::Once, Use::Many);
    let kind = |prekind: Prekind, uses: Use| Kind { prekind, uses };
    match name.as_bytes() {
        b"kind" => Phrase::WrongKind(kind(Prekind::Top, once), kind(Prekind::Session, many)),
        b"first" => Phrase::UnboundType(0),
        b"last" => Phrase::UnboundType(u64::MAX),
        b"arity" => Phrase::Arity(0, u64::MAX),
        b"main" => Phrase::NoMain,
        _ => Phrase::Syntax,
    }
}

fn refusal_row(alloc: Global, given: &str) -> Result<String, Fail> {
    let refusal = Refusal {
        line: u32::MAX,
        column: 1,
        phrase: phrase_of(given),
    };
    Ok(refusal_text(alloc, &refusal)?)
}

#[test]
fn refusals_have_texts(rt: HostRuntime) -> Result<(), Fail> {
    let table = "\
kind = refused 4294967295:1 kind 1T wanted *S
first = refused 4294967295:1 unbound type a1
last = refused 4294967295:1 unbound type a18446744073709551616
arity = refused 4294967295:1 arity 0 wanted 18446744073709551615
main = refused 4294967295:1 no main
syntax = refused 4294967295:1 syntax";
    each_line(rt.alloc(), table, refusal_row)
}
