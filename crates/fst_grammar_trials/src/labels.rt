//! Labels, and words of them as texts.

use fst_print::word_text;
use fst_tables::{each_line, each_pair, no_row, word};
use fst_types::Name;
use std::alloc::Global;
use std::test::Fail;

// Labels in their order: by form, by payload or number, and by bytes. How many come before each, how many are the same, and
// whether it selects or offers `Bo`.
const LABELS: &str = "\
!Int = 0 1 false false
!Bool = 1 1 false false
!Char = 2 1 false false
!() = 3 1 false false
?Int = 4 1 false false
?Bool = 5 1 false false
?Char = 6 1 false false
?() = 7 1 false false
+B = 8 1 false false
+Bo = 9 1 true false
+a = 10 1 false false
+é = 11 1 false false
&A = 12 1 false false
&Bo = 13 1 false true
&Boa = 14 1 false false
&b = 15 1 false false
a4 = 16 1 false false";

fn place(alloc: Global, given: &str) -> Result<String, Fail> {
    let labels = word(alloc, given)?;
    let [label] = labels.as_slice() else {
        return Err(no_row());
    };
    let (mut before, mut alike) = (0u32, 0u32);
    for line in LABELS.lines() {
        let (text, _) = line.split_once(" = ").ok_or("no label")?;
        for other in &word(alloc, text)? {
            before = before.saturating_add(u32::from(other.order(label).is_lt()));
            alike = alike.saturating_add(u32::from(other.same(&label.copy(alloc)?)));
        }
    }
    let name = Name::of(alloc, "Bo".as_bytes())?;
    let (selects, offers) = (label.is_select(&name), label.is_offer(&name));
    Ok(format!(in alloc; "{before} {alike} {selects} {offers}")?)
}

#[test]
fn labels_stand_in_one_order(rt: HostRuntime) -> Result<(), Fail> {
    each_line(rt.alloc(), LABELS, place)
}

fn again(alloc: Global, given: &str) -> Result<String, Fail> {
    Ok(word_text(alloc, &word(alloc, given)?)?)
}

#[test]
fn words_have_one_space_between_their_labels(rt: HostRuntime) -> Result<(), Fail> {
    let table = [
        ("", ""),
        ("!Int", "!Int"),
        (" ?Bool  +A &größer a4", "?Bool +A &größer a4"),
    ];
    each_pair(rt.alloc(), &table, again)
}
