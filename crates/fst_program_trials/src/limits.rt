//! Inputs at the limits, and over them.

use crate::program::answer;
use fst_tables::{each_line, fields, no_row};
use std::alloc::{AllocError, Global};
use std::test::Fail;
use std::thread::Threads;

// What stands in front; what is repeated, and how often; what is between; what is repeated behind it as often; the rest of
// the question. What is written.
const NESTED: &str = "\
¦ ( ¦ 199 ¦ Skip ¦ ) ¦ ~ Skip = yes
¦ ( ¦ 200 ¦ Skip ¦ ) ¦ ~ Skip = limit 1:201 depth
¦ ( ¦ 50000 ¦ Skip ¦ ) ¦ ~ Skip = limit 1:201 depth
¦ ( ¦ 50000 ¦ ¦ ¦ = limit 1:201 depth
¦ +{A: ¦ 199 ¦ Skip ¦ } ¦ ~ Skip = no +A left
¦ +{A: ¦ 200 ¦ Skip ¦ } ¦ ~ Skip = limit 1:801 depth
¦ &{A: ¦ 200 ¦ Skip ¦ } ¦ ~ Skip = limit 1:801 depth
¦ Skip; ¦ 199 ¦ Skip ¦ ¦ ~ Skip = yes
¦ Skip; ¦ 200 ¦ Skip ¦ ¦ ~ Skip = limit 1:1001 depth
¦ &{A:!Int}; ¦ 200 ¦ Skip ¦ ¦ ~ Skip = limit 1:1995 depth
¦ rec x. ¦ 199 ¦ Skip ¦ ¦ ~ Skip = yes
¦ rec x. ¦ 200 ¦ Skip ¦ ¦ ~ Skip = limit 1:1201 depth
Skip ~ ( ¦ Skip; ¦ 198 ¦ Skip ¦ ¦ ) = yes
Skip ~ ( ¦ Skip; ¦ 199 ¦ Skip ¦ ¦ ) = limit 1:1004 depth
( ¦ Int-> ¦ 198 ¦ Int) ¦ ¦ ~ Skip = refused 1:2 kind *T wanted 1S
( ¦ Int-> ¦ 199 ¦ Int) ¦ ¦ ~ Skip = limit 1:997 depth
¦ (Skip, ¦ 200 ¦ Skip ¦ ¦ ~ = limit 1:1196 depth
¦ ( ¦ 200 ¦ ) ¦ ¦ = refused 1:202 syntax
Skip)~ ¦ ( ¦ 200 ¦ Skip ¦ ¦ = refused 1:5 syntax
!Int~ ¦ ( ¦ 200 ¦ ~ Skip ¦ ¦ = refused 1:206 syntax
!Int~ ¦ ( ¦ 200 ¦ rec ~ } ¦ ¦ = limit 1:206 depth
x~ ¦ ( ¦ 200 ¦ Skip ¦ ¦ = limit 1:203 depth
¦ ( ¦ 200 ¦ Skip # ¦ ¦ = refused 1:206 bad character
+{ ¦ A:x, ¦ 262142 ¦ A:x} ¦ ¦ ~x = limit 1:1 type size
forall x:*S, ¦ a:*S, ¦ 170000 ¦ b:1T. x ¦ ¦ ~ y = refused 1:18 twice a
+{ ¦ A ¦ 255 ¦ :Skip} ¦ ¦ ~ ?Int;+{B:Skip} = no ?Int right
+{ ¦ A ¦ 256 ¦ :Skip} ¦ ¦ ~ ?Int;+{B:Skip} = refused 1:3 name too long
+{A ¦ é ¦ 127 ¦ :Skip} ¦ ¦ ~ ?Int;+{B:Skip} = no ?Int right
+{AB ¦ é ¦ 127 ¦ :Skip} ¦ ¦ ~ ?Int;+{B:Skip} = refused 1:3 name too long";

fn nested_row<R: Threads + Sync>(rt: &R, alloc: Global, given: &str) -> Result<String, Fail> {
    let fields = fields(alloc, given)?;
    let [front, open, times, inner, close, back] = fields.as_slice() else {
        return Err(no_row());
    };
    let times = times.parse::<usize>()?;
    let open = open.repeat(alloc, times)?;
    let close = close.repeat(alloc, times)?;
    let question = format!(in alloc; "{front}{open}{inner}{close}{back}")?;
    answer(rt, alloc, "equiv", question.as_str().as_bytes())
}

#[test]
fn nesting_and_names_are_limited(rt: HostRuntime) -> Result<(), Fail> {
    each_line(
        rt.alloc(),
        NESTED,
        |alloc, given| nested_row(&rt, alloc, given),
    )
}

fn spaced_row<R: Threads + Sync>(rt: &R, alloc: Global, given: &str) -> Result<String, Fail> {
    let spaces = " ".repeat(alloc, given.parse::<usize>()?)?;
    let question = format!(in alloc; "!Int ~ !Int{spaces}")?;
    answer(rt, alloc, "equiv", question.as_str().as_bytes())
}

#[test]
fn lengths_are_limited(rt: HostRuntime) -> Result<(), Fail> {
    let table = "\
1048565 = yes
1048566 = limit length";
    each_line(
        rt.alloc(),
        table,
        |alloc, given| spaced_row(&rt, alloc, given),
    )
}

/// `Skip` so many times and once more, with `;` between, behind 31 groups of 127 nodes each and their `;`s: with 63 times
/// these are 4,095 nodes.
fn groups_row<R: Threads + Sync>(rt: &R, alloc: Global, given: &str) -> Result<String, Fail> {
    let fields = fields(alloc, given)?;
    let [front, times, back] = fields.as_slice() else {
        return Err(no_row());
    };
    let whole = format!(in alloc; "(Skip{});", ";Skip".repeat(alloc, 63)?)?;
    let groups = whole.as_str().repeat(alloc, 31)?;
    let last = ";Skip".repeat(alloc, times.parse::<usize>()?)?;
    let question = format!(in alloc; "{front}{groups}(Skip{last}){back}")?;
    answer(rt, alloc, "equiv", question.as_str().as_bytes())
}

#[test]
fn sizes_are_limited(rt: HostRuntime) -> Result<(), Fail> {
    let table = "\
¦ 63 ¦ ~ Skip = yes
¦ 64 ¦ ~ Skip = limit 1:1 type size
rec x. ¦ 63 ¦ ~ Skip = yes
rec x.rec y. ¦ 63 ¦ ~ x = limit 1:1 type size
Int ~ ( ¦ 64 ¦ ) = limit 1:8 type size";
    each_line(
        rt.alloc(),
        table,
        |alloc, given| groups_row(&rt, alloc, given),
    )
}

/// So many branches with a comma between them, each with this body.
fn branches(alloc: Global, count: u32, body: &str) -> Result<String, AllocError> {
    let mut text = String::new(alloc);
    for i in 0..count {
        let comma = if i == 0 { "" } else { "," };
        let branch = format!(in alloc; "{comma}L_{i}:{body}")?;
        text.push_str(&branch)?;
    }
    Ok(text)
}

fn choice_row<R: Threads + Sync>(rt: &R, alloc: Global, given: &str) -> Result<String, Fail> {
    let fields = fields(alloc, given)?;
    let [front, count, body, back] = fields.as_slice() else {
        return Err(no_row());
    };
    let choice = branches(alloc, count.parse::<u32>()?, body)?;
    let question = format!(in alloc; "{front}{choice}{back}")?;
    answer(rt, alloc, "equiv", question.as_str().as_bytes())
}

#[test]
fn choices_are_limited(rt: HostRuntime) -> Result<(), Fail> {
    // 2,047 branches are 4,095 nodes, and one more 4,097
    let table = "\
+{ ¦ 2047 ¦ Skip ¦ } ~ Skip = no +L_0 left
+{ ¦ 2048 ¦ x ¦ } ~ x = limit 1:1 type size
x;+{ ¦ 2048 ¦ Skip ¦ } ~ Skip = refused 1:1 unbound x
x ~ +{ ¦ 2048 ¦ Skip ¦ } = refused 1:1 unbound x
Int ~ +{ ¦ 2048 ¦ Skip ¦ } = limit 1:7 type size
forall a:*S. Int ~ +{ ¦ 2048 ¦ a ¦ } = limit 1:20 type size
forall a:*S, a:*S. +{ ¦ 2048 ¦ a ¦ } ~ a = refused 1:14 twice a
forall a:*S. +{ ¦ 2047 ¦ a ¦ } ~ Skip = no +L_0 left";
    each_line(
        rt.alloc(),
        table,
        |alloc, given| choice_row(&rt, alloc, given),
    )
}

/// So many branches under 90 `rec`s, each with a message behind it: the grammar has 4,095 letters a branch on the right
/// sides.
fn grammar_row<R: Threads + Sync>(rt: &R, alloc: Global, given: &str) -> Result<String, Fail> {
    let front = "rec x.(".repeat(alloc, 90)?;
    let back = ");!Int".repeat(alloc, 90)?;
    let choice = branches(alloc, given.parse::<u32>()?, "Skip")?;
    let question = format!(in alloc; "{front}+{{{choice}}}{back} ~ Skip")?;
    answer(rt, alloc, "equiv", question.as_str().as_bytes())
}

#[test]
fn grammars_are_limited(rt: HostRuntime) -> Result<(), Fail> {
    let table = "\
256 = no +L_0 left
257 = limit 1:1 type size";
    each_line(
        rt.alloc(),
        table,
        |alloc, given| grammar_row(&rt, alloc, given),
    )
}

// What is repeated in front of a term, and how often; the term; what is repeated behind it as often. What is written of the
// term, or of the module.
const TERMS: &str = "\
( ¦ 199 ¦ x ¦ ) = x
( ¦ 200 ¦ x ¦ ) = limit 1:205 depth
x; ¦ 200 ¦ x ¦ = limit 1:405 depth
1- ¦ 200 ¦ 1 ¦ = limit 1:404 depth";

fn term_row<R: Threads + Sync>(rt: &R, alloc: Global, given: &str) -> Result<String, Fail> {
    let fields = fields(alloc, given)?;
    let [open, times, middle, close] = fields.as_slice() else {
        return Err(no_row());
    };
    let times = times.parse::<usize>()?;
    let (open, close) = (open.repeat(alloc, times)?, close.repeat(alloc, times)?);
    let module = format!(in alloc; "f = {open}{middle}{close}")?;
    let text = answer(rt, alloc, "show", module.as_str().as_bytes())?;
    let term = text.as_str().strip_prefix("f = ").unwrap_or(&text);
    Ok(String::from_str(alloc, term)?)
}

#[test]
fn terms_are_limited(rt: HostRuntime) -> Result<(), Fail> {
    each_line(
        rt.alloc(),
        TERMS,
        |alloc, given| term_row(&rt, alloc, given),
    )
}

// Chains of all operators, each of them the first operand of a longer one: 99,500 terms stand inside one another, each the
// first part of the next, while no token is nested over 200.
fn stairs(alloc: Global) -> Result<String, AllocError> {
    let mut text = format!(in alloc; "f = {}x", "(".repeat(alloc, 198)?)?;
    for count in 1..200 {
        if count > 1 {
            text.push_str(")")?;
        }
        for operand in [" y", " * y", " + y", " && y", " || y"] {
            text.push_str(&operand.repeat(alloc, count)?)?;
        }
    }
    text.push_str("\n")?;
    Ok(text)
}

/// Whether a module is shown as itself.
fn is_shown<R: Threads + Sync>(rt: &R, alloc: Global, module: &str) -> Result<bool, Fail> {
    let text = answer(rt, alloc, "show", module.as_bytes())?;
    Ok(text.as_str() == module)
}

#[test]
fn large_modules_fit_the_stack(rt: HostRuntime) -> Result<(), Fail> {
    let alloc = rt.alloc();
    assert!(rt; is_shown(&rt, alloc, &stairs(alloc)?)?);
    assert!(rt; is_shown(&rt, alloc, &"f = x\n".repeat(alloc, 174_762)?)?);
    let parameters = format!(in alloc; "f{} = x\n", " x".repeat(alloc, 524_285)?)?;
    assert!(rt; is_shown(&rt, alloc, &parameters)?);
    Ok(())
}
