//! What texts of protocols come to, as instructions. What they say of a search, and what is wrong
//! with others, is shown by the stored run of the program `litmus`.

use lot_litmus::code::{
    Access, Instruction, Key, Local, Moves, Operand, Operation, Timing, Validation, Word,
};
use lot_litmus::parse::{ParseError, Parsed, parse};
use std::alloc::Global;
use std::test::Fail;

const MUTEX: &str = "test mutex
let N = 3
word state = 0
key lock
thread locker * N {
    loop {
        was = cas state 0 1
        if was == 0 { break }
        if was == 1 { cas state 1 3 }
        park lock if state == 3
    }
    enter
    leave
    was = cas state 1 0
    if was != 1 { state = 0  unpark_one lock }
}
forall state == 0
";

const STATE: Word = Word { number: 0 };

const LOCK: Key = Key { number: 0 };

const ZERO: Operand = Operand::Constant(0);

const ONE: Operand = Operand::Constant(1);

// The temporary of the mutex, and its `was`.
const SCRATCH: Local = Local { number: 0 };

const WAS: Local = Local { number: 1 };

fn cleared(to: Local) -> Instruction {
    compute(to, Operation::Second, ZERO, ZERO)
}

fn compute(to: Local, operation: Operation, first: Operand, second: Operand) -> Instruction {
    Instruction::Compute {
        to,
        operation,
        first,
        second,
    }
}

fn exchange(to: Local, expected: u8, new: u8) -> Instruction {
    Instruction::CompareExchange {
        to,
        word: STATE,
        expected: Operand::Constant(expected),
        new: Operand::Constant(new),
    }
}

fn unless(target: u16) -> Instruction {
    Instruction::JumpUnless {
        operand: Operand::Local(SCRATCH),
        target,
    }
}

fn takes_the_lock() -> [Instruction; 16] {
    [
        exchange(WAS, 0, 1),
        compute(SCRATCH, Operation::Equal, Operand::Local(WAS), ZERO),
        unless(6),
        cleared(SCRATCH),
        cleared(WAS),
        Instruction::Jump { target: 16 },
        compute(SCRATCH, Operation::Equal, Operand::Local(WAS), ONE),
        cleared(WAS),
        unless(12),
        cleared(SCRATCH),
        exchange(SCRATCH, 1, 3),
        cleared(SCRATCH),
        Instruction::Park {
            key: LOCK,
            validation: Validation::Seen {
                word: STATE,
                operation: Operation::Equal,
                operand: Operand::Constant(3),
            },
            token: ZERO,
            timing: Timing::Endless,
            target: 0,
        },
        Instruction::Sleep {
            to: SCRATCH,
            last: SCRATCH,
            target: 15,
        },
        cleared(SCRATCH),
        Instruction::Jump { target: 0 },
    ]
}

fn gives_it_back() -> [Instruction; 9] {
    [
        Instruction::Enter {
            access: Access::Alone,
        },
        Instruction::Leave,
        exchange(WAS, 1, 0),
        compute(SCRATCH, Operation::Unequal, Operand::Local(WAS), ONE),
        cleared(WAS),
        unless(25),
        cleared(SCRATCH),
        Instruction::Write {
            word: STATE,
            operand: ZERO,
        },
        Instruction::UnparkOne {
            key: LOCK,
            token: ZERO,
        },
    ]
}

// The code of the thread with this number.
fn code_of(parsed: &Parsed, thread: usize) -> &[Instruction] {
    match parsed.test.codes.get(thread) {
        Some(code) => code.instructions.as_slice(),
        None => &[],
    }
}

fn parsed(alloc: Global, text: &str) -> Result<Parsed, ParseError> {
    parse(alloc, text, &[])
}

// The text of a test with one word and one key, whose only thread does this.
fn does(alloc: Global, body: &str) -> Result<Parsed, ParseError> {
    let text = format!(in alloc; "test t\nword w = 0\nkey k\nthread a {{\n{body}\n}}\n")?;
    parsed(alloc, text.as_str())
}

// Whether both bodies come to the same code.
fn do_the_same(alloc: Global, body: &str, other: &str) -> Result<bool, ParseError> {
    let first = does(alloc, body)?;
    let second = does(alloc, other)?;
    Ok(code_of(&first, 0) == code_of(&second, 0))
}

#[test]
fn compiles_a_mutex(rt: HostRuntime) -> Result<(), Fail> {
    let parsed = parsed(rt.alloc(), MUTEX)?;
    let code = code_of(&parsed, 0);
    assert_eq!(rt; code.len(), 25);
    assert!(rt; code.starts_with(&takes_the_lock()));
    assert!(rt; code.ends_with(&gives_it_back()));
    assert!(rt; code == code_of(&parsed, 2));
    assert!(rt; code_of(&parsed, 3).is_empty());
    Ok(())
}

#[test]
fn looks_at_the_ends(rt: HostRuntime) -> Result<(), Fail> {
    let parsed = parsed(rt.alloc(), MUTEX)?;
    let looks = [
        Instruction::AwaitOthers,
        Instruction::Read {
            to: SCRATCH,
            word: STATE,
        },
        compute(SCRATCH, Operation::Equal, Operand::Local(SCRATCH), ZERO),
        Instruction::Assert {
            operand: Operand::Local(SCRATCH),
        },
        cleared(SCRATCH),
    ];
    assert!(rt; code_of(&parsed, 5) == looks.as_slice());
    Ok(())
}

#[test]
fn expands_macros(rt: HostRuntime) -> Result<(), Fail> {
    let text = "test t\nword w = 0\nkey k\nmacro TAKE(word_of, new, got) {
    got = cas word_of 0 new
    if got != 0 { return }
    leave
}
thread a { got = 1  TAKE(w, 7, got)  w = got }";
    let expanded = parsed(rt.alloc(), text)?;
    let inline = "got = 1  got = cas w 0 7  if got != 0 { } else { leave }  w = got";
    let other = does(rt.alloc(), inline)?;
    assert!(rt; code_of(&expanded, 0) == code_of(&other, 0));
    Ok(())
}

#[test]
fn binds_as_rust_does(rt: HostRuntime) -> Result<(), Fail> {
    let pairs = [
        ("x = w  x = x & 1 == 0", "x = w  x = (x & 1) == 0"),
        ("x = w  x = x | x & x + 1", "x = w  x = x | (x & (x + 1))"),
        (
            "x = w  x = x == 1 || x == 2 && x < 3",
            "x = w  x = (x == 1) || ((x == 2) && (x < 3))",
        ),
        ("x = w  x = x - 1 - 1", "x = w  x = (x - 1) - 1"),
        ("x = w  x = !(x == 1)", "x = w  x = x == 1  x = x == 0"),
        ("x = 2 + 3", "x = 5"),
        ("x = w  x = x > 1", "x = w  x = 1 < x"),
    ];
    for (text, other) in pairs {
        assert!(rt; do_the_same(rt.alloc(), text, other)?, "{text}");
    }
    Ok(())
}

#[test]
fn looks_once_or_in_a_section(rt: HostRuntime) -> Result<(), Fail> {
    let once = does(rt.alloc(), "park k if w > 1")?;
    assert_eq!(rt; code_of(&once, 0).len(), 3);
    let section = does(rt.alloc(), "park k if (w & 2) == 0")?;
    let lock = Instruction::Lock {
        key: LOCK,
        other: LOCK,
    };
    assert!(rt; code_of(&section, 0).first().copied() == Some(lock));
    let same = "park k validate { valid = (w & 2) == 0 }";
    let explicit = does(rt.alloc(), same)?;
    assert!(rt; code_of(&explicit, 0).first().copied() == Some(lock));
    Ok(())
}

#[test]
fn waits_where_a_loop_has_no_step(rt: HostRuntime) -> Result<(), Fail> {
    let parsed = does(rt.alloc(), "loop { }")?;
    let wanted = [Instruction::Pass, Instruction::Jump { target: 0 }];
    assert!(rt; code_of(&parsed, 0) == wanted.as_slice());
    Ok(())
}

// Whether the code of the only thread has this instruction.
fn comes_to(alloc: Global, body: &str, wanted: Instruction) -> Result<bool, ParseError> {
    let parsed = does(alloc, body)?;
    Ok(code_of(&parsed, 0).contains(&wanted))
}

#[test]
fn counts_in_sections(rt: HostRuntime) -> Result<(), Fail> {
    let give_up = "park k timeout timed_out { if last { w = 1 } }  w = result";
    assert!(rt; comes_to(rt.alloc(), give_up, Instruction::GiveUp)?);
    let callback = "unpark_one k { if have_more { token = 2 } }";
    assert!(rt;
        comes_to(
            rt.alloc(),
            callback,
            Instruction::Count { to: WAS, key: LOCK }
        )?
    );
    let counted = "x = count k  w = x";
    assert!(rt; comes_to(rt.alloc(), counted, Instruction::Unlock)?);
    let moved = "requeue k k move_one";
    let wanted = Instruction::Requeue {
        key: LOCK,
        other: LOCK,
        moves: Moves::OneMoved,
        token: ZERO,
    };
    assert!(rt; comes_to(rt.alloc(), moved, wanted)?);
    Ok(())
}

#[test]
fn chooses_waiters(rt: HostRuntime) -> Result<(), Fail> {
    let body = "filter k { if waiter == 1 { unpark }  if waiter == 2 { stop } } callback {
        if unparked_threads > 1 && have_more { token = 5 } }";
    let filtering = does(rt.alloc(), body)?;
    assert!(rt;
        code_of(&filtering, 0).iter().any(|instruction| matches!(
            instruction,
            Instruction::UnparkFilter { .. }
        ))
    );
    let requeue = "requeue k k validate { if w == 0 { moves = one } else { moves = one_rest } }
        callback { if requeued_threads != 0 { w = 1 } }";
    let requeuing = does(rt.alloc(), requeue)?;
    let ways = code_of(&requeuing, 0).iter().filter(|instruction| matches!(
        instruction,
        Instruction::Requeue { .. }
    ));
    assert_eq!(rt; ways.count(), 5);
    Ok(())
}

#[test]
fn looks_for_ends(rt: HostRuntime) -> Result<(), Fail> {
    let parsed = parsed(
        rt.alloc(),
        "test t\nword w = 0\nexists w == 1\nnever w == 2",
    )?;
    let looker = parsed.lookers.first().ok_or("none")?;
    assert_eq!(rt; looker.code.instructions.len(), 6);
    assert_eq!(rt; code_of(&parsed, 5).len(), 6);
    Ok(())
}

#[test]
fn a_number_stands_for_one_of_the_text(rt: HostRuntime) -> Result<(), Fail> {
    let parsed = parse(rt.alloc(), MUTEX, &[("N", 5)])?;
    assert!(rt; code_of(&parsed, 4) == code_of(&parsed, 0));
    let error = parse(rt.alloc(), MUTEX, &[("M", 1)]).err().ok_or("M")?;
    assert_eq!(rt;
        error.to_string(rt.alloc())?.as_str(),
        "no `let` names \"M\""
    );
    Ok(())
}
